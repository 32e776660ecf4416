//! Ports that play a script.
ghost use Rattle.std.specs.Prelude.{◌≡◌, ◌≤◌, ◌<◌, ◌+◌, ◌++◌, ◌∷◌, [], ℕ, true, Some, length, IfOk, IfSome, position, vec_len, vec_capacity};
ghost use Rattle.std.specs.List.{count_by, slice_get};
ghost use Rattle.farm_base.specs.InMemory as base;
ghost use Rattle.reactor_ports.specs.declared.events.PortEvent.TheVariants as event;
ghost use Rattle.reactor_ports.specs.declared.events.PortItem.TheVariants as item;
ghost use Rattle.reactor_ports.specs.Told.{Hears, IsPieceOf, Sends, Listens, Closes, IsOpen, EventCounts, SendCounts, ListenCounts};
ghost use Rattle.reactor_ports.specs.Held.{PortsHeld, ports_state, first_ports, taken_of, up_of, change, closed, ListensHeld, SendsHeld};
ghost use Rattle.reactor_ports.specs.Playing.{is_due, BeginsLive, Readies, readied, play_step, play_due, PlayedBy, Plays, IsOver};
ghost use Rattle.reactor_ports.specs.Scripts.{is_valid};
ghost use Rattle.reactor_ports.specs.inner.Moving.{Moves};

use crate::mem_counts::Counts;
use crate::peers::{self, Peer};
use crate::playing::Script;
use crate::port_steps::PortStep;
use crate::{PortEvent, PortFault, PortItem, Ports, SendFault, ThreePorts};
use farm_base::{Bells, Bytes, NoBell, NoMemory, Text};
use std::alloc::Global;
use std::marker::Model;
use std::sync::Arc;
use std::thread;

/// How often a Woken gives up its processor at most, so that the other fronts may send.
const YIELDS: u32 = 200;

/// Ports that play a script of steps to one of three fronts, and keep a record of all that happened.
/// Before each step every open connection that has not ended and whose last send was short hears
/// Writable once. A step on a connection that was closed, or lost by a failed send, is passed over.
/// When the script is through they answer Finished.
#[derive(Drop)]
pub struct MemPorts {
    alloc: Global,
    front: u32,
    counts: Arc<Counts, Global>,
    log: Vec<PortItem>,
    peers: Vec<Peer>,
    script: Script,
    most: usize,
    fails: Vec<u64>,
    sends: u64,
    deaf: bool,
    turns: u64,
}

impl Model for MemPorts {
    ghost use Rattle.std.specs.Prelude.{◌≤◌, ◌^◌, length};
    ghost use Rattle.reactor_ports.specs.Held.{PortsHeld};

    ghost Value = { PortsHeld };

    ghost view = { λ p. record {
      log = p.log.items;
      peers = p.peers.items;
      steps = p.script.steps;
      used = p.script.used;
      ready = p.script.ready;
      most = p.most;
      fails = p.fails.items;
      sends = p.sends;
      deaf = p.deaf;
      turns = p.turns;
    } };

    ghost invariant = { λ p. length p.peers.items ≤ 2 ^ 32 };
}

// Adds a line of an event that has no piece, and answers the event.
fn tell(log: &mut Vec<PortItem>, alloc: Global, event: PortEvent) -> PortEvent
    requires { vec_len log.old < vec_capacity log.old }
    ensures line { log.new.items ≡ log.old.items ++ item.Heard event [] ∷ [] }
    ensures event { result ≡ event }
{
    log.push(PortItem::Heard(event, Bytes::from_vec(Vec::new(alloc))))
        .unwrap();
    event
}

// Copies a piece into the room, and once more for the record; none where memory is wanting.
fn give(alloc: Global, piece: &[u8], room: &mut Vec<u8>) -> Option<Bytes>
    ensures { IfSome result
        (λ copy. (copy ≡ piece.now) × (room.new.items ≡ room.old.items ++ piece.now)) }
{
    let Ok(copy) = Bytes::of(alloc, piece) else {
        return None;
    };
    if room.extend_from_slice(piece).is_err() {
        return None;
    }
    Some(copy)
}

fn is_to_fail(numbers: &[u64], n: u64) -> bool
    ensures { result ≡ base.is_to_fail numbers.now n }
{
    numbers.iter().any(|k| *k == n)
}

// Gives up the processor until the front has sent so many bytes, but not for long.
fn pause(counts: &Counts, front: u32, bytes: u64) {
    for _ in 0..YIELDS {
        if counts.has_sent(front, bytes) {
            return;
        }
        thread::yield_now();
    }
}

impl MemPorts {
    fn one(
        alloc: Global,
        front: u32,
        counts: Arc<Counts, Global>,
        steps: Vec<PortStep>,
        take: usize,
        turns: u64,
    ) -> MemPorts
        requires { is_valid [] steps.items ≡ true }
        ensures { result ≡ first_ports steps.items take turns }
    {
        MemPorts {
            alloc,
            front,
            counts,
            log: Vec::new(alloc),
            peers: Vec::new(alloc),
            script: Script::new(steps),
            most: take,
            fails: Vec::new(alloc),
            sends: 0,
            deaf: false,
            turns,
        }
    }

    /// The ports of the three fronts, which share their counts of sent bytes. A send takes at most
    /// `take` bytes, and an Await answers Woken at most `turns` times.
    pub fn three(
        alloc: Global,
        renderd: Vec<PortStep>,
        tiles: Vec<PortStep>,
        control: Vec<PortStep>,
        take: usize,
        turns: u64,
    ) -> Result<ThreePorts<MemPorts, NoBell>, NoMemory>
        requires renderd { is_valid [] renderd.items ≡ true }
        requires tiles { is_valid [] tiles.items ≡ true }
        requires control { is_valid [] control.items ≡ true }
        ensures renderd { IfOk result
            (λ ports. ports.renderd ≡ first_ports renderd.items take turns) }
        ensures tiles { IfOk result (λ ports. ports.tiles ≡ first_ports tiles.items take turns) }
        ensures control { IfOk result
            (λ ports. ports.control ≡ first_ports control.items take turns) }
    {
        let counts = Counts::new(alloc)?;
        let second = Arc::try_clone(&counts)?;
        let third = Arc::try_clone(&counts)?;
        Ok(ThreePorts {
            renderd: MemPorts::one(alloc, 0, counts, renderd, take, turns),
            tiles: MemPorts::one(alloc, 1, second, tiles, take, turns),
            control: MemPorts::one(alloc, 2, third, control, take, turns),
            bells: Bells {
                renderd: NoBell,
                tiles: NoBell,
                control: NoBell,
            },
        })
    }

    /// The sends of these numbers are to fail, counted from 0.
    pub fn fail(&mut self, sends: Vec<u64>)
        ensures { self.new ≡ record self.old { fails = sends.items } }
    {
        self.fails = sends;
    }

    /// Every later listen is to fail.
    pub fn deaf(&mut self)
        ensures { self.new ≡ record self.old { deaf = true } }
    {
        self.deaf = true;
    }

    /// The bytes taken on the connection, none for one that was never opened.
    pub fn taken(&self, conn: u32) -> &[u8]
        ensures { result.now ≡ taken_of (slice_get self.now.peers conn) }
    {
        peers::taken_at(self.peers.as_slice(), conn)
    }

    /// Whether the connection is open.
    pub fn is_open(&self, conn: u32) -> bool
        ensures { result ≡ up_of (slice_get self.now.peers conn) }
    {
        peers::is_up_at(self.peers.as_slice(), conn)
    }

    /// The record of all that happened.
    pub fn record(&self) -> &[PortItem]
        ensures { result.now ≡ self.now.log }
    {
        self.log.as_slice()
    }

    fn pass(&mut self)
        ensures { Moves self.old self.new }
    {
        self.script.pass(self.peers.as_slice(), &self.counts);
    }

    // Sees once before each step who is to hear Writable; past the last step nobody is.
    fn mark(&mut self)
        ensures { self.new ≡ readied self.old }
    {
        if !self.script.is_ready() && !self.script.is_through() {
            peers::mark_all(self.peers.as_mut_slice());
            self.script.get_ready();
        }
    }

    fn settle(&mut self)
        ensures { Readies self.old self.new }
    {
        self.pass();
        self.mark();
    }

    fn tell_writable(&mut self, place: usize) -> PortEvent
        requires { position is_due self.old.peers ≡ Some place }
        ensures { PlayedBy (play_due (Some place) self.old) self.old result self.new [] }
    {
        if self.log.reserve(1).is_err() {
            return PortEvent::NoMemory;
        }
        peers::tell_writable(self.peers.as_mut_slice(), place);
        tell(&mut self.log, self.alloc, PortEvent::Writable(place as u32))
    }

    // Plays the step that stands first. Room for its line, and for a connection, is taken before
    // anything changes.
    fn play(&mut self, room: &mut Vec<u8>) -> PortEvent
        requires live { BeginsLive self.old.peers self.old.steps }
        requires empty { room.old.items ≡ [] }
        ensures played { PlayedBy (play_step self.old.steps self.old)
            self.old result self.new room.new.items }
        ensures piece { IsPieceOf result room.new.items }
    {
        if self.log.reserve(1).is_err() || self.peers.reserve(1).is_err() {
            return PortEvent::NoMemory;
        }
        match self.script.first(self.peers.as_slice()) {
            None => tell(&mut self.log, self.alloc, PortEvent::Finished),
            Some(PortStep::Open) => {
                let Ok(conn) = u32::try_from(self.peers.len()) else {
                    return PortEvent::NoMemory;
                };
                self.peers.push(Peer::fresh(self.alloc)).unwrap();
                self.script.step_on();
                tell(&mut self.log, self.alloc, PortEvent::Opened(conn))
            }
            Some(PortStep::Bytes(conn, bytes)) => {
                let event = PortEvent::Bytes(*conn);
                let Some(piece) = give(self.alloc, bytes.as_slice(), room) else {
                    return PortEvent::NoMemory;
                };
                self.script.step_on();
                self.log.push(PortItem::Heard(event, piece)).unwrap();
                event
            }
            Some(PortStep::End(conn)) => {
                let conn = *conn;
                peers::end(self.peers.as_mut_slice(), conn as usize);
                self.script.step_on();
                tell(&mut self.log, self.alloc, PortEvent::Ended(conn))
            }
            Some(PortStep::Lose(conn)) => {
                let conn = *conn;
                peers::close(self.peers.as_mut_slice(), conn as usize);
                self.script.step_on();
                tell(&mut self.log, self.alloc, PortEvent::Lost(conn))
            }
            Some(PortStep::Await(front, bytes)) => {
                if self.turns <= self.script.used() {
                    return tell(&mut self.log, self.alloc, PortEvent::Finished);
                }
                pause(&self.counts, *front, *bytes);
                self.script.wait();
                tell(&mut self.log, self.alloc, PortEvent::Woken)
            }
            Some(PortStep::Break) => {
                self.script.step_on();
                tell(&mut self.log, self.alloc, PortEvent::Broken)
            }
        }
    }

    fn play_next(&mut self, room: &mut Vec<u8>) -> PortEvent
        ensures plays { Plays self.old self.new result room.new.items }
        ensures piece { IsPieceOf result room.new.items }
    {
        room.clear();
        self.settle();
        match peers::first_due(self.peers.as_slice()) {
            Some(place) => self.tell_writable(place),
            None => self.play(room),
        }
    }

    fn take_in(&mut self, conn: u32, bytes: &[u8]) -> Result<usize, SendFault>
        requires { up_of (slice_get self.old.peers conn) ≡ true }
        ensures { SendsHeld self.old self.new conn bytes.now result }
    {
        self.log.reserve(1)?;
        if is_to_fail(self.fails.as_slice(), self.sends) {
            self.sends = self.sends.saturating_add(1);
            peers::close(self.peers.as_mut_slice(), conn as usize);
            self.log
                .push(PortItem::Sent(conn, bytes.len(), None))
                .unwrap();
            return Err(SendFault::Failed);
        }
        let count = bytes.len().min(self.most);
        peers::gain(self.peers.as_mut_slice(), conn as usize, bytes, count)?;
        self.sends = self.sends.saturating_add(1);
        self.log
            .push(PortItem::Sent(conn, bytes.len(), Some(count)))
            .unwrap();
        self.counts.add(self.front, count as u64);
        Ok(count)
    }

    fn shut(&mut self, conn: u32)
        requires { up_of (slice_get self.old.peers conn) ≡ true }
        ensures { self.new ≡ record self.old { peers = change closed conn self.old.peers } }
    {
        peers::close(self.peers.as_mut_slice(), conn as usize);
    }

    fn hear_at(&mut self, address: &str) -> Result<(), PortFault>
        ensures { ListensHeld self.old self.new address.now result }
    {
        self.log.reserve(1)?;
        let address = Text::of(self.alloc, address)?;
        self.log
            .push(PortItem::Listened(address, self.deaf))
            .unwrap();
        if self.deaf {
            return Err(PortFault::Failed);
        }
        Ok(())
    }
}

impl Ports for MemPorts {
    ghost use Rattle.reactor_ports.specs.Held.{ports_state};

    ghost state = { ports_state };

    /// As the trait says, and exactly: Failed where the ports are deaf.
    fn listen(&mut self, address: &str) -> Result<(), PortFault>
        ensures told { Listens address.now result (ports_state self.old).told
            (ports_state self.new).told }
        ensures cause { ListenCounts (ports_state self.old).faults
            (ports_state self.new).faults result }
        ensures exact { ListensHeld self.old self.new address.now result }
    {
        self.hear_at(address)
    }

    /// As the trait says, and exactly the event that is next. Finished comes only where the script is
    /// through, or the Await that stands first has used its turns.
    fn next(&mut self, room: &mut Vec<u8>) -> PortEvent
        ensures told { Hears result room.new.items (ports_state self.old).told
            (ports_state self.new).told }
        ensures piece { IsPieceOf result room.new.items }
        ensures cause { EventCounts (ports_state self.old).faults
            (ports_state self.new).faults result }
        ensures exact { Plays self.old self.new result room.new.items }
        ensures over { result ≡ event.Finished
            → IsOver self.new.steps self.new.used self.new.turns }
    {
        self.play_next(room)
    }

    /// As the trait says, and exactly: Failed where this send is to fail, else so many bytes are taken as
    /// a send takes at most.
    fn send(&mut self, conn: u32, bytes: &[u8]) -> Result<usize, SendFault>
        requires { IsOpen conn (ports_state self.old).told }
        ensures told { Sends conn bytes.now result (ports_state self.old).told
            (ports_state self.new).told }
        ensures count { IfOk result (λ n. n ≤ length bytes.now) }
        ensures cause { SendCounts (ports_state self.old).faults
            (ports_state self.new).faults result }
        ensures exact { SendsHeld self.old self.new conn bytes.now result }
    {
        self.take_in(conn, bytes)
    }

    /// As the trait says, and nothing else changes.
    fn close(&mut self, conn: u32)
        requires { IsOpen conn (ports_state self.old).told }
        ensures told { Closes conn (ports_state self.old).told (ports_state self.new).told }
        ensures same { (ports_state self.new).faults ≡ (ports_state self.old).faults }
        ensures exact { self.new ≡ record self.old { peers = change closed conn self.old.peers } }
    {
        self.shut(conn)
    }
}
