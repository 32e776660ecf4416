//! Ports over sockets: a list of events out of what the system says of them.
ghost use Rattle.std.specs.Prelude.{◌≡◌, ◌≤◌, ◌<◌, length, IfOk, IfSome, IfNone, vec_len};
ghost use Rattle.farm_base.specs.Outside.{Counted};
ghost use Rattle.reactor_ports.specs.Told.{IsPieceOf, EventCounts};
ghost use Rattle.reactor_ports.specs.inner.Pieces.{IsQuiet};

use crate::links::{Heard, Link};
use crate::streams::{Listener, Stream};
use crate::{PortEvent, PortFault, Ports, SendFault, ThreePorts, address};
use farm_base::{Bell, Bells};
use mio::{Events, Poll, Token, Waker};
use once_cell::race::OnceBox;
use std::alloc::{AllocError, Global};
use std::collections::VecDeque;
use std::net::Net;
use std::sync::Arc;
use std::time::Duration;
use std::{io, rt};

/// The token of the listening socket and that of the bell; a connection's token is its number.
const LISTENER: usize = usize::MAX;

const BELL: usize = usize::MAX - 1;

/// How many events of the system are taken at once.
const EVENTS: usize = 1024;

/// After so many events in a row it is seen whether there is something new, as a bell.
const TURN: u32 = 64;

/// How often one call of `next` looks for an event at most.
const LOOKS: u32 = 1024;

/// How long `next` waits at most while connections wait that could not be accepted, in milliseconds.
const CROWDED: u64 = 50;

/// What the system gives to wait with for events.
#[derive(Drop)]
struct Watch {
    poll: Poll,
    events: Events,
}

/// Ports over the system's sockets, through a runtime. They do not tell what they hold; what is proved
/// of them is that they count their failures, and that a piece has 1 to 4,096 bytes.
#[derive(Drop)]
pub struct SocketPorts<R> {
    rt: R,
    alloc: Global,
    // taken at the first listen
    watch: Option<Watch>,
    // where the bell finds what wakes these ports
    waker: Arc<OnceBox<Waker>>,
    listener: Option<Listener>,
    // a connection may wait to be accepted
    can_accept: bool,
    // one waits that could not be accepted, mostly for want of descriptors
    crowded: bool,
    // the last event was Opened, so those who are connected come first
    opened_last: bool,
    woken: bool,
    // in ascending order of their numbers
    links: Vec<Link>,
    opened: u64,
    // connections on which there may be something, each once; each gives one event in turn
    queue: VecDeque<u32, Global>,
    // events given since it was last seen whether there is something new
    given: u32,
    faults: u64,
}

/// A bell that ends the wait of its ports, from any thread. Before they listen there is no wait.
#[derive(Drop)]
pub struct SocketBell {
    waker: Arc<OnceBox<Waker>>,
}

impl Bell for SocketBell {
    fn ring(&self) {
        if let Some(waker) = self.waker.get() {
            drop(waker.wake());
        }
    }
}

impl<R: Net + rt::Files> SocketPorts<R> {
    /// Ports that listen nowhere yet, and their bell. Nothing is taken of the system but memory.
    pub fn new(alloc: Global, rt: R) -> Result<(SocketPorts<R>, SocketBell), AllocError>
    where
        R: Drop,
        ensures { IfOk result (λ made. made.0.faults ≡ 0) }
    {
        let waker = Arc::new(alloc, OnceBox::new(alloc))?;
        let bell = SocketBell {
            waker: waker.clone()?,
        };
        let ports = SocketPorts {
            rt,
            alloc,
            watch: None,
            waker,
            listener: None,
            can_accept: false,
            crowded: false,
            opened_last: false,
            woken: false,
            links: Vec::new(alloc),
            opened: 0,
            queue: VecDeque::new(alloc),
            given: 0,
            faults: 0,
        };
        Ok((ports, bell))
    }

    /// The ports of the three fronts, as the program has them. They listen nowhere yet, and nothing is taken of the
    /// system but memory.
    pub fn three(alloc: Global, rt: R) -> Result<ThreePorts<SocketPorts<R>, SocketBell>, AllocError>
    where
        R: Copy + Drop,
        ensures renderd { IfOk result (λ ports. ports.renderd.faults ≡ 0) }
        ensures tiles { IfOk result (λ ports. ports.tiles.faults ≡ 0) }
        ensures control { IfOk result (λ ports. ports.control.faults ≡ 0) }
    {
        let (renderd, first) = SocketPorts::new(alloc, rt)?;
        let (tiles, second) = SocketPorts::new(alloc, rt)?;
        let (control, third) = SocketPorts::new(alloc, rt)?;
        let bells = Bells {
            renderd: first,
            tiles: second,
            control: third,
        };
        Ok(ThreePorts {
            renderd,
            tiles,
            control,
            bells,
        })
    }

    fn watch(&mut self) -> io::Result<()>
        ensures { self.new.faults ≡ self.old.faults }
    {
        if self.watch.is_some() {
            return Ok(());
        }
        let poll = Poll::new(&self.rt)?;
        let waker = Waker::new(poll.registry(), Token(BELL))?;
        let events = Events::with_capacity(self.alloc, EVENTS)?;
        drop(self.waker.set(Box::new(self.alloc, waker)?));
        self.watch = Some(Watch { poll, events });
        Ok(())
    }

    fn bind(&mut self, address: &str) -> io::Result<()>
        ensures { self.new.faults ≡ self.old.faults }
    {
        self.watch()?;
        let Some(watch) = &self.watch else {
            return Err(io::Error::from(io::ErrorKind::NotConnected));
        };
        let mut listener = address::listen(&self.rt, address)?;
        listener.register(watch.poll.registry(), Token(LISTENER))?;
        self.listener = Some(listener);
        Ok(())
    }

    fn place_of(&self, conn: u32) -> Option<usize>
        ensures { IfSome result (λ place. place < vec_len self.now.links) }
    {
        self.links
            .binary_search_by_key(&conn, |link| link.conn)
            .ok()
    }

    fn count(&mut self)
        ensures { Counted self.old.faults self.new.faults }
    {
        self.faults = self.faults.saturating_add(1);
    }

    // Lets a connection go. Its descriptor is free, so that another one may be accepted.
    fn remove(&mut self, place: usize)
        requires { place < vec_len self.old.links }
        ensures { self.new.faults ≡ self.old.faults }
    {
        self.links.remove(place);
        self.can_accept = self.can_accept || self.crowded;
        self.crowded = false;
    }

    // Sees what is new, where nothing is known of or many events were given in a row. It waits only where nothing is
    // known of.
    fn refresh(&mut self) -> io::Result<()>
        ensures { self.new.faults ≡ self.old.faults }
    {
        let idle = self.queue.is_empty() && !self.can_accept && !self.woken;
        if !idle && self.given < TURN {
            return Ok(());
        }
        self.given = 0;
        self.queue.reserve(self.links.len())?;
        let patience = match (idle, self.crowded) {
            (false, _) => Some(Duration::ZERO),
            (true, true) => Some(Duration::from_millis(CROWDED)),
            (true, false) => None,
        };
        let Some(watch) = &mut self.watch else {
            return Err(io::Error::from(io::ErrorKind::NotConnected));
        };
        watch.poll.poll(&mut watch.events, patience)?;
        self.can_accept = self.can_accept || self.crowded;
        self.crowded = false;
        for event in watch.events.iter() {
            match event.token().0 {
                BELL => self.woken = true,
                LISTENER => self.can_accept = true,
                token => {
                    let Ok(conn) = u32::try_from(token) else {
                        continue;
                    };
                    let found = self.links.binary_search_by_key(&conn, |link| link.conn);
                    let Ok(place) = found else {
                        continue;
                    };
                    let closing = event.is_read_closed() || event.is_error();
                    if self.links[place].note(event.is_readable(), closing, event.is_writable()) {
                        self.queue.push_back(conn)?;
                    }
                }
            }
        }
        Ok(())
    }

    // Accepts a connection, if one waits. Where it can't be accepted, for want of descriptors or of
    // memory, it waits on.
    fn accept(&mut self) -> Option<PortEvent>
        ensures event { IfSome result (λ e. IsQuiet e) }
        ensures same { self.new.faults ≡ self.old.faults }
    {
        let numbered = u32::try_from(self.opened);
        let (Some(listener), Some(watch), Ok(conn)) = (&self.listener, &self.watch, numbered) else {
            self.can_accept = false;
            return None;
        };
        let queued = self.links.len().saturating_add(1);
        let room = self.links.reserve(1).is_ok() && self.queue.reserve(queued).is_ok();
        if !room {
            self.crowd();
            return None;
        }
        match listener.accept() {
            Ok(stream) => {
                let link = Link::new(conn, stream, watch.poll.registry()).ok()?;
                self.queue.push_back(conn).ok()?;
                self.links.push(link).ok()?;
                self.opened = self.opened.saturating_add(1);
                Some(PortEvent::Opened(conn))
            }
            Err(error) => {
                match error.kind() {
                    io::ErrorKind::WouldBlock => self.can_accept = false,
                    io::ErrorKind::ConnectionAborted | io::ErrorKind::Interrupted => {}
                    _ => self.crowd(),
                }
                None
            }
        }
    }

    fn crowd(&mut self)
        ensures { self.new.faults ≡ self.old.faults }
    {
        self.can_accept = false;
        self.crowded = true;
    }

    fn hear(&mut self, place: usize, room: &mut Vec<u8>) -> Option<PortEvent>
        requires { place < vec_len self.old.links }
        ensures event { IfSome result
            (λ e. IsPieceOf e room.new.items × EventCounts self.old.faults self.new.faults e) }
        ensures none { IfNone result (self.new.faults ≡ self.old.faults) }
    {
        let conn = self.links[place].conn;
        if self.links[place].take_writable() {
            return Some(PortEvent::Writable(conn));
        }
        match self.links[place].read(room) {
            Heard::Piece => Some(PortEvent::Bytes(conn)),
            Heard::End => Some(PortEvent::Ended(conn)),
            Heard::Nothing => None,
            Heard::NoMemory => Some(PortEvent::NoMemory),
            Heard::Failed => {
                self.remove(place);
                self.count();
                Some(PortEvent::Lost(conn))
            }
        }
    }

    // What there is on the connection that stands first in the queue, if anything. Where there may be
    // more on it, it goes to the queue's end.
    fn hear_first(&mut self, room: &mut Vec<u8>) -> Option<PortEvent>
        ensures event { IfSome result
            (λ e. IsPieceOf e room.new.items × EventCounts self.old.faults self.new.faults e) }
        ensures none { IfNone result (self.new.faults ≡ self.old.faults) }
    {
        let conn = *self.queue.front()?;
        let event = match self.place_of(conn) {
            Some(place) => self.hear(place, room),
            None => None,
        };
        let stays = match self.place_of(conn) {
            Some(place) => {
                let link = &mut self.links[place];
                link.queued = link.is_ready();
                link.queued
            }
            None => false,
        };
        if stays && !self.queue.is_empty() {
            self.queue.rotate_left(1);
        } else {
            self.queue.pop_front();
        }
        event
    }

    // The next event of what is known, if there is one: first a bell, then a new connection and what
    // there is on one in turn.
    fn ready(&mut self, room: &mut Vec<u8>) -> Option<PortEvent>
        ensures event { IfSome result
            (λ e. IsPieceOf e room.new.items × EventCounts self.old.faults self.new.faults e) }
        ensures none { IfNone result (self.new.faults ≡ self.old.faults) }
    {
        if self.woken {
            self.woken = false;
            return Some(PortEvent::Woken);
        }
        if self.can_accept && (!self.opened_last || self.queue.is_empty()) {
            if let Some(event) = self.accept() {
                self.opened_last = true;
                return Some(event);
            }
        }
        self.opened_last = false;
        self.hear_first(room)
    }
}

impl<R: Net + rt::Files> Ports for SocketPorts<R> {
    ghost use Rattle.farm_base.specs.Outside.{untold};

    ghost state = { λ p. untold p.faults };

    /// As the trait says. Failed where the address is none of the two kinds or the system refuses it, as
    /// one that is in use, or gives nothing to wait with. A socket file that an earlier run left is replaced.
    fn listen(&mut self, address: &str) -> Result<(), PortFault> {
        match self.bind(address) {
            Ok(()) => Ok(()),
            Err(error) if error.kind() == io::ErrorKind::OutOfMemory => Err(PortFault::NoMemory),
            Err(_) => {
                self.count();
                Err(PortFault::Failed)
            }
        }
    }

    /// As the trait says. Waits where there is no event; a bell ends the wait. Each connection gives one
    /// piece in turn. Broken before the first listen.
    fn next(&mut self, room: &mut Vec<u8>) -> PortEvent {
        for _ in 0..LOOKS {
            match self.refresh() {
                Ok(()) => {}
                Err(error) if error.kind() == io::ErrorKind::OutOfMemory => {
                    return PortEvent::NoMemory;
                }
                Err(_) => {
                    self.count();
                    return PortEvent::Broken;
                }
            }
            if let Some(event) = self.ready(room) {
                self.given = self.given.saturating_add(1);
                return event;
            }
        }
        PortEvent::Woken
    }

    /// As the trait says. Takes nothing of a connection that is not open.
    fn send(&mut self, conn: u32, bytes: &[u8]) -> Result<usize, SendFault> {
        let Some(place) = self.place_of(conn) else {
            return Ok(0);
        };
        let Some(watch) = &self.watch else {
            return Ok(0);
        };
        match self.links[place].write(watch.poll.registry(), bytes) {
            Ok(count) => Ok(count),
            Err(error) if error.kind() == io::ErrorKind::OutOfMemory => Err(SendFault::NoMemory),
            Err(_) => {
                self.remove(place);
                self.count();
                Err(SendFault::Failed)
            }
        }
    }

    /// As the trait says. Closes nothing where the connection is not open. What has come on it and was not
    /// read is passed over first.
    fn close(&mut self, conn: u32) {
        if let Some(place) = self.place_of(conn) {
            self.links[place].pass_over();
            self.remove(place);
        }
    }
}
