//! The bytes of a front that were answered and not yet taken.
ghost use Rattle.std.specs.Prelude.{◌≡◌, ◌≤◌, ◌<◌, ◌+◌, ◌++◌, ◌∷◌, [], ◌==◌, ℕ, true, false, List, None, Some, length, map, take, drop, position, OnOk, OnErr};
ghost use Rattle.std.specs.Option.{is_some};
ghost use Rattle.reactor_ports.specs.Boxes.{rest_at, put_rest, without, HasRest, Answered, Offered, as_rest};
ghost use Rattle.reactor_ports.specs.Told.{IsOpen, SendCounts};
ghost use Rattle.reactor_ports.specs.inner.Places.{Here};

use crate::ends::Rest;
use crate::events::SendFault;
use crate::ports::Ports;
use farm_base::{Bytes, MOST_REST_BYTES, NoMemory};
use std::alloc::{AllocError, Global};
use std::marker::Model;
use std::mem::swap;

/// Why an answer was not put into an outbox; after either nothing has changed.
#[derive(Clone, Copy)]
pub enum BoxFault {
    /// The rest would pass 1,048,576 bytes.
    Full,
    /// Want of memory.
    NoMemory,
}

impl From<AllocError> for BoxFault {
    ghost use Rattle.reactor_ports.specs.declared.outbox.BoxFault.TheVariants.{NoMemory};

    ghost from_gives = { λ _ e. e ≡ NoMemory };

    fn from(_refused: AllocError) -> BoxFault {
        BoxFault::NoMemory
    }
}

/// A connection and its rest. The first `start` bytes are gone: a rest that is taken in many small sends
/// is not moved at each.
#[derive(Drop)]
struct Pending {
    conn: u32,
    bytes: Vec<u8>,
    start: usize,
}

impl Model for Pending {
    ghost use Rattle.std.specs.Prelude.{ℕ, List, ◌≤◌, length, drop};

    ghost Value = { ℕ × List ℕ };

    ghost view = { λ p. (p.conn, drop p.start p.bytes.items) };

    ghost invariant = { λ p. p.start ≤ length p.bytes.items };
}

/// Takes so many bytes out at the front, of which there are as many.
pub fn drop_front(bytes: &mut Vec<u8>, count: usize)
    requires { count ≤ length bytes.old.items }
    ensures { bytes.new.items ≡ drop count bytes.old.items }
{
    let left = bytes.len() - count;
    bytes.rotate_left(count);
    bytes.truncate(left);
}

impl Pending {
    fn rest(&self) -> &[u8]
        ensures { result.now ≡ self.now.1 }
    {
        &self.bytes[self.start..]
    }

    // Puts bytes behind the rest. Where no fewer bytes are gone than are left, they are taken out first.
    fn add(&mut self, bytes: &[u8]) -> Result<(), AllocError>
        ensures done { OnOk result (self.new ≡ (self.old.0, self.old.1 ++ bytes.now)) }
        ensures refused { OnErr result (self.new ≡ self.old) }
    {
        if self.bytes.len() - self.start <= self.start {
            drop_front(&mut self.bytes, self.start);
            self.start = 0;
        }
        self.bytes.extend_from_slice(bytes)
    }

    // Makes the bytes its rest, where it has none, in exchange for the vector that it had.
    fn exchange(&mut self, bytes: &mut Vec<u8>)
        ensures { self.new ≡ (self.old.0, bytes.old.items) }
    {
        swap(&mut self.bytes, bytes);
        self.start = 0;
    }

    fn skip(&mut self, taken: usize)
        requires { taken ≤ length self.old.1 }
        ensures { self.new ≡ (self.old.0, drop taken self.old.1) }
    {
        self.start += taken;
    }

    fn into_rest(mut self, front: u32) -> Rest
        ensures { result ≡ as_rest front self }
    {
        drop_front(&mut self.bytes, self.start);
        Rest {
            front,
            conn: self.conn,
            bytes: Bytes::from_vec(self.bytes),
        }
    }
}

/// The bytes of a front that were answered and not yet taken, which contracts see as a list of pairs: a
/// connection and its rest, of at most 1,048,576 bytes. A connection is added only where it is not
/// there, so it stands in the list once.
#[derive(Drop)]
pub struct Outbox {
    items: Vec<Pending>,
    // room for all rests, so that they are handed back without memory
    rests: Vec<Rest>,
}

impl Model for Outbox {
    ghost use Rattle.std.specs.Prelude.{◌≡◌, ℕ, List, [], ◌≤◌, length, All, vec_len, vec_capacity};
    ghost use Rattle.farm_base.specs.Limits.{most_rest_bytes};

    ghost Value = { List (ℕ × List ℕ) };

    ghost view = { λ b. b.items.items };

    ghost invariant = { λ b. All (λ (p : ℕ × List ℕ). length p.1 ≤ most_rest_bytes) b.items.items
        × (b.rests.items ≡ []) × (vec_len b.items ≤ vec_capacity b.rests) };
}

fn place_of(items: &[Pending], conn: u32) -> Option<usize>
    ensures { result ≡ position (λ (p : ℕ × List ℕ). p.0 == conn) items.now }
{
    items.iter().position(|pending| pending.conn == conn)
}

fn there(items: &[Pending], conn: u32) -> usize
    requires { HasRest items.now conn }
    ensures { Here items.now conn result }
{
    let Some(place) = place_of(items, conn) else {
        unreachable!();
    };
    place
}

impl Outbox {
    /// An empty outbox.
    pub fn new(alloc: Global) -> Outbox
        ensures { result ≡ [] }
    {
        Outbox {
            items: Vec::new(alloc),
            rests: Vec::new(alloc),
        }
    }

    /// Whether the connection is there.
    pub fn has(&self, conn: u32) -> bool
        ensures exact { result ≡ is_some (rest_at self.now conn) }
        ensures there { result ≡ true → HasRest self.now conn }
        ensures absent { result ≡ false → rest_at self.now conn ≡ None }
    {
        place_of(self.items.as_slice(), conn).is_some()
    }

    /// Adds the connection last, with no bytes; after want of memory all is as before.
    pub fn begin(&mut self, alloc: Global, conn: u32) -> Result<(), NoMemory>
        requires { rest_at self.old conn ≡ None }
        ensures done { OnOk result (self.new ≡ self.old ++ (conn, []) ∷ []) }
        ensures refused { OnErr result (self.new ≡ self.old) }
    {
        self.rests.reserve(self.items.len() + 1)?;
        self.items.push(Pending {
            conn,
            bytes: Vec::new(alloc),
            start: 0,
        })?;
        Ok(())
    }

    /// Puts bytes behind the connection's rest. Full comes exactly where the rest would pass 1,048,576
    /// bytes.
    pub fn answer(&mut self, conn: u32, bytes: &[u8]) -> Result<(), BoxFault>
        requires { HasRest self.old conn }
        ensures { Answered self.old conn bytes.now result self.new }
    {
        let place = there(self.items.as_slice(), conn);
        if MOST_REST_BYTES - self.items[place].rest().len() < bytes.len() {
            return Err(BoxFault::Full);
        }
        self.items[place].add(bytes)?;
        Ok(())
    }

    /// As `answer`, of bytes that are given up: where the connection has no rest it gets the vector itself, which is
    /// not copied, and `bytes` has what is left of another one.
    pub fn answer_with(&mut self, conn: u32, bytes: &mut Vec<u8>) -> Result<(), BoxFault>
        requires { HasRest self.old conn }
        ensures { Answered self.old conn bytes.old.items result self.new }
    {
        let place = there(self.items.as_slice(), conn);
        if bytes.len() > MOST_REST_BYTES || !self.items[place].rest().is_empty() {
            return self.answer(conn, bytes.as_slice());
        }
        self.items[place].exchange(bytes);
        Ok(())
    }

    /// Does nothing for an empty rest; else makes one send of the whole rest, and takes what was taken
    /// off the rest's front. A refusal of the send is handed on, and the rest is as before.
    pub fn offer<P: Ports>(&mut self, conn: u32, ports: &mut P) -> Result<(), SendFault>
        requires rest { HasRest self.old conn }
        requires open { IsOpen conn (P.state ports.old).told }
        ensures offered { Offered self.old conn result self.new (P.state ports.old).told
            (P.state ports.new).told }
        ensures cause { SendCounts (P.state ports.old).faults (P.state ports.new).faults result }
    {
        let place = there(self.items.as_slice(), conn);
        if self.items[place].rest().is_empty() {
            return Ok(());
        }
        let taken = ports.send(conn, self.items[place].rest())?;
        self.items[place].skip(taken);
        Ok(())
    }

    /// The connection's rest.
    pub fn rest(&self, conn: u32) -> &[u8]
        requires { HasRest self.now conn }
        ensures { rest_at self.entry.now conn ≡ Some result.now }
    {
        self.items[there(self.items.as_slice(), conn)].rest()
    }

    /// Removes the connection.
    pub fn forget(&mut self, conn: u32)
        requires { HasRest self.old conn }
        ensures { self.new ≡ without self.old conn }
    {
        let place = there(self.items.as_slice(), conn);
        self.items.remove(place);
    }

    /// All rests, in the order of their pairs, as those of the front of this number.
    pub fn into_rests(self, front: u32) -> Vec<Rest>
        ensures { result.items ≡ map (as_rest front) self }
    {
        let mut rests = self.rests;
        for pending in self.items {
            rests.push(pending.into_rest(front)).unwrap();
        }
        rests
    }
}
