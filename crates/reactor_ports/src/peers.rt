//! The connections of ports in memory.
ghost use Rattle.std.specs.Prelude.{◌≡◌, ◌<◌, ◌≤◌, ℕ, Bool, ◌&&◌, not, nat_lt, length, map, take, position, OnOk, OnErr, option_map};
ghost use Rattle.std.specs.List.{slice_get};
ghost use Rattle.reactor_ports.specs.Held.{change, closed, with_end, with_taken, taken_of, up_of};
ghost use Rattle.reactor_ports.specs.Playing.{fresh, is_alive, is_alive_at, is_due, marked, writable_told};

use std::alloc::{AllocError, Global};
use std::marker::Model;

/// A connection.
#[derive(Drop)]
pub struct Peer {
    taken: Vec<u8>,
    up: bool,
    ended: bool,
    short: bool,
    due: bool,
}

impl Model for Peer {
    ghost use Rattle.reactor_ports.specs.Held.{PeerHeld};

    ghost Value = { PeerHeld };

    ghost view = { λ p. record {
      taken = p.taken.items;
      up = p.up;
      ended = p.ended;
      short = p.short;
      due = p.due;
    } };
}

impl Peer {
    pub fn fresh(alloc: Global) -> Peer
        ensures { result ≡ fresh }
    {
        Peer {
            taken: Vec::new(alloc),
            up: true,
            ended: false,
            short: false,
            due: false,
        }
    }

    pub fn taken(&self) -> &[u8]
        ensures { result.now ≡ self.now.taken }
    {
        self.taken.as_slice()
    }

    pub fn is_up(&self) -> bool
        ensures { result ≡ self.now.up }
    {
        self.up
    }

    pub fn is_alive(&self) -> bool
        ensures { result ≡ is_alive self.now }
    {
        self.up && !self.ended
    }

    fn is_due(&self) -> bool
        ensures { result ≡ is_due self.now }
    {
        self.due && self.is_alive()
    }

    fn mark(&mut self)
        ensures { self.new ≡ marked self.old }
    {
        self.due = self.is_alive() && self.short;
    }

    fn tell_writable(&mut self)
        ensures { self.new ≡ writable_told self.old }
    {
        self.due = false;
    }

    fn close(&mut self)
        ensures { self.new ≡ closed self.old }
    {
        self.up = false;
    }

    fn end(&mut self)
        ensures { self.new ≡ with_end self.old }
    {
        self.ended = true;
    }

    fn gain(&mut self, bytes: &[u8], count: usize) -> Result<(), AllocError>
        requires { count ≤ length bytes.now }
        ensures done { OnOk result (self.new ≡ with_taken bytes.now count self.old) }
        ensures refused { OnErr result (self.new ≡ self.old) }
    {
        self.taken.extend_from_slice(&bytes[..count])?;
        self.short = count < bytes.len();
        Ok(())
    }
}

/// Whether the connection is alive.
pub fn is_alive_at(peers: &[Peer], conn: u32) -> bool
    ensures { result ≡ is_alive_at peers.now conn }
{
    match peers.get(conn as usize) {
        Some(peer) => peer.is_alive(),
        None => false,
    }
}

/// Whether the connection is open.
pub fn is_up_at(peers: &[Peer], conn: u32) -> bool
    ensures { result ≡ up_of (slice_get peers.now conn) }
{
    match peers.get(conn as usize) {
        Some(peer) => peer.is_up(),
        None => false,
    }
}

/// The bytes taken on the connection.
pub fn taken_at(peers: &[Peer], conn: u32) -> &[u8]
    ensures { result.now ≡ taken_of (slice_get peers.entry.now conn) }
{
    match peers.get(conn as usize) {
        Some(peer) => peer.taken(),
        None => &[],
    }
}

/// The first connection that is marked and alive.
pub fn first_due(peers: &[Peer]) -> Option<usize>
    ensures { result ≡ position is_due peers.now }
{
    peers.iter().position(|peer| peer.is_due())
}

pub fn close(peers: &mut [Peer], conn: usize)
    requires { conn < length peers.old }
    ensures { peers.new ≡ change closed conn peers.old }
{
    peers[conn].close();
}

pub fn end(peers: &mut [Peer], conn: usize)
    requires { conn < length peers.old }
    ensures { peers.new ≡ change with_end conn peers.old }
{
    peers[conn].end();
}

pub fn tell_writable(peers: &mut [Peer], conn: usize)
    requires { conn < length peers.old }
    ensures { peers.new ≡ change writable_told conn peers.old }
{
    peers[conn].tell_writable();
}

/// The connection takes the first `count` of the bytes; after want of memory all is as before.
pub fn gain(peers: &mut [Peer], conn: usize, bytes: &[u8], count: usize) -> Result<(), AllocError>
    requires conn { conn < length peers.old }
    requires count { count ≤ length bytes.now }
    ensures done { OnOk result (peers.new ≡ change (with_taken bytes.now count) conn peers.old) }
    ensures refused { OnErr result (peers.new ≡ peers.old) }
{
    peers[conn].gain(bytes, count)
}

/// Marks those that are to hear Writable.
pub fn mark_all(peers: &mut [Peer])
    ensures { peers.new ≡ map marked peers.old }
{
    for place in 0..peers.len() {
        peers[place].mark();
    }
}
