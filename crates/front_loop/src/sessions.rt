//! Sessions, and where they are kept.
ghost use Rattle.std.specs.Prelude.{◌≡◌, ◌+◌, ◌<◌, ◌++◌, ◌∷◌, [], true, false, length, map, IfSome, IfNone};
ghost use Rattle.front_loop.specs.Rounds.{has};
ghost use Rattle.front_loop.specs.inner.Sessions.{conns, HasConn};

use crate::dispositions::{Disposition, Reason};
use reactor_ports::Outbox;
use std::alloc::Global;

/// A connection that is there.
#[derive(Drop)]
pub struct Session<T> {
    pub conn: u32,
    /// What the front keeps of it.
    pub conn_state: T,
    pub disposition: Disposition,
    /// There is a reason to offer it its bytes in this round, and they were not offered yet.
    pub owes: bool,
}

/// What a front keeps.
#[derive(Drop)]
pub struct SessionTable<T> {
    /// In the order in which they were opened.
    pub sessions: Vec<Session<T>>,
    pub answers: Answers,
    /// How many connections were closed for a want of memory that no entry shows.
    pub starved: u64,
}

/// What was answered.
#[derive(Drop)]
pub struct Answers {
    /// The bytes that were answered and not taken, of each session.
    pub outbox: Outbox,
    /// What is said to one connection, before it is put into the outbox.
    pub response: Vec<u8>,
}

impl<T> SessionTable<T> {
    /// Nobody is there.
    pub fn new(alloc: Global) -> SessionTable<T>
        ensures sessions { result.sessions.items ≡ [] }
        ensures outbox { result.answers.outbox ≡ [] }
        ensures starved { result.starved ≡ 0 }
    {
        SessionTable {
            sessions: Vec::new(alloc),
            answers: Answers {
                outbox: Outbox::new(alloc),
                response: Vec::new(alloc),
            },
            starved: 0,
        }
    }
}

/// The place of the session of a connection.
pub fn place_of<T>(sessions: &[Session<T>], conn: u32) -> Option<usize>
    ensures some { IfSome result (λ i. (i < length sessions.now) × HasConn sessions.now i conn) }
    ensures none { IfNone result (has (conns sessions.now) conn ≡ false) }
{
    match sessions.iter().position(|session| session.conn == conn) {
        Some(place) => Some(place),
        None => None,
    }
}
