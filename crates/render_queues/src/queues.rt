//! The tables of a farm and their calls.
ghost use Rattle.std.specs.Prelude.{◌≡◌, ◌<◌, true, nat_lt, if◌then◌else◌, find, length, option_map, IsSome, None, Some, IfOk};
ghost use Rattle.farm_base.specs.Limits.{most_asks};
ghost use Rattle.farm_history.specs.Lists.{without_first};
ghost use Rattle.render_queues.specs.OneQueue.{is_below};
ghost use Rattle.render_queues.specs.Tables.{AreSound, after_end, after_leave, after_take, is_liftable, is_of_front, after_join, after_lift, line_of, next_of, no_tables, open_count, open_of, after_place, standing, takes_lifted};

use crate::asks::{Asked, add_ask, drop_asks_on, reply_all};
use crate::key_list::{drop_key, is_among};
use crate::replies::first_reply;
use crate::standing::Standing;
use crate::waiting::Waiting;
use farm_base::{MOST_ASKS, NoMemory};
use farm_history::{Conn, Key, Limits, Outcome, Queue, Reply, Waiter};
use std::alloc::Global;
use std::marker::Model;

/// What waits in the five queues, what is taken, who waits for it, and the replies to those whose metatile
/// has ended. Its tables are made by `with_limits`, and no later call takes memory.
///
/// A metatile stands at most once: it waits in one queue, or it is taken. An ask is open while it waits, and
/// then until its reply is collected; at most 4,096 are open at once.
#[derive(Drop)]
pub struct Queues {
    lines: Waiting,
    workers: u32,
    taken: Vec<Key>,
    asks: Vec<Asked>,
    ended: Vec<Reply>,
}

impl Model for Queues {
    ghost use Rattle.std.specs.Prelude.{◌≤◌};
    ghost use Rattle.std.specs.Vec.{vec_capacity};
    ghost use Rattle.farm_base.specs.Limits.{most_asks};
    ghost use Rattle.render_queues.specs.Tables.{Tables, AreSound};

    ghost Value = { Tables };

    ghost view = { λ q. record {
      lines = q.lines;
      workers = q.workers;
      taken = q.taken.items;
      asks = q.asks.items;
      ended = q.ended.items;
    } };

    ghost invariant = { λ q. record {
      taken_room : q.workers ≤ vec_capacity q.taken;
      asks_room : most_asks ≤ vec_capacity q.asks;
      ended_room : most_asks ≤ vec_capacity q.ended;
      sound : AreSound (record {
        lines = q.lines;
        workers = q.workers;
        taken = q.taken.items;
        asks = q.asks.items;
        ended = q.ended.items;
      });
    } };
}

impl Queues {
    /// Empty tables for these limits and so many workers.
    pub fn with_limits(alloc: Global, limits: Limits, workers: u32) -> Result<Queues, NoMemory>
        ensures { IfOk result (λ q. q ≡ no_tables limits workers) }
    {
        let taken = Vec::with_capacity(alloc, workers as usize)?;
        let asks = Vec::with_capacity(alloc, MOST_ASKS as usize)?;
        let ended = Vec::with_capacity(alloc, MOST_ASKS as usize)?;
        let lines = Waiting::with_limits(alloc, limits)?;
        Ok(Queues {
            lines,
            workers,
            taken,
            asks,
            ended,
        })
    }

    /// What is true of all tables: no metatile stands twice, whatever is waited for stands, and no limit is
    /// passed.
    pub fn law_sound(&self)
        ensures { AreSound self.now }
    {
        let _count = self.asks.len();
    }

    /// Where the metatile stands; nothing where it neither waits nor is taken.
    pub fn find(&self, key: Key) -> Option<Standing>
        ensures { result ≡ standing self.now key }
    {
        if is_among(self.taken.as_slice(), key) {
            Some(Standing::Taken)
        } else {
            self.lines.find(key)
        }
    }

    /// Whether the queue is below its limit.
    pub fn has_room(&self, queue: Queue) -> bool
        ensures { result ≡ is_below (line_of self.now.lines queue) }
    {
        self.lines.has_room(queue)
    }

    /// Puts the metatile last in the queue, with the waiter, if there is one, as its chain. False where the
    /// queue is at its limit; then nothing changes.
    pub fn place(&mut self, key: Key, queue: Queue, waiter: Option<Waiter>) -> bool
        requires new { standing self.old key ≡ None }
        requires few { IsSome waiter → open_count self.old < most_asks }
        ensures room { result ≡ is_below (line_of self.old.lines queue) }
        ensures tables { self.new ≡ (if is_below (line_of self.old.lines queue)
            then after_join (after_place self.old queue key) key waiter else self.old) }
    {
        if !self.lines.has_room(queue) {
            return false;
        }
        self.lines.push(queue, key);
        add_ask(&mut self.asks, key, waiter);
        true
    }

    /// Puts the waiter last in the chain of the metatile.
    pub fn join(&mut self, key: Key, waiter: Waiter)
        requires stands { IsSome (standing self.old key) }
        requires few { open_count self.old < most_asks }
        ensures { self.new ≡ after_join self.old key (Some waiter) }
    {
        add_ask(&mut self.asks, key, Some(waiter));
    }

    /// Moves the metatile from the dirty or bulk queue to the other queue, where it goes last, with its chain
    /// and then the waiter. False where that queue is at its limit; then nothing changes.
    pub fn lift(&mut self, key: Key, queue: Queue, waiter: Waiter) -> bool
        requires waits { is_liftable (standing self.old key) ≡ true }
        requires queue { takes_lifted queue ≡ true }
        requires few { open_count self.old < most_asks }
        ensures room { result ≡ is_below (line_of self.old.lines queue) }
        ensures tables { self.new ≡ (if is_below (line_of self.old.lines queue)
            then after_join (after_lift self.old queue key) key (Some waiter) else self.old) }
    {
        if !self.lines.has_room(queue) {
            return false;
        }
        self.lines.remove(key);
        self.lines.push(queue, key);
        add_ask(&mut self.asks, key, Some(waiter));
        true
    }

    /// Whether fewer are taken than there are workers.
    pub fn can_take(&self) -> bool
        ensures { result ≡ nat_lt (length self.now.taken) self.now.workers }
    {
        self.taken.len() < self.workers as usize
    }

    /// Takes the first metatile of the first queue that is not empty, in the order of `Queue`. Nothing where
    /// nothing waits.
    pub fn take(&mut self) -> Option<Key>
        requires { length self.old.taken < self.old.workers }
        ensures next { result ≡ option_map (λ w. w.key) (next_of self.old.lines) }
        ensures tables { self.new ≡ after_take self.old (next_of self.old.lines) }
    {
        let first = self.lines.next()?;
        self.lines.remove(first);
        self.taken.push_reserved(first);
        Some(first)
    }

    /// Ends the drawing of a metatile that was taken: its waiters have replies, in the order of its chain.
    pub fn end(&mut self, key: Key, outcome: Outcome)
        ensures { self.new ≡ after_end self.old key outcome }
    {
        drop_key(&mut self.taken, key);
        reply_all(self.asks.as_slice(), key, outcome, &mut self.ended);
        drop_asks_on(&mut self.asks, key);
    }

    /// Takes out the first reply for the front.
    pub fn collect(&mut self, front: u32) -> Option<Reply>
        ensures first { result ≡ find (is_of_front front) self.old.ended }
        ensures tables { self.new
            ≡ record self.old { ended = without_first (is_of_front front) self.old.ended } }
    {
        first_reply(&mut self.ended, front)
    }

    /// Drops the connection's asks, those that wait and those that have a reply, and counts them. The
    /// metatiles stay where they stand.
    pub fn leave(&mut self, conn: Conn) -> u32
        ensures count { result ≡ open_of self.old conn }
        ensures tables { self.new ≡ after_leave self.old conn }
    {
        let count = self.asks_of(conn);
        self.asks.retain(|ask| ask.waiter.conn != conn);
        self.ended.retain(|reply| reply.conn != conn);
        count
    }

    /// How many asks of the connection are open.
    pub fn asks_of(&self, conn: Conn) -> u32
        ensures { result ≡ open_of self.now conn }
    {
        let waiting = self
            .asks
            .as_slice()
            .iter()
            .filter(|ask| ask.waiter.conn == conn);
        let ended = self
            .ended
            .as_slice()
            .iter()
            .filter(|reply| reply.conn == conn);
        (waiting.count() + ended.count()) as u32
    }

    /// How many asks are open.
    pub fn asks(&self) -> u32
        ensures { result ≡ open_count self.now }
    {
        (self.asks.len() + self.ended.len()) as u32
    }
}
