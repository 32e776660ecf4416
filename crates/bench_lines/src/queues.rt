//! Queues that are full, and work over them.
use crate::bench::Bench;
use crate::tables::Calls;
use farm_base::Sink;
use plain_world::Meta;
use render_queues::{Conn, Key, Limits, Outcome, Queue, Queues, Waiter};
use std::rt::Clock;
use std::time::Duration;

/// The farm's greatest limits.
const LIMITS: Limits = Limits {
    prio: 32,
    request: 32,
    low: 32,
    dirty: 1000,
    bulk: 32,
};

/// How many asks may be open.
const MOST_ASKS: u32 = 4_096;

fn key(number: u32) -> Key {
    let meta = Meta {
        z: 16,
        x: number.wrapping_mul(8) % 65_536,
        y: number / 8_192 % 8_192 * 8,
    };
    Key { map: 0, meta }
}

// A connection asks for the metatile, which is placed in the queue if it stands nowhere. Nothing happens where no
// more asks may be open.
fn ask(queues: &mut Queues, key: Key, queue: Queue, conn: Conn, ask: u32) {
    if queues.asks() >= MOST_ASKS {
        return;
    }
    let ask = u64::from(ask);
    let waiter = Waiter { conn, ask };
    if queues.find(key).is_none() {
        queues.place(key, queue, Some(waiter));
    } else {
        queues.join(key, waiter);
    }
}

// 64 connections of front 1 ask 64 times each, but for the last asks, for 32 metatiles.
fn fill(queues: &mut Queues, asks: u32) {
    for number in queues.asks()..asks {
        let conn = Conn {
            front: 1,
            number: number / 64,
        };
        ask(queues, key(number % 32), Queue::Bulk, conn, number);
    }
}

fn take_one(queues: &mut Queues) -> bool {
    if !queues.can_take() {
        return false;
    }
    let Some(key) = queues.take() else {
        return false;
    };
    queues.end(key, Outcome::Done);
    true
}

// So many rounds, each of two asks of front 0 for one metatile, its claim and end, and their replies: how many
// replies there were.
fn rounds(queues: &mut Queues, count: u32) -> u64 {
    let mut replies = 0u64;
    for number in 0..count {
        let key = key(32 + number % 500_000);
        let conn = Conn {
            front: 0,
            number: number % 64,
        };
        ask(queues, key, Queue::Request, conn, number);
        ask(queues, key, Queue::Request, conn, number);
        take_one(queues);
        for _ in 0..2 {
            replies = replies.saturating_add(u64::from(queues.collect(0).is_some()));
        }
    }
    replies
}

fn leave_all(queues: &mut Queues) -> u64 {
    let mut asks = 0u64;
    for number in 0..64 {
        asks = asks.saturating_add(u64::from(queues.leave(Conn { front: 1, number })));
    }
    asks
}

fn empty_dirty(queues: &mut Queues) -> u32 {
    let mut taken = 0u32;
    for _ in 0..LIMITS.dirty {
        if take_one(queues) {
            taken = taken.saturating_add(1);
        }
    }
    taken
}

fn fill_dirty(queues: &mut Queues) -> u32 {
    let mut placed = 0u32;
    for number in 0..LIMITS.dirty {
        let key = key(1_000 + number);
        if queues.find(key).is_none() && queues.place(key, Queue::Dirty, None) {
            placed = placed.saturating_add(1);
        }
    }
    placed
}

impl<'a, R: Clock, O: Sink> Bench<'a, R, O> {
    /// The lines of the queues: none where memory was wanting.
    pub(crate) fn queue_lines(&mut self, calls: Calls) -> Option<()> {
        let mut queues = Queues::with_limits(self.alloc, LIMITS, 16).ok()?;
        self.round_line(calls.rounds, &mut queues);
        self.leave_line(calls.leaves, &mut queues);
        self.dirty_line(&mut queues);
        drop(queues);
        Some(())
    }

    fn round_line(&mut self, count: u32, queues: &mut Queues) {
        fill(queues, MOST_ASKS - 2);
        let open = queues.asks().saturating_add(2);
        let start = self.start();
        let replies = rounds(queues, count);
        let took = self.took(start);
        self.out.put_counted(open, " asks open: ");
        self.out.put_counted(count, " rounds, ");
        self.out.put_counted(replies, " replies\n");
        self.put_each(took, count);
    }

    fn leave_line(&mut self, leaves: u32, queues: &mut Queues) {
        let mut asks = 0u64;
        let mut took = Duration::ZERO;
        for _ in 0..leaves {
            fill(queues, MOST_ASKS);
            let start = self.start();
            asks = asks.saturating_add(leave_all(queues));
            took = took.saturating_add(self.took(start));
        }
        self.out.put("64 connections left ");
        self.out.put_counted(leaves, " times: ");
        self.out.put_counted(asks, " asks\n");
        self.put_each(took, leaves.saturating_mul(64));
    }

    fn dirty_line(&mut self, queues: &mut Queues) {
        let placed = fill_dirty(queues);
        let start = self.start();
        let taken = empty_dirty(queues);
        let took = self.took(start);
        self.out
            .put_counted(placed, " metatiles in the dirty queue: ");
        self.out.put_counted(taken, " taken\n");
        self.put_each(took, taken);
    }
}
