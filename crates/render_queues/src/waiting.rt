//! All that waits, in one table: keys with their queues, in the order in which they came.
ghost use Rattle.std.specs.Prelude.{◌≡◌, ◌+◌, ◌<◌, ◌≤◌, ℕ, true, None, Some, [], length, slice_get, option_map, IfOk};
ghost use Rattle.std.specs.Map.{lookup};
ghost use Rattle.indexmap.specs.IndexMap.{index_map_len, spare};
ghost use Rattle.farm_history.specs.declared.queues.Queue.{Queue};
ghost use Rattle.farm_history.specs.Plans.{limit_of, same_key};
ghost use Rattle.render_queues.specs.OneQueue.{is_below};
ghost use Rattle.render_queues.specs.Tables.{line_of, next_of, no_lines, out_of_all, waits_where, with_last};
ghost use Rattle.render_queues.specs.inner.Entries.{is_there, keys_in, still_there, with_limit};

use crate::standing::Standing;
use farm_base::NoMemory;
use farm_history::{Key, Limits, Queue};
use indexmap::IndexMap;
use std::alloc::Global;
use std::marker::Model;
use std::mem;

/// All that waits: each key with its queue. A key that leaves keeps its place in the table, without a queue, so
/// that no other key moves. What still waits moves to the second table where the first is full, or where such
/// a key comes back.
#[derive(Drop)]
pub(crate) struct Waiting {
    live: IndexMap<Key, Option<Queue>>,
    other: IndexMap<Key, Option<Queue>>,
    limits: Limits,
    left: Limits,
}

impl Model for Waiting {
    ghost use Rattle.std.specs.Prelude.{◌≡◌, ◌+◌, ◌≤◌, [], length};
    ghost use Rattle.indexmap.specs.IndexMap.{index_map_len, spare};
    ghost use Rattle.farm_history.specs.declared.queues.Queue.{Queue};
    ghost use Rattle.farm_history.specs.Plans.{limit_of};
    ghost use Rattle.render_queues.specs.OneQueue.{Lines};
    ghost use Rattle.render_queues.specs.inner.Entries.{keys_in, lines_in, twice_room};

    ghost Value = { Lines };

    ghost view = { λ w. lines_in w.limits w.live.entries };

    ghost invariant = { λ w. record {
      empty : w.other.entries ≡ [];
      other_room : twice_room w.limits ≤ spare w.other;
      live_room : twice_room w.limits ≤ index_map_len w.live + spare w.live;
      counts : (queue : Queue)
          → length (keys_in queue w.live.entries) + limit_of w.left queue ≡ limit_of w.limits queue;
    } };
}

fn is_there(own: Option<Queue>, queue: Queue) -> bool
    ensures { result ≡ is_there own queue }
{
    match (own, queue) {
        (Some(Queue::Prio), Queue::Prio)
        | (Some(Queue::Request), Queue::Request)
        | (Some(Queue::Low), Queue::Low)
        | (Some(Queue::Dirty), Queue::Dirty)
        | (Some(Queue::Bulk), Queue::Bulk) => true,
        _ => false,
    }
}

fn limit_of(limits: Limits, queue: Queue) -> u32
    ensures { result ≡ limit_of limits queue }
{
    match queue {
        Queue::Prio => limits.prio,
        Queue::Request => limits.request,
        Queue::Low => limits.low,
        Queue::Dirty => limits.dirty,
        Queue::Bulk => limits.bulk,
    }
}

fn with_limit(limits: Limits, queue: Queue, number: u32) -> Limits
    ensures { result ≡ with_limit limits queue number }
{
    match queue {
        Queue::Prio => Limits {
            prio: number,
            ..limits
        },
        Queue::Request => Limits {
            request: number,
            ..limits
        },
        Queue::Low => Limits {
            low: number,
            ..limits
        },
        Queue::Dirty => Limits {
            dirty: number,
            ..limits
        },
        Queue::Bulk => Limits {
            bulk: number,
            ..limits
        },
    }
}

// Moves what still waits to the empty table, in order.
fn sift(from: &mut IndexMap<Key, Option<Queue>>, to: &mut IndexMap<Key, Option<Queue>>)
    requires empty { to.old.entries ≡ [] }
    requires fits { length (still_there from.old.entries) ≤ spare to.old }
    ensures moved { to.new.entries ≡ still_there from.old.entries }
    ensures emptied { from.new.entries ≡ [] }
    ensures room_from { index_map_len from.old + spare from.old ≤ spare from.new }
    ensures room_to { spare to.old ≤ index_map_len to.new + spare to.new }
{
    // What it ensures: the keys are distinct.
    let _count = from.len();
    for (key, queue) in from.drain(..) {
        if queue.is_some() {
            to.insert(key, queue).unwrap();
        }
    }
}

// Makes a place for a key that does not wait, last in the table.
fn make_place(
    live: &mut IndexMap<Key, Option<Queue>>,
    other: &mut IndexMap<Key, Option<Queue>>,
    key: Key,
)
    requires empty { other.old.entries ≡ [] }
    requires fits { length (still_there live.old.entries) < spare other.old }
    requires new { lookup (same_key key) (still_there live.old.entries) ≡ None }
    ensures empty { other.new.entries ≡ [] }
    ensures same { (queue : Queue)
        → keys_in queue live.new.entries ≡ keys_in queue live.old.entries }
    ensures new { lookup (same_key key) live.new.entries ≡ None }
    ensures place { 0 < spare live.new }
    ensures room { (room : ℕ)
        → room ≤ spare other.old → room ≤ index_map_len live.old + spare live.old
        → (room ≤ spare other.new) × (room ≤ index_map_len live.new + spare live.new) }
{
    if live.contains_key(&key) || live.len() == live.capacity() {
        sift(live, other);
        mem::swap(live, other);
    }
}

impl Waiting {
    /// Nothing waits, and there is room for twice as many keys as the limits say.
    pub(crate) fn with_limits(alloc: Global, limits: Limits) -> Result<Waiting, NoMemory>
        ensures { IfOk result (λ w. w ≡ no_lines limits) }
    {
        let room = limits.prio as usize
            + limits.request as usize
            + limits.low as usize
            + limits.dirty as usize
            + limits.bulk as usize;
        let live = IndexMap::with_capacity(alloc, 2 * room)?;
        let other = IndexMap::with_capacity(alloc, 2 * room)?;
        Ok(Waiting {
            live,
            other,
            limits,
            left: limits,
        })
    }

    /// Where the key waits.
    pub(crate) fn find(&self, key: Key) -> Option<Standing>
        ensures { result ≡ waits_where self.now key }
    {
        let _count = self.live.len();
        let queue = (*self.live.get(&key)?)?;
        Some(Standing::Waits(queue))
    }

    /// Whether the queue is below its limit.
    pub(crate) fn has_room(&self, queue: Queue) -> bool
        ensures { result ≡ is_below (line_of self.now queue) }
    {
        limit_of(self.left, queue) > 0
    }

    /// Puts the key last in the queue.
    pub(crate) fn push(&mut self, queue: Queue, key: Key)
        requires new { waits_where self.old key ≡ None }
        requires room { is_below (line_of self.old queue) ≡ true }
        ensures { self.new ≡ with_last self.old queue key }
    {
        make_place(&mut self.live, &mut self.other, key);
        let left = limit_of(self.left, queue);
        self.left = with_limit(self.left, queue, left - 1);
        self.live.insert(key, Some(queue)).unwrap();
    }

    /// Takes the key out, wherever it waits.
    pub(crate) fn remove(&mut self, key: Key)
        ensures { self.new ≡ out_of_all self.old key }
    {
        if let Some(place) = self.live.get_index_of(&key) {
            if let Some(queue) = self.live[place] {
                self.live[place] = None;
                let left = limit_of(self.left, queue);
                // What is left is less than the limit, which is of 32 bits.
                let _most = limit_of(self.limits, queue);
                self.left = with_limit(self.left, queue, left + 1);
            }
        }
    }

    fn first(&self, queue: Queue) -> Option<Key>
        ensures { result ≡ slice_get (line_of self.now queue).keys 0 }
    {
        if limit_of(self.left, queue) == limit_of(self.limits, queue) {
            return None;
        }
        for place in 0..self.live.len() {
            let (key, own) = self.live.get_index(place).unwrap();
            if is_there(*own, queue) {
                return Some(*key);
            }
        }
        None
    }

    /// The first key of the first queue that is not empty.
    pub(crate) fn next(&self) -> Option<Key>
        ensures { result ≡ option_map (λ w. w.key) (next_of self.now) }
    {
        if let Some(key) = self.first(Queue::Prio) {
            Some(key)
        } else if let Some(key) = self.first(Queue::Request) {
            Some(key)
        } else if let Some(key) = self.first(Queue::Low) {
            Some(key)
        } else if let Some(key) = self.first(Queue::Dirty) {
            Some(key)
        } else {
            self.first(Queue::Bulk)
        }
    }
}
