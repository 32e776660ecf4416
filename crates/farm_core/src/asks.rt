//! Asks: a connection asks for a metatile, or marks it dirty.
ghost use Rattle.std.specs.Prelude.{◌≡◌, ◌<◌, ◌≤◌, ◌+◌, ◌^◌, Bool, List, ◌∷◌, ◌||◌, nat_le, is_some, IfSome, if◌then◌else◌};
ghost use Rattle.farm_base.specs.Limits.{most_asks, most_asks_of_one};
ghost use Rattle.farm_history.specs.Plans.{is_dirty_command, is_in, is_lifting, is_servable, key_of, own_queue, same_queue};
ghost use Rattle.farm_history.specs.declared.queues.Queue.{Queue};
ghost use Rattle.farm_history.specs.inner.Asks.{answer_of_waiting};
ghost use Rattle.render_queues.specs.Tables.{AreSound, open_count, open_of};
ghost use Rattle.farm_core.specs.inner.Asks.{Dirtied, DirtiesKey, Needs, answer_at, noted_tables, rendered_at, rendered_counts};
ghost use Rattle.farm_history.specs.Entries.{Ask, Entry};
ghost use Rattle.farm_plan.specs.Drawings.{plan_of};
ghost use Rattle.farm_core.specs.Answers.{Lasts};
ghost use Rattle.farm_refinement.specs.Stands.{StandsFor};
ghost use Rattle.farm_plan.specs.Spots.{IsKeyOf};
ghost use Rattle.farm_refinement.specs.inner.Events.{asked_tables, marked_tables, waits_at};

use crate::farm::Farm;
use farm_base::{MOST_ASKS, MOST_ASKS_OF_ONE};
use farm_plan::{AskAnswer, Cmd, Conn, Key, Mark, Queue, Spot, Waiter, Why};
use render_jobs::{is_overtaken, serve, touch_key};
use render_queues::{Queues, Standing};
use tile_store::TileStore;

fn own_queue(cmd: Cmd) -> Queue
    ensures { result ≡ own_queue cmd }
{
    match cmd {
        Cmd::Prio => Queue::Prio,
        Cmd::Render => Queue::Request,
        Cmd::Low => Queue::Low,
        Cmd::Dirty => Queue::Dirty,
        Cmd::Bulk => Queue::Bulk,
    }
}

fn is_lifting(cmd: Cmd) -> bool
    ensures { result ≡ is_lifting cmd }
{
    match cmd {
        Cmd::Prio | Cmd::Render | Cmd::Low => true,
        Cmd::Dirty | Cmd::Bulk => false,
    }
}

fn is_dirty_command(cmd: Cmd) -> bool
    ensures { result ≡ is_dirty_command cmd }
{
    match cmd {
        Cmd::Dirty => true,
        Cmd::Prio | Cmd::Render | Cmd::Low | Cmd::Bulk => false,
    }
}

fn is_dirty(queue: Queue) -> bool
    ensures { result ≡ same_queue queue Queue.Dirty }
{
    match queue {
        Queue::Dirty => true,
        Queue::Prio | Queue::Request | Queue::Low | Queue::Bulk => false,
    }
}

fn is_bulk(queue: Queue) -> bool
    ensures { result ≡ same_queue queue Queue.Bulk }
{
    match queue {
        Queue::Bulk => true,
        Queue::Prio | Queue::Request | Queue::Low | Queue::Dirty => false,
    }
}

/// Where a metatile stands: whether it is being drawn, whether it waits, and whether in the dirty or in the
/// bulk queue.
#[derive(Clone, Copy, Drop)]
struct Place {
    flies: bool,
    waits: bool,
    in_dirty: bool,
    in_bulk: bool,
}

fn place_of(queues: &Queues, key: Key) -> Place
    ensures flies { result.flies ≡ is_in key queues.now.taken }
    ensures waits { result.waits ≡ waits_at queues.now key }
    ensures in_dirty { result.in_dirty ≡ is_in key queues.now.lines.dirty.keys }
    ensures in_bulk { result.in_bulk ≡ is_in key queues.now.lines.bulk.keys }
    ensures sound { AreSound queues.now }
{
    queues.law_sound();
    match queues.find(key) {
        Some(Standing::Taken) => Place {
            flies: true,
            waits: false,
            in_dirty: false,
            in_bulk: false,
        },
        Some(Standing::Waits(queue)) => Place {
            flies: false,
            waits: true,
            in_dirty: is_dirty(queue),
            in_bulk: is_bulk(queue),
        },
        None => Place {
            flies: false,
            waits: false,
            in_dirty: false,
            in_bulk: false,
        },
    }
}

#[tactic(auto, unfolding(farm_history::specs::inner::Asks::answer_of_waiting))]
fn answer_of_waiting(
    liftable: bool,
    in_dirty: bool,
    waits: bool,
    own_room: bool,
    dirty_room: bool,
    n: u64,
) -> AskAnswer
    ensures { result ≡ answer_of_waiting liftable in_dirty waits own_room dirty_room n }
{
    if liftable && own_room {
        AskAnswer::Lifted(n)
    } else if in_dirty {
        AskAnswer::NotDone(Why::InDirty)
    } else if waits {
        AskAnswer::Joined(n)
    } else if own_room {
        AskAnswer::Queued(n)
    } else if dirty_room {
        AskAnswer::NotDone(Why::Deferred)
    } else {
        AskAnswer::NotDone(Why::Dropped)
    }
}

fn note_answer(queues: &mut Queues, own: Queue, key: Key, conn: Conn, answer: AskAnswer)
    requires { Needs queues.old own key answer }
    ensures { queues.new ≡ asked_tables queues.old own key conn answer }
{
    match answer {
        AskAnswer::Queued(n) => {
            queues.place(key, own, Some(Waiter { conn, ask: n }));
        }
        AskAnswer::Joined(n) => queues.join(key, Waiter { conn, ask: n }),
        AskAnswer::Lifted(n) => {
            queues.lift(key, own, Waiter { conn, ask: n });
        }
        AskAnswer::NotDone(Why::Deferred) => {
            queues.place(key, Queue::Dirty, None);
        }
        _ => {}
    }
}

fn place_dirty(queues: &mut Queues, key: Key)
    ensures { queues.new ≡ marked_tables queues.old key }
{
    let place = place_of(queues, key);
    if place.waits || place.flies {
        return;
    }
    queues.place(key, Queue::Dirty, None);
}

impl<D> Farm<D> {
    fn has_backlog(&self, conn: Conn) -> bool
        ensures { result ≡ (nat_le most_asks_of_one (open_of self.now.queues conn)
            || nat_le most_asks (open_count self.now.queues)) }
    {
        MOST_ASKS_OF_ONE <= self.queues.asks_of(conn) || MOST_ASKS <= self.queues.asks()
    }

    fn answer(&self, conn: Conn, cmd: Cmd, key: Key) -> AskAnswer
        ensures answer { result ≡ answer_at self.now conn cmd key }
        ensures needs { Needs self.now.queues (own_queue cmd) key result }
    {
        if matches!(self.marks.of(key), Some(mark) if mark.clean) {
            return AskAnswer::Done;
        }
        if self.has_backlog(conn) {
            return AskAnswer::NotDone(Why::Backlog);
        }
        if is_overtaken(self.taken.as_slice(), key) {
            return AskAnswer::NotDone(Why::Overtaken);
        }
        let place = place_of(&self.queues, key);
        if place.flies {
            return AskAnswer::Joined(self.counts.numbers);
        }
        let liftable = is_lifting(cmd) && (place.in_dirty || place.in_bulk);
        let own_room = self.queues.has_room(own_queue(cmd));
        let dirty_room = self.queues.has_room(Queue::Dirty);
        answer_of_waiting(
            liftable,
            place.in_dirty,
            place.waits,
            own_room,
            dirty_room,
            self.counts.numbers,
        )
    }
}

impl<D> Farm<D> {
    fn count_ask(&mut self, answer: AskAnswer)
        requires numbers { self.old.counts.numbers < self.old.counts.turns }
        requires asks { self.old.counts.asks < self.old.counts.turns }
        requires done { self.old.counts.done < self.old.counts.turns }
        requires turns { self.old.counts.turns ≤ 2 ^ 63 }
        ensures { self.new ≡ record self.old { counts = rendered_counts answer self.old.counts } }
    {
        let counts = &mut self.counts;
        counts.asks += 1;
        match answer {
            AskAnswer::Queued(_) | AskAnswer::Joined(_) | AskAnswer::Lifted(_) => {
                counts.numbers += 1;
            }
            AskAnswer::Done => counts.done += 1,
            AskAnswer::NotDone(_) | AskAnswer::Silent => {}
        }
    }

    fn mark_dirty(&mut self, key: Key)
        requires { IsKeyOf self.old.plan key }
        ensures { DirtiesKey key self.old self.new }
    {
        touch_key(self.taken.as_mut_slice(), key);
        self.marks.expire_one(key);
        place_dirty(&mut self.queues, key);
    }
}

impl<D> Farm<D> {
    fn spot_key(&self, spot: Spot) -> Option<Key>
        ensures served { is_some result ≡ is_servable (plan_of self.now.plan) spot }
        ensures key { IfSome result (λ key. (key ≡ key_of spot) × IsKeyOf self.now.plan key) }
    {
        match serve(self.own.setup(), spot) {
            Some((key, _)) => Some(key),
            None => None,
        }
    }

    fn rendered(&self, conn: Conn, cmd: Cmd, served: Option<Key>) -> AskAnswer
        ensures answer { result ≡ rendered_at self.now conn cmd served }
        ensures needs { IfSome served (λ key. Needs self.now.queues (own_queue cmd) key result) }
    {
        if self.counts.stopped {
            return AskAnswer::NotDone(Why::Stopping);
        }
        match served {
            Some(key) => self.answer(conn, cmd, key),
            None => AskAnswer::NotDone(Why::Unservable),
        }
    }

    // Does what the answer to an ask with a render command says, where the spot can be served.
    fn note_served(&mut self, conn: Conn, cmd: Cmd, served: Option<Key>, answer: AskAnswer)
        requires { IfSome served
            (λ key. IsKeyOf self.old.plan key × Needs self.old.queues (own_queue cmd) key answer) }
        ensures { self.new ≡ record self.old {
          queues = noted_tables self.old.queues (own_queue cmd) conn served answer;
        } }
    {
        if let Some(key) = served {
            note_answer(&mut self.queues, own_queue(cmd), key, conn, answer);
        }
    }

    fn mark(&mut self, served: Option<Key>)
        requires { IfSome served (IsKeyOf self.old.plan) }
        ensures { Dirtied self.old self.new served }
    {
        if self.counts.stopped {
            return;
        }
        if let Some(key) = served {
            self.mark_dirty(key);
        }
    }
}

impl<D: TileStore> Farm<D> {
    /// A connection asks for the metatile of a spot. With a render command the answer is the first that holds:
    /// after a stop NotDone(Stopping); where the spot cannot be served NotDone(Unservable); Done where its
    /// metatile is clean; NotDone(Backlog) where the connection has 64 open asks, or 4,096 are open in all; where
    /// it is being drawn Joined, but NotDone(Overtaken) where it was touched since that claim; where it waits in
    /// the dirty or bulk queue and the command's own queue, prio, request or low, is below its limit Lifted into
    /// that; NotDone(InDirty) where it waits in the dirty queue; Joined where it waits elsewhere; Queued where the
    /// command's own queue is below its limit; NotDone(Deferred) where the dirty queue is, into which it goes; else
    /// NotDone(Dropped). The numbers of Queued, Joined and Lifted count from 0, and their replies come by
    /// `collect`.
    ///
    /// With `Cmd::Dirty` the answer is Silent: before a stop, a servable metatile is touched, and goes to the
    /// dirty queue where it neither waits nor is being drawn.
    pub fn ask(&mut self, conn: Conn, cmd: Cmd, spot: Spot) -> AskAnswer
        requires { self.old.counts.turns < 2 ^ 63 }
        ensures step { (store_tells : Bool) (h : List Entry)
            → StandsFor D.state store_tells self.old h
            → StandsFor D.state store_tells self.new (Ask conn cmd spot result ∷ h) }
        ensures kept { Lasts D.state self.old self.new }
        ensures store { self.new.store ≡ self.old.store }
    {
        self.count_turn();
        let served = self.spot_key(spot);
        if is_dirty_command(cmd) {
            self.mark(served);
            return AskAnswer::Silent;
        }
        let answer = self.rendered(conn, cmd, served);
        self.count_ask(answer);
        self.note_served(conn, cmd, served, answer);
        answer
    }
}
