//! Replies that are collected, connections that leave, counts and the stop.
ghost use Rattle.farm_history.specs.Past.{is_done};
ghost use Rattle.std.specs.Prelude.{◌≡◌, ◌<◌, ◌≤◌, ◌^◌, Bool, true, List, ◌∷◌, None};
ghost use Rattle.farm_history.specs.Entries.{Entry, Collect, Leave, Stop, Tally as Counted};
ghost use Rattle.farm_core.specs.Answers.{Lasts};
ghost use Rattle.farm_refinement.specs.Stands.{StandsFor};
ghost use Rattle.farm_core.specs.inner.Effects.{Collects};
ghost use Rattle.farm_refinement.specs.inner.Events.{collected_by, tally_of};

use crate::farm::Farm;
use farm_plan::{Collected, Conn, Outcome, Reply, Tally};
use tile_store::TileStore;

fn is_done(reply: Reply) -> bool
    ensures { result ≡ is_done reply.outcome }
{
    match reply.outcome {
        Outcome::Done => true,
        Outcome::NotDone | Outcome::Cut => false,
    }
}

impl<D> Farm<D> {
    #[tactic(auto, using(crate::proofs::Replied::takes_first))]
    fn take_reply(&mut self, front: u32) -> Option<Reply>
        requires done { self.old.counts.done < self.old.counts.turns }
        requires turns { self.old.counts.turns ≤ 2 ^ 63 }
        ensures { Collects self.old self.new front result }
    {
        let reply = self.queues.collect(front)?;
        if is_done(reply) {
            self.counts.done += 1;
        }
        Some(reply)
    }

    // What a front without a reply is answered.
    fn no_reply(&self) -> Collected
        ensures { result ≡ collected_by None self.now.counts.stopped }
    {
        if self.counts.stopped {
            Collected::Stopped
        } else {
            Collected::Empty
        }
    }
}

impl<D> Farm<D> {
    fn note_stop(&mut self)
        ensures { self.new
            ≡ record self.old { counts = record self.old.counts { stopped = true } } }
    {
        self.counts.stopped = true;
    }

    fn totals(&self) -> Tally
        ensures { result ≡ tally_of self.now.counts }
    {
        Tally {
            asks: self.counts.asks,
            done: self.counts.done,
            stored: self.counts.stored,
            version: self.counts.version,
        }
    }
}

impl<D: TileStore> Farm<D> {
    /// A front, by its number, takes the first of its replies: in the order in which the drawings ended, and
    /// those of one drawing in the order of the asks. Without one Stopped after a stop, else Empty. Takes no
    /// memory.
    pub fn collect(&mut self, front: u32) -> Collected
        requires { self.old.counts.turns < 2 ^ 63 }
        ensures step { (store_tells : Bool) (h : List Entry)
            → StandsFor D.state store_tells self.old h
            → StandsFor D.state store_tells self.new (Collect front result ∷ h) }
        ensures kept { Lasts D.state self.old self.new }
        ensures store { self.new.store ≡ self.old.store }
    {
        self.count_turn();
        match self.take_reply(front) {
            Some(reply) => Collected::Reply(reply),
            None => self.no_reply(),
        }
    }

    /// Forgets the open asks of the connection, and answers how many there were; what waits for them stays.
    pub fn leave(&mut self, conn: Conn) -> u32
        requires { self.old.counts.turns < 2 ^ 63 }
        ensures step { (store_tells : Bool) (h : List Entry)
            → StandsFor D.state store_tells self.old h
            → StandsFor D.state store_tells self.new (Leave conn result ∷ h) }
        ensures kept { Lasts D.state self.old self.new }
        ensures store { self.new.store ≡ self.old.store }
    {
        self.count_turn();
        self.queues.leave(conn)
    }

    /// Stops the farm for good: asks are NotDone, claims Stopped. Drawings under way may still end, and what
    /// waits stays.
    pub fn stop(&mut self)
        requires { self.old.counts.turns < 2 ^ 63 }
        ensures step { (store_tells : Bool) (h : List Entry)
            → StandsFor D.state store_tells self.old h
            → StandsFor D.state store_tells self.new (Stop ∷ h) }
        ensures kept { Lasts D.state self.old self.new }
        ensures store { self.new.store ≡ self.old.store }
    {
        self.count_turn();
        self.note_stop();
    }

    /// The farm's counts.
    pub fn tally(&mut self) -> Tally
        requires { self.old.counts.turns < 2 ^ 63 }
        ensures step { (store_tells : Bool) (h : List Entry)
            → StandsFor D.state store_tells self.old h
            → StandsFor D.state store_tells self.new (Counted result ∷ h) }
        ensures kept { Lasts D.state self.old self.new }
        ensures store { self.new.store ≡ self.old.store }
    {
        self.count_turn();
        self.totals()
    }
}
