//! The cell's table and the steps of a turn, one function each.
ghost use Rattle.std.specs.Prelude.{◌≡◌, ℕ, ◌+◌, ◌<◌, ◌≤◌, true, false, length, [], ◌∷◌, Some, None, IfOk, IfErr, MatchResult};
ghost use Rattle.farm_base.specs.Limits.{most_turns};
ghost use Rattle.turn_cell.specs.inner.Cell.{newcomer};
ghost use Rattle.turn_cell.specs.SeatStates.{seat_state, Closes, IsWhole};
ghost use Rattle.turn_cell.specs.inner.Plays.{counting, leaving, split_first, split_new, joining_views, KnowsJoined, KnowsStrangers};
ghost use Rattle.turn_cell.specs.Turns.{StartsWith};
ghost use Rattle.turn_cell.specs.inner.Words.{IsIdle, KnowsAll, with_ticket, with_mark, Entered};

use crate::call::{Call, StandsFor};
use crate::rule::{Count, Cut, Draw, InTurn, Learn, Look, Merge, Said, Serve};
use crate::view::{Terms, View};
use atomic_table::{Refused, Table};
use farm_base::Worn;
use std::alloc::Global;
use std::hint::spin_loop;
use std::snapshot::Snapshot;
use std::sync::Wait;
use std::sync::atomic::{AtomicU64, Ordering};

/// The word of the next ticket.
const TICKET: usize = 0;
/// The word of the ticket that is served.
const SERVING: usize = 1;
/// The word of the number of entries.
const COUNT: usize = 2;
/// The slot of the value.
const VALUE: usize = 0;
/// How often a turn looks before it sleeps. It does not give its processor up between the looks: the system would
/// then count it as one that needs none, and have it wait for milliseconds behind those that draw.
const LOOKS: u32 = 64;

/// A seat as the table knows it.
pub(crate) type Place<T, E> = atomic_table::Seat<Option<T>, View<T, E>>;

#[derive(Drop)]
pub(crate) struct Core<T: StandsFor> {
    pub(crate) table: Table<Option<T>, View<T, T::Entry>, Terms<T>, InTurn<T>, Global>,
    limit: u64,
    /// How many turns sleep. It only spares a call that would wake nobody: no clause rests on it.
    sleepers: AtomicU64,
    ghost sized: { (table.shared.table_id.words ≡ 3) × (table.shared.table_id.slots ≡ 1) },
    ghost limited: { table.shared.key.limit ≡ limit },
}

impl<T: StandsFor> Core<T> {
    pub(crate) fn new(
        alloc: Global,
        value: T,
        limit: u64,
    ) -> Result<(Core<T>, Place<T, T::Entry>), T>
        requires stands { T.stands value [] }
        requires limit { limit ≤ most_turns }
        ensures cell { IfOk result
            (λ made.
            (made.0.table.shared.key.limit ≡ limit)
            × (made.0.table.shared.key.first.value ≡ value)) }
        ensures place { IfOk result
            (λ made.
            (made.1.table_id ≡ made.0.table.shared.table_id)
            × (made.1.me ≡ (newcomer made.0.table.shared.key, []))) }
        ensures err { IfErr result (λ back. back ≡ value) }
    {
        let about = Terms {
            limit,
            first: Snapshot::of(&value),
        };
        let Ok(mut slots) = Vec::with_capacity(alloc, 1) else {
            return Err(value);
        };
        slots.push_reserved(Some(value));
        match Table::new(alloc, &[0, 0, 0], slots, &about) {
            Ok((table, place)) => {
                let sleepers = AtomicU64::new(0);
                Ok((
                    Core {
                        table,
                        limit,
                        sleepers,
                    },
                    place,
                ))
            }
            Err(Refused { mut slots }) => {
                let last = slots.pop();
                slots.destroy_empty();
                Err(last.unwrap().unwrap())
            }
        }
    }

    // Draws the next ticket, or leaves the mark where the limit was drawn.
    pub(crate) fn draw<R: Wait>(&self, rt: &R, place: &mut Place<T, T::Entry>) -> Result<u64, Worn>
        requires place { (place.old.table_id ≡ self.now.table.shared.table_id)
            × (place.old.me.0.about ≡ Some self.now.table.shared.key) }
        requires idle { IsIdle place.old.me }
        ensures place { (place.new.table_id ≡ place.old.table_id) × (place.new.id ≡ place.old.id) }
        ensures drew { MatchResult result
            (λ ticket. place.new.me ≡ with_ticket place.old.me ticket)
            (λ _. place.new.me ≡ with_mark place.old.me) }
    {
        let mut guess = 0;
        for _ in rt.forever() {
            let next = if guess < self.limit { guess + 1 } else { guess };
            let found = self
                .table
                .shared
                .compare_exchange::<Draw>(place, TICKET, guess, next);
            if found == self.limit {
                return Err(Worn);
            }
            if found == guess {
                return Ok(found);
            }
            guess = found;
        }
        unreachable!()
    }

    pub(crate) fn enter<R: Wait>(&self, rt: &R, place: &mut Place<T, T::Entry>, ticket: u64) -> T
        requires place { (place.old.table_id ≡ self.now.table.shared.table_id)
            × (place.old.me.0.about ≡ Some self.now.table.shared.key) }
        requires drawn { (place.old.me.0.tickets ≡ ticket ∷ [])
            × (place.old.me.0.holds ≡ false)
            × (place.old.me.0.counted ≡ 0)
            × (length place.old.me.1 ≡ 0) }
        ensures place { (place.new.table_id ≡ place.old.table_id) × (place.new.id ≡ place.old.id) }
        ensures entered { Entered T.stands T.lasting self.now.table.shared.key
            place.old.me result place.new.me }
    {
        let mut looks = 0;
        for _ in rt.forever() {
            let served = self.table.shared.load::<Look<T>>(place, SERVING);
            if served == ticket {
                return self.table.shared.exchange(place, VALUE, None).unwrap();
            }
            if looks < LOOKS {
                looks += 1;
                spin_loop();
            } else {
                self.sleep(rt, served);
            }
        }
        unreachable!()
    }

    // Sleeps while the ticket that was last served is still served.
    fn sleep<R: Wait>(&self, rt: &R, served: u64) {
        self.sleepers.fetch_add(1, Ordering::SeqCst);
        self.table
            .shared
            .park(rt, SERVING, (served % (1 << 32)) as u32);
        self.sleepers.fetch_sub(1, Ordering::SeqCst);
    }

    pub(crate) fn count<W: Said<T::Entry>, C: Call<T>>(
        &self,
        place: &mut Place<T, T::Entry>,
        _asked: &Snapshot<C>,
        _answer: &C::Answer,
    )
        requires said { W.entry ≡ Some (C.entry _asked.now.value _answer.now) }
        requires place { (place.old.table_id ≡ self.now.table.shared.table_id)
            × (place.old.me.0.about ≡ Some self.now.table.shared.key) }
        requires holds { (place.old.me.0.holds ≡ true) × (place.old.me.0.counted ≡ 0) }
        ensures place { (place.new.table_id ≡ place.old.table_id) × (place.new.id ≡ place.old.id) }
        ensures counted { place.new.me
            ≡ (counting place.old.me.0 (C.entry _asked.now.value _answer.now), place.old.me.1) }
        ensures joined { KnowsJoined place.new.me.0 place.new.me.0.seen }
        ensures strangers { KnowsStrangers place.new.me.0 place.new.me.0.seen }
    {
        self.table.shared.fetch_add::<Count<W>>(place, COUNT, 1);
    }

    pub(crate) fn leave(&self, place: &mut Place<T, T::Entry>, value: T)
        requires place { (place.old.table_id ≡ self.now.table.shared.table_id)
            × (place.old.me.0.about ≡ Some self.now.table.shared.key) }
        requires holds { (place.old.me.0.holds ≡ true)
            × (place.old.me.0.counted ≡ 1)
            × (place.old.me.1 ≡ (0, None) ∷ []) }
        requires stands { T.stands value place.old.me.0.seen }
        requires lasts { T.lasting value ≡ T.lasting self.now.table.shared.key.first.value }
        ensures place { (place.new.table_id ≡ place.old.table_id) × (place.new.id ≡ place.old.id) }
        ensures left { place.new.me ≡ (leaving place.old.me.0, []) }
    {
        let old = self.table.shared.exchange(place, VALUE, Some(value));
        let None = old else { unreachable!() };
        self.table.shared.fetch_add::<Serve>(place, SERVING, 1);
        if self.sleepers.load(Ordering::SeqCst) > 0 {
            self.table.shared.wake_all(SERVING);
        }
    }

    pub(crate) fn split(&self, first: &mut Place<T, T::Entry>) -> Place<T, T::Entry>
        requires place { (first.old.table_id ≡ self.now.table.shared.table_id)
            × (first.old.me.0.about ≡ Some self.now.table.shared.key) }
        requires settled { IsIdle first.old.me × KnowsAll first.old.me.0 }
        requires first { first.old.me.0.first ≡ true }
        ensures place { (first.new.table_id ≡ first.old.table_id)
            × (first.new.id ≡ first.old.id)
            × (result.table_id ≡ first.old.table_id) }
        ensures views { (first.new.me ≡ (split_first first.old.me.0, first.old.me.1))
            × (result.me ≡ (split_new first.old.me.0, [])) }
        ensures known { KnowsAll first.new.me.0 × KnowsAll result.me.0 }
    {
        self.table.shared.split_seat::<Cut>(first)
    }

    pub(crate) fn join(&self, into: &mut Place<T, T::Entry>, ended: Place<T, T::Entry>)
        requires into { (into.old.table_id ≡ self.now.table.shared.table_id)
            × (into.old.me.0.about ≡ Some self.now.table.shared.key) }
        requires ended { (ended.table_id ≡ self.now.table.shared.table_id)
            × (ended.me.0.about ≡ Some self.now.table.shared.key) }
        requires settled { IsIdle into.old.me
            × KnowsAll into.old.me.0
            × IsIdle ended.me
            × KnowsAll ended.me.0 }
        requires first { into.old.me.0.first ≡ true }
        ensures place { (into.new.table_id ≡ into.old.table_id) × (into.new.id ≡ into.old.id) }
        ensures view { into.new.me ≡ (joining_views into.old.me.0 ended.me.0, into.old.me.1) }
        ensures seen { StartsWith into.new.me.0.seen into.old.me.0.seen
            × StartsWith into.new.me.0.seen ended.me.0.seen }
        ensures known { KnowsAll into.new.me.0 }
    {
        self.table.shared.join_seat::<Merge>(into, ended);
        self.table.shared.load::<Learn>(into, TICKET);
    }

    pub(crate) fn close(self, place: Place<T, T::Entry>) -> T
        requires place { (place.table_id ≡ self.table.shared.table_id)
            × (place.me.0.about ≡ Some self.table.shared.key) }
        requires settled { IsIdle place.me × KnowsAll place.me.0 }
        requires first { IsWhole (seat_state place.table_id place.me.0) }
        ensures { Closes T.stands T.lasting self.table.shared.key
            (seat_state place.table_id place.me.0) result }
    {
        let Core {
            table,
            limit: _,
            sleepers: _,
        } = self;
        let mut closed = table.close_with(place);
        let last = closed.take(VALUE);
        closed.free();
        last.unwrap()
    }
}
