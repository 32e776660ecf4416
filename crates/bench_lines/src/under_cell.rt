//! The counter under a turn cell.
ghost use Rattle.std.specs.Prelude.{◌≡◌, ◌+◌, ◌<◌, true, length, All, IfSome, vec_len};
ghost use Rattle.turn_cell.specs.SeatStates.{IsSeatOf};

use std::alloc::Global;
use std::sync::Wait;
use std::thread::{Threads, for_each_mut};
use turn_cell::{Call, Seat, StandsFor, TurnCell};

/// How often it was added to.
#[derive(Drop)]
struct Counter {
    count: u64,
}

impl StandsFor for Counter {
    ghost use Rattle.std.specs.Prelude.{◌≡◌, length};

    type Entry = ();

    type Lasting = ();

    ghost lasting = { λ _. tt };

    ghost stands = { λ c log. c.count ≡ length log };
}

/// Adds one.
#[derive(Drop)]
struct Add;

impl Call<Counter> for Add {
    ghost use Rattle.std.specs.Prelude.{⊤};

    type Answer = ();

    ghost entry = { λ _ _. tt };

    ghost need = { λ _ _ _ _. ⊤ };

    ghost promise = { λ _ _ _ _. ⊤ };

    fn run(self, value: &mut Counter) {
        value.count += 1;
    }
}

/// How many turns a cell has counted when that many threads took `each` of them: as many as its
/// history has entries. Nothing where memory was wanting.
pub(crate) fn count<R: Threads + Wait + Sync>(
    rt: &R,
    alloc: Global,
    threads: usize,
    each: u64,
) -> Option<u64>
    requires { 0 < threads }
{
    let Ok((cell, mut first)) = TurnCell::new(alloc, Counter { count: 0 }, 1 << 62) else {
        return None;
    };
    let Some(mut seats) = split_all(alloc, &cell, &mut first, threads) else {
        drop(first);
        drop(cell);
        return None;
    };
    take_beside(rt, &cell, seats.as_mut_slice(), threads, each);
    join_all(&cell, &mut first, seats);
    Some(cell.close(first).into_value().count)
}

fn split_all(
    alloc: Global,
    cell: &TurnCell<Counter>,
    first: &mut Seat<Counter>,
    many: usize,
) -> Option<Vec<Seat<Counter>>>
    requires seat { IsSeatOf cell.now first.old }
    requires first { first.old.first ≡ true }
    ensures first { IfSome result (λ seats. IsSeatOf cell.now first.new
        × (first.new.first ≡ true) × (first.new.splits ≡ first.old.splits + vec_len seats)
        × (first.new.joined ≡ first.old.joined)) }
    ensures seats { IfSome result (λ seats. All (IsSeatOf cell.now) seats.items) }
{
    let mut seats = Vec::new(alloc);
    for _ in 0..many {
        let seat = cell.split(first).unwrap();
        if seats.push(seat).is_err() {
            return None;
        }
    }
    Some(seats)
}

// Each thread takes its turns on a seat of its own.
fn take_beside<R: Threads + Wait + Sync>(
    rt: &R,
    cell: &TurnCell<Counter>,
    seats: &mut [Seat<Counter>],
    threads: usize,
    each: u64,
)
    requires threads { 0 < threads }
    requires seats { All (IsSeatOf cell.now) seats.old }
    ensures { All (IsSeatOf cell.now) seats.new }
{
    for_each_mut(
        rt,
        seats,
        threads,
        &|_, seat| take_turns(rt, cell, seat, each),
    );
}

fn take_turns<R: Wait>(rt: &R, cell: &TurnCell<Counter>, seat: &mut Seat<Counter>, times: u64)
    requires { IsSeatOf cell.now seat.old }
    ensures { IsSeatOf cell.now seat.new }
{
    for _ in 0..times {
        if cell.turn(rt, seat, Add).is_err() {
            return;
        }
    }
}

fn join_all(cell: &TurnCell<Counter>, first: &mut Seat<Counter>, mut seats: Vec<Seat<Counter>>)
    requires seat { IsSeatOf cell.now first.old }
    requires first { first.old.first ≡ true }
    requires seats { All (IsSeatOf cell.now) seats.items }
    ensures seat { IsSeatOf cell.now first.new × (first.new.first ≡ true) }
    ensures joined { (first.new.splits ≡ first.old.splits)
        × (length first.new.joined ≡ length first.old.joined + vec_len seats) }
{
    while let Some(seat) = seats.pop() {
        cell.join(first, seat);
    }
}
