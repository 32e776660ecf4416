//! A counter under a cell.
ghost use Rattle.std.specs.Prelude.{◌≡◌, ◌+◌, ◌*◌, true, length, IfSome};
ghost use Rattle.turn_cell.specs.SeatStates.{IsSeatOf, IsWhole, SameSeat};

use std::alloc::Global;
use std::sync::Wait;
use std::thread::{Threads, join};
use turn_cell::{Call, ClosedCell, Seat, StandsFor, TurnCell};

/// How often it was added to.
#[derive(Drop)]
pub struct Counter {
    pub count: u64,
}

impl StandsFor for Counter {
    ghost use Rattle.std.specs.Prelude.{◌≡◌, length};

    /// The count before.
    type Entry = u64;

    type Lasting = ();

    ghost lasting = { λ _. tt };

    ghost stands = { λ c log. c.count ≡ length log };
}

/// Adds one, and answers the count before.
#[derive(Drop)]
pub struct Add;

impl Call<Counter> for Add {
    ghost use Rattle.std.specs.Prelude.{◌≡◌, length, ⊤};

    type Answer = u64;

    ghost entry = { λ _ answer. answer };

    ghost need = { λ _ _ _ _. ⊤ };

    ghost promise = { λ _ answer log _. answer ≡ length log };

    fn run(self, value: &mut Counter) -> u64 {
        let before = value.count;
        value.count += 1;
        before
    }
}

/// Takes so many turns, unless the cell wears out.
pub(crate) fn take_turns<R: Wait>(
    rt: &R,
    cell: &TurnCell<Counter>,
    mut seat: Seat<Counter>,
    times: u64,
) -> (Seat<Counter>, bool)
    requires { IsSeatOf cell.now seat }
    ensures seat { IsSeatOf cell.now result.0 × SameSeat seat result.0 }
    ensures turns { result.1 ≡ true → length result.0.mine ≡ length seat.mine + times }
{
    for _ in 0..times {
        if cell.turn(rt, &mut seat, Add).is_err() {
            return (seat, false);
        }
    }
    (seat, true)
}

/// Two threads take `each` turns on seats of their own. The closed cell, unless memory was wanting or
/// the cell wore out: it counted every turn, and has an entry for each.
pub(crate) fn count_both<R: Threads + Wait + Sync>(
    rt: &R,
    alloc: Global,
    each: u64,
) -> Option<ClosedCell<Counter>>
    ensures value { IfSome result (λ closed. closed.0.count ≡ 2 * each) }
    ensures history { IfSome result (λ closed. length closed.1 ≡ 2 * each) }
{
    let Ok((cell, mut first)) = TurnCell::new(alloc, Counter { count: 0 }, 1 << 62) else {
        return None;
    };
    let one = cell.split(&mut first).unwrap();
    let two = cell.split(&mut first).unwrap();
    let shared = &cell;
    let ((one, all), (two, both)) = join(
        rt,
        || -> (Seat<Counter>, bool)
            requires { IsSeatOf shared.now one }
            ensures seat { IsSeatOf shared.entry.now result.0 × SameSeat one result.0 }
            ensures turns { result.1 ≡ true → length result.0.mine ≡ length one.mine + each }
        { take_turns(rt, shared, one, each) },
        || -> (Seat<Counter>, bool)
            requires { IsSeatOf shared.now two }
            ensures seat { IsSeatOf shared.entry.now result.0 × SameSeat two result.0 }
            ensures turns { result.1 ≡ true → length result.0.mine ≡ length two.mine + each }
        { take_turns(rt, shared, two, each) },
    );
    cell.join(&mut first, one);
    cell.join(&mut first, two);
    let closed = cell.close(first);
    if all && both { Some(closed) } else { None }
}

/// Closes a cell by its first seat. The count is that of the entries of its whole history.
pub(crate) fn closing_count(cell: TurnCell<Counter>, seat: Seat<Counter>) -> u64
    requires seat { IsSeatOf cell seat }
    requires whole { IsWhole seat }
    ensures { result ≡ length seat.seen }
{
    cell.close(seat).into_value().count
}
