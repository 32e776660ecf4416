//! Cells of a counter. What the counts come to is proved for every number of turns; the trials run it.
use crate::counter::{Add, Counter, closing_count, count_both};
use std::alloc::Global;
use std::sync::Wait;
use std::thread::Threads;
use turn_cell::{TurnCell, Worn};

/// A cell of three turns wears out.
pub fn a_cell_of_three_turns_wears_out<R: Wait>(rt: &R, alloc: Global) -> Option<[bool; 2]> {
    let Ok((cell, mut seat)) = TurnCell::new(alloc, Counter { count: 0 }, 3) else {
        return None;
    };
    let turns = [
        cell.turn(rt, &mut seat, Add),
        cell.turn(rt, &mut seat, Add),
        cell.turn(rt, &mut seat, Add),
        cell.turn(rt, &mut seat, Add),
        cell.turn(rt, &mut seat, Add),
    ];
    let entries = closing_count(cell, seat);
    let are_so = matches!(turns, [Ok(0), Ok(1), Ok(2), Err(Worn), Err(Worn)]);
    Some([are_so, entries == 3])
}

/// Two threads count every turn once.
pub fn threads_count_every_turn_once<R: Threads + Wait + Sync>(rt: &R, alloc: Global) -> bool {
    match count_both(rt, alloc, 1000) {
        Some(closed) => closed.into_value().count == 2000,
        None => false,
    }
}
