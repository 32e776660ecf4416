//! Calls of a farm's tables: queues with as many asks open as there may be, and marks of many metatiles.
//! Rates are those of many more calls, over 1,000,000 shown metatiles.
use crate::asked::Work;
use crate::bench::Bench;
use farm_base::Sink;
use std::rt::Clock;

/// How much is done.
#[derive(Clone, Copy)]
pub(crate) struct Calls {
    /// How many metatiles are shown.
    pub shown: u32,
    /// How many tiles of zoom 18 are expired one by one.
    pub tiles: u32,
    /// How many rounds of two asks, a claim, its end and two replies are taken.
    pub rounds: u32,
    /// How often 64 connections of 64 asks leave.
    pub leaves: u32,
}

impl Work {
    fn calls(self) -> Calls {
        match self {
            Work::Counts => Calls {
                shown: 70_000,
                tiles: 10,
                rounds: 2_000,
                leaves: 1,
            },
            Work::Rates => Calls {
                shown: 1_000_000,
                tiles: 1_000,
                rounds: 200_000,
                leaves: 50,
            },
        }
    }
}

impl<'a, R: Clock, O: Sink> Bench<'a, R, O> {
    /// The lines of the queues and of the marks: none where memory was wanting.
    pub(crate) fn table_lines(&mut self) -> Option<()> {
        let calls = self.work.calls();
        self.queue_lines(calls)?;
        self.mark_lines(calls)
    }
}
