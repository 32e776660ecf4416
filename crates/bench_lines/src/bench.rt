//! What benchmarks are run with.
use crate::asked::Work;
use farm_base::Sink;
use noted_puts::Noted;
use std::alloc::Global;
use std::rt::Clock;
use std::time::{Duration, Instant};

/// The runtime, whether rates are told, the sink of the lines, and whether the clock told each time that was asked.
#[derive(Drop)]
pub struct Bench<'a, R, O> {
    pub(crate) rt: &'a R,
    pub(crate) alloc: Global,
    pub(crate) work: Work,
    pub(crate) out: Noted<O>,
    pub(crate) has_clock: bool,
}

impl<'a, R, O: Sink> Bench<'a, R, O> {
    /// Without rates.
    pub fn new(rt: &'a R, alloc: Global, out: O) -> Bench<'a, R, O> {
        Bench {
            rt,
            alloc,
            work: Work::Counts,
            out: Noted::new(out),
            has_clock: true,
        }
    }

    /// Whether each line was taken, and each time told.
    pub(crate) fn is_whole(&self) -> bool {
        self.out.took_all() && self.has_clock
    }

    /// Puts what one of so many took, where rates are asked for.
    pub(crate) fn put_each(&mut self, took: Duration, count: u32) {
        if self.work.has_rates() {
            let each = took.as_nanos().checked_div(u128::from(count)).unwrap_or(0);
            self.out.put_counted(each, " nanoseconds each\n");
        }
    }
}

impl<'a, R: Clock, O> Bench<'a, R, O> {
    /// The time now.
    pub(crate) fn start(&self) -> Option<Instant> {
        Instant::now(self.rt).ok()
    }

    /// How long it was since that time; none, which is noted, where the clock failed.
    pub(crate) fn took(&mut self, start: Option<Instant>) -> Duration {
        if let Some(start) = start {
            if let Ok(took) = start.elapsed(self.rt) {
                return took;
            }
        }
        self.has_clock = false;
        Duration::ZERO
    }
}

/// So many a second, without the fraction.
pub(crate) fn rate_of(many: u64, took: Duration) -> u128 {
    u128::from(many)
        .saturating_mul(1_000_000_000)
        .checked_div(took.as_nanos())
        .unwrap_or(0)
}
