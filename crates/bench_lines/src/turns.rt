//! Turns of a counter under the turn cell, and the same work under std's mutex.
ghost use Rattle.std.specs.Prelude.{◌<◌};

use crate::asked::Work;
use crate::bench::{Bench, rate_of};
use crate::{under_cell, under_mutex};
use farm_base::Sink;
use std::rt::Clock;
use std::sync::Wait;
use std::thread::Threads;

/// Which lock the counter is under.
#[derive(Clone, Copy)]
enum Lock {
    Cell,
    Mutex,
}

impl Lock {
    fn name(self) -> &'static str {
        match self {
            Lock::Cell => "cell",
            Lock::Mutex => "mutex",
        }
    }
}

impl Work {
    // How many turns all threads take together.
    fn turns(self) -> u64 {
        match self {
            Work::Counts => 4_000,
            Work::Rates => 400_000,
        }
    }
}

impl<'a, R: Threads + Wait + Sync + Clock, O: Sink> Bench<'a, R, O> {
    /// The lines of both locks, each with 1, 2 and 4 threads: none where memory was wanting.
    pub(crate) fn turn_lines(&mut self) -> Option<()> {
        self.lock_lines(Lock::Cell)?;
        self.lock_lines(Lock::Mutex)
    }

    fn lock_lines(&mut self, lock: Lock) -> Option<()> {
        self.turn_line(lock, 1)?;
        self.turn_line(lock, 2)?;
        self.turn_line(lock, 4)
    }

    // Takes the turns with so many threads and puts a line.
    fn turn_line(&mut self, lock: Lock, threads: usize) -> Option<()>
        requires { 0 < threads }
    {
        let each = self.work.turns() / threads as u64;
        let start = self.start();
        let turns = match lock {
            Lock::Cell => under_cell::count(self.rt, self.alloc, threads, each)?,
            Lock::Mutex => under_mutex::count(self.rt, self.alloc, threads, each)?,
        };
        let took = self.took(start);
        self.out.put(lock.name());
        self.out.put(", threads ");
        self.out.put_counted(threads, ": ");
        self.out.put_counted(turns, " turns");
        if self.work.has_rates() {
            self.out.put(", ");
            self.out.put_counted(rate_of(turns, took), " a second");
        }
        self.out.put("\n");
        Some(())
    }
}
