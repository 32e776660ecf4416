//! Whether all actors have threads.
ghost use Rattle.std.specs.Prelude.{◌≡◌};

use crossbeam_utils::sync::Unparker;
use std::rt::Clock;
use std::sync::atomic::{AtomicU64, Ordering};
use std::thread::{sleep, yield_now};
use std::time::{Duration, Instant};

/// The count of actors once one of them has given up.
const GIVEN_UP: u64 = 1 << 63;

/// How often an actor looks at once, and how often after a millisecond each.
const QUICK_LOOKS: u32 = 200;

const SLOW_LOOKS: u32 = 20_000;

/// For how many seconds it looks at most.
const PATIENCE: u64 = 20;

// Whether it is late, since that moment; where the clock cannot be read it is not.
fn is_late<R: Clock>(rt: &R, began: Option<Instant>) -> bool {
    let Some(began) = began else {
        return false;
    };
    match began.elapsed(rt) {
        Ok(waited) => waited.as_secs() >= PATIENCE,
        Err(_) => false,
    }
}

/// The actors of a run come to it when they begin. Where no thread is to be had for one of them, actors run one
/// after another, and would wait for each other for ever; so each waits here for a while until all have begun,
/// and where they have not, all give up. It also has who wakes the workers.
#[derive(Drop)]
pub struct StartBarrier {
    begun: AtomicU64,
    all: u64,
    pub sleepers: Vec<Unparker>,
}

impl StartBarrier {
    /// A barrier for so many actors, of whom the workers are woken by these.
    pub fn new(all: u64, sleepers: Vec<Unparker>) -> StartBarrier
        ensures count { result.all ≡ all }
        ensures sleepers { result.sleepers ≡ sleepers }
    {
        StartBarrier {
            begun: AtomicU64::new(0),
            all,
            sleepers,
        }
    }

    /// One more actor has begun: waits until all have, which is the answer. All get the same answer. It promises
    /// nothing to a proof, since no contract knows what other threads do, or what the clock says.
    pub fn begin<R: Clock>(&self, rt: &R) -> bool {
        self.begun.fetch_add(1, Ordering::SeqCst);
        let mut seen = self.wait(rt);
        // Who gives up says so once; a count that rose meanwhile is looked at again.
        for _ in 0..64 {
            if seen >= self.all {
                break;
            }
            match self
                .begun
                .compare_exchange(seen, GIVEN_UP, Ordering::SeqCst, Ordering::SeqCst)
            {
                Ok(_) => return false,
                Err(found) => seen = found,
            }
        }
        seen == self.all
    }

    // Waits until all have begun or one has given up, for some twenty seconds at most: the last count seen.
    fn wait<R: Clock>(&self, rt: &R) -> u64 {
        let began = Instant::now(rt).ok();
        for look in 0..QUICK_LOOKS + SLOW_LOOKS {
            let seen = self.begun.load(Ordering::SeqCst);
            if seen >= self.all || is_late(rt, began) {
                return seen;
            }
            if look < QUICK_LOOKS {
                yield_now();
            } else {
                sleep(rt, Duration::from_millis(1));
            }
        }
        self.begun.load(Ordering::SeqCst)
    }
}
