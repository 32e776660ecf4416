//! A gate that holds drawings.
use farm_base::Gate;
use std::alloc::Global;
use std::rt::Clock;
use std::sync::atomic::{AtomicBool, AtomicU64, Ordering};
use std::thread::sleep;
use std::time::Duration;
use tile_store::Stage;

/// How many milliseconds a drawing is held at least before it is let go all the same.
const PATIENCE: u64 = 20_000;

/// A drawing of one ticket is held until that of another one comes to the gate.
#[derive(Clone, Copy)]
pub struct Hold {
    pub held: u64,
    pub until: u64,
}

/// A gate that holds some drawings, but not for ever.
#[derive(Drop)]
pub struct HoldGate<'a, R> {
    rt: &'a R,
    holds: Vec<Hold>,
    // one more than the greatest ticket that came
    came: AtomicU64,
    // how many drawings that were to be held came
    held: AtomicU64,
    late: AtomicBool,
}

impl<'a, R: Clock> HoldGate<'a, R> {
    pub(crate) fn new(rt: &'a R, holds: Vec<Hold>) -> HoldGate<'a, R> {
        HoldGate {
            rt,
            holds,
            came: AtomicU64::new(0),
            held: AtomicU64::new(0),
            late: AtomicBool::new(false),
        }
    }

    /// Whether a drawing was let go though what it was held for had not come.
    pub(crate) fn is_late(&self) -> bool {
        self.late.load(Ordering::SeqCst)
    }

    /// Whether a drawing that was to be held never came.
    pub(crate) fn is_unheld(&self) -> bool {
        self.held.load(Ordering::SeqCst) < self.holds.len() as u64
    }

    fn wait_for(&self, ticket: u64) {
        for _ in 0..PATIENCE {
            if ticket < self.came.load(Ordering::SeqCst) {
                return;
            }
            sleep(self.rt, Duration::from_millis(1));
        }
        self.late.store(true, Ordering::SeqCst);
    }
}

impl<'a, R: Clock> Gate for HoldGate<'a, R> {
    fn before_draw(&self, ticket: u64) {
        self.came
            .fetch_max(ticket.saturating_add(1), Ordering::SeqCst);
        for hold in self.holds.as_slice() {
            if hold.held == ticket {
                self.held.fetch_add(1, Ordering::SeqCst);
                self.wait_for(hold.until);
            }
        }
    }
}

impl<'a, R: Clock> Stage for HoldGate<'a, R> {
    ghost use Rattle.std.specs.Prelude.{⊤};

    ghost wrote = { λ _ _ _. ⊤ };

    fn write(&self, _alloc: Global, _number: u64, _bytes: &[u8]) -> bool {
        false
    }

    fn clear(&self, _alloc: Global, _number: u64) {}
}
