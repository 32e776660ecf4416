//! Who is woken where an actor of a run has ended, or a drawing has.
use farm_base::{Bell, Bells};
use farm_shared::Alarms;
use std::sync::atomic::{AtomicU64, Ordering};

/// A bell that counts how often it was rung.
#[derive(Drop)]
struct Counting {
    rung: AtomicU64,
}

impl Counting {
    fn new() -> Counting {
        Counting {
            rung: AtomicU64::new(0),
        }
    }

    fn count(&self) -> u64 {
        self.rung.load(Ordering::SeqCst)
    }
}

impl Bell for Counting {
    fn ring(&self) {
        self.rung.fetch_add(1, Ordering::SeqCst);
    }
}

/// The control front is woken like the others: where one of these breaks, it has nobody else who tells it.
pub fn every_front_is_woken() -> [bool; 3] {
    let bells = Bells {
        renderd: Counting::new(),
        tiles: Counting::new(),
        control: Counting::new(),
    };
    let alarms = Alarms {
        workers: &[],
        bells: &bells,
    };
    alarms.ring_all();
    alarms.ring_fronts();
    [
        bells.renderd.count() == 2,
        bells.tiles.count() == 2,
        bells.control.count() == 2,
    ]
}
