//! Who is to be woken when something happened.
use crate::Wakes;
use crossbeam_utils::sync::Unparker;
use farm_base::{Bell, Bells};

/// The sleeping workers and the three fronts. It is made of references alone, so every thread may have one of
/// its own.
#[derive(Clone, Copy)]
pub struct Alarms<'a, B> {
    /// Wakes the workers.
    pub workers: &'a [Unparker],
    /// Wakes the fronts.
    pub bells: &'a Bells<B>,
}

impl<'a, B: Bell> Alarms<'a, B> {
    /// Wakes whom an event says. It promises nothing, as the other two.
    pub fn ring(&self, whom: Wakes) {
        match whom {
            Wakes::Nobody => {}
            Wakes::Workers => self.unpark_workers(),
            Wakes::Fronts => self.ring_fronts(),
            Wakes::Everybody => self.ring_all(),
        }
    }

    fn unpark_workers(&self) {
        for worker in self.workers {
            worker.unpark();
        }
    }

    /// Wakes all. It promises nothing, since no contract knows who sleeps: who is woken looks for work whatever woke
    /// it.
    pub fn ring_all(&self) {
        self.unpark_workers();
        self.ring_fronts();
    }

    /// Wakes the fronts, where a drawing has ended: in one of them somebody may wait for it. Its end puts at most
    /// its own metatile in a queue, and who ended it claims next. It promises as little.
    pub fn ring_fronts(&self) {
        self.bells.renderd.ring();
        self.bells.tiles.ring();
        self.bells.control.ring();
    }
}
