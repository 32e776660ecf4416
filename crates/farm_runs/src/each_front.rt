//! What there is one of for each front, and who takes part in a run.
use crate::barrier::StartBarrier;
use std::alloc::Global;

/// One for each of the three fronts.
#[derive(Drop)]
pub struct EachFront<T> {
    pub renderd: T,
    pub tiles: T,
    pub control: T,
}

/// The three fronts.
#[derive(Drop)]
pub struct Fronts<F, G, H> {
    pub renderd: F,
    pub tiles: G,
    pub control: H,
}

/// What the actors of a run begin with: the barrier at which all of them begin, and what they take
/// memory from.
#[derive(Drop)]
pub struct RunStart {
    pub barrier: StartBarrier,
    pub alloc: Global,
}

/// Who takes part in a run beside the workers, which are the fronts, and what all begin with.
#[derive(Drop)]
pub struct RunActors<F, G, H> {
    pub fronts: Fronts<F, G, H>,
    pub start: RunStart,
}
