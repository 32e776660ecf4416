//! What each step of a front works with.
use std::alloc::Global;

/// What each step of a front works with beside what it changes: the runtime, what memory is taken from, the
/// front with its rules, and the farm.
#[derive_where(Clone, Copy)]
pub struct Context<'a, R, M, F> {
    pub rt: &'a R,
    pub alloc: Global,
    pub front: &'a F,
    pub farm: &'a M,
}

/// A piece of the bytes of a connection.
#[derive(Clone, Copy)]
pub struct Piece<'a> {
    pub conn: u32,
    pub bytes: &'a [u8],
}
