//! The counter under std's mutex.
ghost use Rattle.std.specs.Prelude.{◌<◌};

use std::alloc::Global;
use std::sync::{Mutex, Wait};
use std::thread::{Threads, for_each_mut};

/// How many turns a mutex has counted when that many threads took `each` of them. Nothing where
/// memory was wanting.
pub(crate) fn count<R: Threads + Wait + Sync>(
    rt: &R,
    alloc: Global,
    threads: usize,
    each: u64,
) -> Option<u64>
    requires { 0 < threads }
{
    let counter = Mutex::new(0);
    let shared = &counter;
    let mut left = vec![in alloc; each; threads].ok()?;
    for_each_mut(
        rt,
        left.as_mut_slice(),
        threads,
        &|_, times| { take_turns(rt, shared, *times) },
    );
    Some(counter.into_inner())
}

fn take_turns<R: Wait>(rt: &R, counter: &Mutex<u64>, times: u64) {
    for _ in 0..times {
        let mut count = counter.lock(rt);
        *count = count.wrapping_add(1);
    }
}
