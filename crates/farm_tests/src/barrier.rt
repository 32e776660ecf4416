//! What the actors of a run do where a thread is wanting.
use farm_runs::StartBarrier;

/// Of two actors one has no thread: the other waits for it for a while, and gives up. The late one does so at once:
/// they get the same answer, and nobody serves alone.
#[test]
fn one_thread_too_few(rt: HostRuntime) {
    let barrier = StartBarrier::new(2, Vec::new(rt.alloc()));
    let first = barrier.begin(&rt);
    let late = barrier.begin(&rt);
    assert!(rt; !first, "an actor began although another has no thread");
    assert!(rt; !late, "an actor began although another has given up");
}
