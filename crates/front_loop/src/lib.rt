//! What the three fronts share: sessions, the bytes that were answered and not yet taken, rounds and
//! ends. A front is a trait of five calls, with its rules; `serve` is written and proved once, for any
//! front, any farm and any ports, and `serve_shared` serves one on a shared farm.
//!
//! What is proved: `serve`, for any front, any farm and any ports: `FrontRun` (`crates/front_loop/specs/Serving.antt`).
//! What it did is a list of rounds, one for each event of its ports, of which only the newest may be cut short, and
//! only where a turn was worn. Its own entries are those of its rounds, and then at most a Stop; what its ports tell is
//! what the rounds make of what they told, where they tell; each round may be made after those before it
//! (`RoundRules.antt`: requests in order and no others, one Collect after another, one offer of all that was due
//! exactly where there is a reason, each connection left once and for its cause, and no cause left alone; who is left
//! has all that its bytes ask and all its entries, unless its rest was full, memory was wanting, or the drawing was
//! cut; no round after one that was stopped or whose ports finished); each end only with its cause, and Broken only
//! where the ports' count of faults rose in the call; the rests are all bytes that were answered and not taken, of the
//! connections that are there, but where a turn was worn; the count of the starved. In the words of ports that tell:
//! the bytes taken of a connection are a beginning of its answers, and it is open exactly where it is there. What a
//! front makes of bytes and replies is its own `Rules`.
//! `FarmAdapter`: the shared farm with its alarms is a `Farm` as `serve` wants one; each event is one turn of the
//! front's seat with its own entry, and a seat stays one of its farm that knows its history (`seats_of`).
//! What a front of a farm may leave, whichever it is (`crates/front_loop/specs/Kinds.antt`): which entries are its own,
//! and what one leaves that was not begun. What a front leaves whose rules are those of front n (`IsFront`) is what its
//! rounds leave (`FrontLeaves`, `crates/front_loop/specs/Leaves.antt`): it ends Broken only where its ports' count of
//! faults rose, and its entries are a front's; a front that was not begun leaves it too.
#![tactic(auto)]

mod adapter;
mod closing;
mod collecting;
mod context;
mod dispositions;
mod farm;
mod front;
mod hearing;
mod offering;
mod rounds;
mod serving;
mod sessions;

pub use adapter::{FarmAdapter, Place};
pub use context::{Context, Piece};
pub use dispositions::{Disposition, Reason};
pub use farm::Farm;
pub use front::Front;
pub use rounds::serve;
pub use serving::serve_shared;
