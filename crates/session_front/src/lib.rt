//! The renderd front: it reads the messages of renderd's protocol, asks the farm, and answers.
//!
//! What is proved: `Renderd`, a front by its number, over any farm: its `Rules`
//! (`crates/session_front/specs/Renderd.antt`) are renderd's. The asks of a connection are its requests with the
//! commands 1, 5, 7, 6 and 2, in order, as Render, Prio, Low, Bulk and Dirty, however its bytes are cut; a request of
//! version 1 names the map `default`; Done is answered with the command 3, every NotDone with 4, Dirty with nothing; an
//! ask that waits is answered when its reply is collected, once; an unknown version ends the connection. Its rules are
//! those of front 0 of a farm (`IsFront`, in `proofs/OwnEntries.antt`). `serve`: what `front_loop` promises of a front,
//! with these rules, on a seat of a shared farm.
#![tactic(auto)]

mod asked;
mod asking;
mod messages;
mod renderd;
mod replies;
mod serving;
mod waits;
mod words;

pub use asked::Asked;
pub use renderd::Renderd;
pub use serving::serve;
