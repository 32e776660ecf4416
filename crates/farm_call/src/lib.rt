//! The top call: what the words of a command line ask for, done over the files, sinks and the store
//! that are handed in. The command `serve` is here: a farm is begun over its store, anew or where another stopped in order,
//! and its ports listen; three fronts serve it while its workers draw; what is clean when it stops in order is kept, and its
//! counts are put. What is promised of that stands in `specs/Served.antt`, of the whole call in `specs/Keeps.antt`.
//!
//! What is proved: `farm_main`: what the words ask for, what is read and put, and what is left: the store that is
//! handed in, or the farm that was served with its history: one record of what it was handed and what it left
//! (`Keeps`). Of a farm that was served, the headline and eight points, each a field; the statuses 0 to 8 with their
//! causes, 0 to 3 both ways but for want of memory, and the lines on standard error; with 4 a count of faults rose; 0
//! or 5 where nothing is wrong (`docs/believe/promise.md` tells of it). Inside, `serve_config`: the files are read, a farm
//! is begun, its ports listen, three fronts serve it and its workers draw until it is stopped, and it is wound up
//! (`Serves`: either no actor was started, and why, or the farm has served). Before a farm serves, `begin`: a farm of a
//! plan over a store, begun anew or by what is saved there, or why not, and what the store shows then (`HasBegun`,
//! `CannotBegin`); where it resumes, no bytes stand in the place of what was saved once it has begun. `listen_all`:
//! three ports are listened on in order, and the first that does not listen is the last (`Listening`). After it has
//! served, `why_ended`: the first that applies of turns used up, ports failed and memory wanting, by how the fronts
//! ended; `wind_up`: the farm is saved where it resumes and ended in order, and then the line of its counts is put,
//! without memory (`WindsUp`, `MaySave`). `law_restart`: over runs each of which goes on where the one before stopped,
//! what is promised of bytes needs of the store what the first run needs (`LawRestart`, `LawGoesOn`).
#![tactic(auto)]

mod arguments;
mod begun;
mod call;
mod counts;
mod ending;
mod ends;
mod left;
mod listens;
mod reasons;
mod restart;
mod resumed;
mod saves;
mod serve;
mod winding;

pub use arguments::program;
pub use call::farm_main;
pub use ends::FarmEnd;
pub use left::Left;
pub use restart::law_restart;
