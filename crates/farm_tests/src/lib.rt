//! Tests of single crates by their public calls, some on threads. They stand here and not beside what they call, since a
//! crate with tests of its own is proved twice, and in one crate, since a second one would load all that it stands on
//! once more. What they try stands in the libraries `crate_trials` and `farm_trials`, whose proofs read interfaces only; here
//! a test says what is to come out. None makes the top call, whose code would be loaded and compiled for it once more.
//!
//! The tiles that a command draws are those of the program `command_cases`, and so are its calls of which reads or puts fail.
//! The whole farm is asked on real sockets by `.ci/sockets.py`.
#![tactic(auto)]

#[cfg(test)]
mod barrier;
#[cfg(test)]
mod drawn;
#[cfg(test)]
mod seats;
#[cfg(test)]
mod stores;
