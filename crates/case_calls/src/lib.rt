//! Whole calls over files as cases: `serve` over ports in memory, scripts and generated work, drawings and containers. All
//! go through one call of `farm_main`, over one kind of files, sinks, store, ports and gate, so that a program that runs
//! them builds the farm once. It is a library, for whose proof only the interfaces of all that it reaches are read, and the
//! program `command_cases` runs it: what is wanted of each case was computed by other programs, which were written from
//! the formats and the farm's rules alone.
#![tactic(auto)]

mod beside;
mod cases;
mod commands;
mod gates;
mod plays;
mod serves;
mod tells;

pub use plays::run_all;
