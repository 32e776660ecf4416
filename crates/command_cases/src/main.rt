//! Texts of every kind that the readers read, and then whole calls over files: `serve` over ports in memory, scripts and
//! generated work, drawings and containers. What is done stands in the libraries `case_texts` and `case_calls`, whose
//! proofs read no more than the interfaces of what they call; a program loads and links all that it reaches.
#![tactic(auto)]

use case_calls::run_all;
use farm_base::{DiskFiles, OutSink};
use std::process::ExitCode;

fn main(rt: HostRuntime) -> ExitCode {
    let files = DiskFiles::new(rt);
    let out = OutSink::new(rt.stdout());
    match run_all(&rt, rt.alloc(), files, out) {
        Some(()) => ExitCode::SUCCESS,
        None => ExitCode::FAILURE,
    }
}
