//! What the program does with its runtime: the top call over the real files, streams, store and sockets.

use exit_status::{Stop, report};
use farm_base::{Bell, Files, OutSink};
use farm_call::program;
use reactor_ports::{Ports, ThreePorts};
use std::alloc::{AllocError, Global};
use std::process::ExitCode;
use std::rt::{Clock, Env, Stderr, Stdout};
use std::sync::Wait;
use std::thread::Threads;
use tile_store::{Stage, TileStore};

/// The program: what its words ask for, over files, a store, ports and what stages drawings for the store, its standard output and standard error. The
/// exit status is the call's; its line goes to standard error. Where there was no memory for the ports, the status is
/// that of memory wanting.
pub fn run_program<
    R: Env + Alloc<A = Global> + Threads + Wait + Clock + Sync,
    F: Files + Drop,
    D: TileStore + Send + Drop,
    P: Ports + Send + Drop,
    B: Bell + Send + Sync + Drop,
    G: Stage + Sync,
>(
    rt: &R,
    files: F,
    out: Stdout,
    err: Stderr,
    store: D,
    ports: Result<ThreePorts<P, B>, AllocError>,
    staging: &G,
) -> ExitCode {
    let mut files = files;
    let mut out = OutSink::new(out);
    let mut err = OutSink::new(err);
    let Ok(mut ports) = ports else {
        return ExitCode::from(report(&mut err, &Err(Stop::NoMemory)));
    };
    let end = program(
        rt, &mut files, &mut out, &mut err, store, &mut ports, staging,
    );
    ExitCode::from(end.into_status())
}
