//! Benchmarks of filters, of turns, of the farm's tables and of ports over sockets.
//!
//! `benches` prints what each of them counts, the same on every run. `benches filters`, `benches turns`, `benches tables`
//! and `benches ports` take one of them alone; the word `rates` behind it, or alone, takes more of them and prints what they
//! take too. `benches serve ADDRESS..` says at which of these addresses it listens, and echoes what the clients of another
//! program send there, until it is stopped: `benchmarks/ports.py` asks it. What is done stands in the library
//! `bench_lines`.
#![tactic(auto)]

use bench_lines::{Bench, Echo};
use farm_base::OutSink;
use reactor_ports::SocketPorts;
use std::alloc::Global;
use std::process::ExitCode;
use std::rt::Env;
use std::{env, io};

fn main(rt: HostRuntime) -> io::Result<ExitCode> {
    let words = words_of(&rt)?;
    let (ports, bell) = SocketPorts::new(rt.alloc(), rt)?;
    let mut echo = Echo::new(rt.alloc(), ports);
    let mut bench = Bench::new(&rt, rt.alloc(), OutSink::new(rt.stdout()));
    let mut err = OutSink::new(rt.stderr());
    let status = bench.answer(words.as_slice(), &mut echo, &bell, &mut err);
    drop(echo);
    drop(bell);
    drop(words);
    Ok(ExitCode::from(status))
}

// The words behind the program's name.
fn words_of<R: Env + Alloc<A = Global>>(rt: &R) -> io::Result<Vec<String>> {
    let mut words = Vec::new(rt.alloc());
    for word in env::args(rt)?.skip(1) {
        words.push(word)?;
    }
    Ok(words)
}
