//! The program over the words of its runtime.
ghost use Rattle.std.specs.Prelude.{◌≡◌, [], Err};
ghost use Rattle.exit_status.specs.Stops.{told_of};
ghost use Rattle.exit_status.specs.Ends.{Reports};
ghost use Rattle.farm_runs.specs.Actors.{three};
ghost use Rattle.farm_call.specs.declared.left.Left.TheVariants.{Store};
ghost use Rattle.farm_call.specs.Keeps.{ProgramKeeps};

use crate::call::farm_main;
use crate::ends::FarmEnd;
use crate::left::Left;
use exit_status::{Stop, report};
use farm_base::{Bell, Files, Sink};
use reactor_ports::{Ports, ThreePorts};
use std::alloc::Global;
use std::env;
use std::io::{self, ErrorKind};
use std::rt::{Clock, Env};
use std::sync::Wait;
use std::thread::Threads;
use tile_store::{Stage, TileStore};

/// `farm_main` with the words behind the program's name, over these files and sinks and this store.
/// Words that cannot be had, since one is not UTF-8, are refused like wrong ones, unless memory ran
/// out.
#[tactic(auto, using(crate::proofs::WholeCall::called))]
pub fn program<
    R: Env + Alloc<A = Global> + Threads + Wait + Clock + Sync,
    F: Files,
    O: Sink,
    E: Sink,
    D: TileStore + Send,
    P: Ports + Send,
    B: Bell + Send + Sync,
    G: Stage + Sync,
>(
    rt: &R,
    files: &mut F,
    out: &mut O,
    err: &mut E,
    store: D,
    ports: &mut ThreePorts<P, B>,
    gate: &G,
) -> FarmEnd<D>
    // It is the call with some words, or these cannot be had: `specs/Keeps.antt`.
    ensures { ProgramKeeps D.state
        (record {
          words = [];
          files = F.state files.old;
          out = O.state out.old;
          err = E.state err.old;
          store = store;
          ports = three (P.state ports.old.renderd) (P.state ports.old.tiles)
              (P.state ports.old.control);
        })
        (record {
          status = result.status;
          files = F.state files.new;
          out = O.state out.new;
          err = E.state err.new;
          left = result.left;
          fronts = result.fronts.items;
          ports = three (P.state ports.new.renderd) (P.state ports.new.tiles)
              (P.state ports.new.control);
        }) }
{
    match words(rt) {
        Ok(words) => farm_main(
            rt,
            rt.alloc(),
            words.as_slice(),
            files,
            out,
            err,
            store,
            ports,
            gate,
        ),
        Err(error) => match error.kind() {
            ErrorKind::OutOfMemory => wordless(rt.alloc(), err, Stop::NoMemory, store),
            _ => wordless(rt.alloc(), err, Stop::Words, store),
        },
    }
}

fn words<R: Env + Alloc<A = Global>>(rt: &R) -> io::Result<Vec<String>> {
    let mut words = Vec::new(rt.alloc());
    for word in env::args(rt)?.skip(1) {
        words.push(word)?;
    }
    Ok(words)
}

// The end of a call whose words cannot be had.
fn wordless<E: Sink, D: TileStore>(alloc: Global, err: &mut E, stop: Stop, store: D) -> FarmEnd<D>
    ensures report { Reports (told_of (Err stop)) (E.state err.old)
        (E.state err.new) result.status }
    ensures left { result.left ≡ Store store }
    ensures no_fronts { result.fronts.items ≡ [] }
{
    let status = report(err, &Err(stop));
    FarmEnd {
        status,
        left: Left::Store(store),
        fronts: Vec::new(alloc),
    }
}
