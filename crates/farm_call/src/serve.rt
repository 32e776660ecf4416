//! The command `serve`.
ghost use Rattle.std.specs.Prelude.{◌≡◌, ◌≤◌, [], IfOk};
ghost use Rattle.std.specs.Vec.{vec_capacity};
ghost use Rattle.farm_plan.specs.Plans.{IsPlan};
ghost use Rattle.farm_files.specs.Courses.{serve_course};
ghost use Rattle.farm_runs.specs.Actors.{each_port};
ghost use Rattle.farm_call.specs.Listens.{Listening};
ghost use Rattle.farm_call.specs.Serves as spec;
ghost use Rattle.farm_call.specs.Serves.{places};
ghost use Rattle.farm_call.specs.inner.Serving.{left_by, over};
ghost use Rattle.farm_call.specs.inner.Steps.{HasRun, MakesReady, Runs};
ghost use Rattle.farm_shared.specs.Shared.{IsAfter};

use crate::begun::begin;
use crate::ending::end_run;
use crate::left::{Done, stop_with};
use crate::listens::listen_all;
use control_front::{Control, TileList};
use exit_status::Stop;
use farm_base::{Bell, Files, Sink, Text};
use farm_config::Config;
use farm_core::Farm;
use farm_files::{FarmInputs, ServeInputs, serve_files};
use farm_runs::{Fronts, run_farm};
use reactor_ports::{FrontDone, Ports, ThreePorts};
use session_front::Renderd;
use std::alloc::Global;
use std::rt::Clock;
use std::sync::Wait;
use std::thread::Threads;
use tile_front::Tiles;
use tile_store::{Stage, TileStore};

/// A farm that has begun, and what is needed beside it to serve it.
#[derive(Drop)]
struct Ready<D: TileStore> {
    farm: Farm<D>,
    workers: u32,
    resume: bool,
    lists: Vec<TileList>,
    /// Room for what the three fronts answer.
    room: Vec<FrontDone>,
}

fn address_of(address: &Option<Text>) -> &str
    ensures { result.now ≡ spec.address_of address.now }
{
    match address {
        Some(address) => address.as_str(),
        None => "",
    }
}

fn listen_at<P: Ports, B>(ports: &mut ThreePorts<P, B>, config: &Config) -> Result<(), Stop>
    ensures { Listening (places config.now (each_port P.state ports.old)
        (each_port P.state ports.new)) result }
{
    listen_all(
        ports,
        address_of(&config.renderd),
        address_of(&config.tiles),
        address_of(&config.control),
    )
}

// A farm of what the files say, begun as the configuration has it, whose ports listen; or the store that is left, and
// why not.
fn make_ready<D: TileStore, P: Ports, B>(
    alloc: Global,
    served: ServeInputs,
    store: D,
    ports: &mut ThreePorts<P, B>,
) -> Result<Ready<D>, (D, Stop)>
    requires { IsPlan served.inputs.plan }
    ensures made { MakesReady D.state served store (each_port P.state ports.old)
        (each_port P.state ports.new) result }
    ensures after { IfOk result (λ ready. IsAfter D.state ready.farm []) }
    ensures workers { IfOk result (λ ready. ready.workers ≡ ready.farm.plan.workers) }
    ensures few { IfOk result (λ ready. ready.workers ≤ 16) }
    ensures empty { IfOk result (λ ready. ready.room.items ≡ []) }
    ensures room { IfOk result (λ ready. 3 ≤ vec_capacity ready.room) }
{
    let ServeInputs { config, inputs } = served;
    let FarmInputs { plan, lists } = inputs;
    let workers = plan.workers;
    let Ok(room) = Vec::with_capacity(alloc, 3) else {
        return Err((store, Stop::NoMemory));
    };
    let farm = begin(alloc, plan, config.resume, store)?;
    if let Err(stop) = listen_at(ports, &config) {
        return Err((farm.into_store(), stop));
    }
    Ok(Ready {
        farm,
        workers,
        resume: config.resume,
        lists,
        room,
    })
}

#[tactic(auto, using(session_front::proofs::OwnEntries::is_front, tile_front::proofs::OwnEntries::is_front, control_front::proofs::OwnEntries::is_front))]
fn serve_ready<
    R: Threads + Wait + Clock + Sync,
    D: TileStore + Send,
    O: Sink,
    P: Ports + Send,
    B: Bell + Send + Sync,
    G: Stage + Sync,
>(
    rt: &R,
    alloc: Global,
    ready: Ready<D>,
    out: &mut O,
    ports: &mut ThreePorts<P, B>,
    gate: &G,
) -> Done<D>
    requires after { IsAfter D.state ready.farm [] }
    requires workers { ready.workers ≡ ready.farm.plan.workers }
    requires few { ready.workers ≤ 16 }
    requires empty { ready.room.items ≡ [] }
    requires room { 3 ≤ vec_capacity ready.room }
    ensures { HasRun D.state ready
        (over (O.state out.old) ready.farm.store (each_port P.state ports.old))
        (left_by (O.state out.new) result (each_port P.state ports.new))
        result.end }
{
    let Ready {
        farm,
        workers,
        resume,
        lists,
        room,
    } = ready;
    let fronts = Fronts {
        renderd: Renderd { front: 0 },
        tiles: Tiles { front: 1 },
        control: Control {
            front: 2,
            lists: lists.as_slice(),
        },
    };
    match run_farm(rt, alloc, farm, workers, fronts, ports, gate) {
        Ok(run) => end_run(alloc, resume, room, run, out),
        Err(farm) => stop_with(alloc, Stop::NoMemory, farm.into_store()),
    }
}

/// Serves the farm of a configuration until it is stopped. The files are read in order, each checked before the next is
/// read: the configuration, which names three addresses, the styles of its maps, each with its rasters, its restyles likewise, the
/// data, the updates, the expiry lists. Then the farm is begun, anew or where another one stopped in order, and its ports listen, for
/// renderd's messages, for HTTP and for control lines. Then its three fronts serve and its workers draw, each in a thread of its own, until the
/// farm is stopped. What is clean then is kept, if the configuration says so, and the line of the farm's counts is put on `out`.
///
/// Refused where a file is, or what is saved; Unreadable where a file is; StoreFailed where a get or put of what is saved failed;
/// PortsFailed where a port could not be listened on, or a front's ports broke; NoMemory where memory was wanting
/// before the threads were started, to a front as a whole, or in saving; TurnsUsedUp where all turns were drawn; SinkFailed where
/// the line could not be put. It may wait.
pub fn serve_config<
    R: Threads + Wait + Clock + Sync,
    F: Files,
    D: TileStore + Send,
    O: Sink,
    P: Ports + Send,
    B: Bell + Send + Sync,
    G: Stage + Sync,
>(
    rt: &R,
    alloc: Global,
    config: &str,
    files: &mut F,
    out: &mut O,
    store: D,
    ports: &mut ThreePorts<P, B>,
    gate: &G,
) -> Done<D>
    ensures { Runs D.state (serve_course config.now) (F.state files.old) (F.state files.new) store
        (over (O.state out.old) store (each_port P.state ports.old))
        (left_by (O.state out.new) result (each_port P.state ports.new))
        result.end }
{
    let served = match serve_files(alloc, files, config) {
        Ok(served) => served,
        Err(stop) => return stop_with(alloc, stop, store),
    };
    match make_ready(alloc, served, store, ports) {
        Ok(ready) => serve_ready(rt, alloc, ready, out, ports, gate),
        Err((store, stop)) => stop_with(alloc, stop, store),
    }
}
