//! The renderd front of a shared farm on real sockets, with its client in a thread of the same process, which stops the
//! farm through a seat of its own. A whole farm is asked so by `.ci/sockets.py`.
ghost use Rattle.std.specs.Prelude.{◌≡◌, []};
ghost use Rattle.turn_cell.specs.SeatStates.{IsSeatOf, Knows};

use crate::one_seat::share;
use crate::plans::inputs;
use farm_base::Bell;
use farm_core::Claimed;
use farm_files::ScriptInputs;
use farm_history::{AskAnswer, Cmd, Conn, Finished, Spot};
use farm_shared::{Alarms, Seat, SharedFarm, cross};
use reactor_ports::{FrontDone, FrontEnd, Ports, SocketPorts, ThreePorts};
use render_workers::draw;
use std::alloc::Global;
use std::io::{self, Read, Write};
use std::net::{Net, TcpListener, TcpStream};
use std::rt::Files;
use std::sync::Wait;
use std::thread::{Threads, join_mut};
use std::time::Duration;
use tile_store::{MemStore, TileStore};

/// Version 2, command 1, x 0, y 1, z 1, of the map `default`.
const RENDER: [u8; 64] = [
    2, 0, 0, 0, 1, 0, 0, 0, 0, 0, 0, 0, 1, 0, 0, 0, 1, 0, 0, 0, 100, 101, 102, 97, 117, 108, 116,
    0, 0, 0, 0, 0, 0, 0, 0, 0, 0, 0, 0, 0, 0, 0, 0, 0, 0, 0, 0, 0, 0, 0, 0, 0, 0, 0, 0, 0, 0, 0, 0,
    0, 0, 0, 0, 0,
];

/// The same with command 3, which says that it is drawn.
const DONE: [u8; 64] = [
    2, 0, 0, 0, 3, 0, 0, 0, 0, 0, 0, 0, 1, 0, 0, 0, 1, 0, 0, 0, 100, 101, 102, 97, 117, 108, 116,
    0, 0, 0, 0, 0, 0, 0, 0, 0, 0, 0, 0, 0, 0, 0, 0, 0, 0, 0, 0, 0, 0, 0, 0, 0, 0, 0, 0, 0, 0, 0, 0,
    0, 0, 0, 0, 0,
];

/// The tile that the message names.
const ASKED: Spot = Spot {
    map: Some(0),
    z: 1,
    x: 0,
    y: 1,
};

/// How many seconds the client waits for the answer.
const PATIENCE: u64 = 20;

// Draws the tile that the message names, through the seat of the tile front: whether it is queued first, and stored.
fn draw_asked<R: Wait, D: TileStore>(
    rt: &R,
    farm: &SharedFarm<D>,
    seat: &mut Seat<D>,
    alloc: Global,
) -> bool
    requires { IsSeatOf farm.now seat.old × (seat.old.number ≡ 2) }
    ensures { IsSeatOf farm.now seat.new × (seat.new.number ≡ 2) }
{
    let conn = Conn {
        front: 1,
        number: 0,
    };
    let asked = farm.ask(rt, seat, conn, Cmd::Render, ASKED);
    let Ok(Claimed::Job(job)) = farm.claim(rt, seat, 0) else {
        return false;
    };
    let drawn = draw(alloc, &job);
    let finished = farm.finish(rt, seat, alloc, job, drawn);
    matches!(asked, Ok(AskAnswer::Queued(0))) && matches!(finished, Ok(Finished::Stored(true)))
}

// Whether the answer to the message, sent over loopback, is the Done of it.
fn is_done<R: Net<Stream = TcpStream>>(rt: &R, alloc: Global, port: u16) -> io::Result<bool> {
    let place = format!(in alloc; "127.0.0.1:{port}")?;
    let mut stream = TcpStream::connect(rt, place.as_str())?;
    stream.set_read_timeout(Some(Duration::from_secs(PATIENCE)))?;
    stream.write_all(&RENDER)?;
    let mut answer = [0u8; 64];
    stream.read_exact(&mut answer)?;
    Ok(answer == DONE)
}

// Asks for the tile, and stops the farm: whether each was answered.
fn visit<R: Net<Stream = TcpStream> + Wait, B: Bell, D: TileStore>(
    rt: &R,
    alloc: Global,
    port: u16,
    bell: &B,
    farm: &SharedFarm<D>,
    seat: &mut Seat<D>,
) -> [bool; 2]
    requires { IsSeatOf farm.now seat.old }
    ensures { IsSeatOf farm.now seat.new }
{
    let is_answered = is_done(rt, alloc, port).unwrap_or(false);
    let stopped = farm.stop(rt, seat);
    bell.ring();
    [is_answered, stopped.is_ok()]
}

// Has the ports listen at a port of loopback that nobody has, and gives its number.
fn listen<R, P: Ports>(rt: &R, alloc: Global, ports: &mut P) -> Option<u16>
where
    R: Net<Listener = TcpListener, Stream = TcpStream>,
{
    let held = TcpListener::bind(rt, "127.0.0.1:0").ok()?;
    let port = held.local_addr().ok()?.port();
    drop(held);
    let place = format!(in alloc; "tcp:127.0.0.1:{port}").ok()?;
    ports.listen(place.as_str()).ok()?;
    Some(port)
}

// The front serves through its seat while the client asks in another thread: what came out for the client, and whether
// the front ended since the farm was stopped.
fn meet<R, P: Ports, B: Bell + Sync>(
    rt: &R,
    alloc: Global,
    farm: &SharedFarm<MemStore>,
    front: &mut Seat<MemStore>,
    client: &mut Seat<MemStore>,
    ports: &mut P,
    alarms: &Alarms<'_, B>,
) -> Option<[bool; 3]>
where
    R: Threads + Wait + Sync + Net<Listener = TcpListener, Stream = TcpStream>,
    requires front { IsSeatOf farm.now front.old × Knows front.old × (front.old.number ≡ 1)
        × (front.old.mine ≡ []) }
    requires client { IsSeatOf farm.now client.old }
{
    let port = listen(rt, alloc, ports)?;
    let bell = &alarms.bells.renderd;
    cross::<MemStore>();
    let (asked, done) = join_mut(
        rt,
        &mut || -> [bool; 2]
            requires { IsSeatOf farm.now client.now }
        { visit(rt, alloc, port, bell, farm, client) },
        &mut || -> FrontDone
            requires { IsSeatOf farm.now front.now × Knows front.now × (front.now.number ≡ 1)
                × (front.now.mine ≡ []) }
        { session_front::serve(rt, alloc, 0, farm, front, ports, alarms) },
    );
    let [is_answered, is_stopped] = asked;
    let has_ended = matches!(done.end, FrontEnd::Stopped);
    Some([is_answered, is_stopped, has_ended])
}

fn meet_on_sockets<R>(
    rt: R,
    alloc: Global,
    farm: &SharedFarm<MemStore>,
    front: &mut Seat<MemStore>,
    client: &mut Seat<MemStore>,
) -> Option<[bool; 3]>
where
    R: Threads + Wait + Sync + Copy + Drop + Files,
    R: Net<Listener = TcpListener, Stream = TcpStream>,
    requires front { IsSeatOf farm.now front.old × Knows front.old × (front.old.number ≡ 1)
        × (front.old.mine ≡ []) }
    requires client { IsSeatOf farm.now client.old }
{
    let Ok(three) = SocketPorts::three(alloc, rt) else {
        return None;
    };
    let ThreePorts {
        renderd,
        tiles,
        control,
        bells,
    } = three;
    drop(tiles);
    drop(control);
    let mut ports = renderd;
    let alarms = Alarms {
        workers: &[],
        bells: &bells,
    };
    let met = meet(&rt, alloc, farm, front, client, &mut ports, &alarms);
    drop(ports);
    drop(bells);
    met
}

/// A tile that is drawn is asked for over loopback: whether it was drawn, the client was told that it is, the farm took the
/// stop, and the front ended by it.
pub fn a_client_over_loopback<R>(rt: R, alloc: Global) -> Option<[bool; 4]>
where
    R: Threads + Wait + Sync + Copy + Drop + Files,
    R: Net<Listener = TcpListener, Stream = TcpStream>,
{
    let Some(ScriptInputs { inputs, script }) = inputs(alloc) else {
        return None;
    };
    drop(script);
    let Some((farm, first)) = share(alloc, inputs.plan) else {
        return None;
    };
    let mut first = first;
    let mut front = farm.split(&mut first).unwrap();
    let mut client = farm.split(&mut first).unwrap();
    let is_drawn = draw_asked(&rt, &farm, &mut client, alloc);
    let met = meet_on_sockets(rt, alloc, &farm, &mut front, &mut client);
    drop(client);
    drop(front);
    drop(first);
    drop(farm);
    let [is_answered, is_stopped, has_ended] = met?;
    Some([is_drawn, is_answered, is_stopped, has_ended])
}
