//! Cases, run. What is large is dropped by a call of its own, so that no way out of a function drops it in line.
ghost use Rattle.std.specs.Prelude.{◌≡◌, true, [], IfSome};
ghost use Rattle.reactor_ports.specs.Scripts.{is_valid};

use crate::beside::CaseFiles;
use crate::cases::{Case, Side};
use crate::gates::HoldGate;
use crate::tells::{Ended, tell};
use case_texts::run_texts;
use farm_base::{Bytes, Files, MemSink, NoBell, Sink, Text};
use farm_call::{FarmEnd, Left, farm_main};
use noted_puts::Noted;
use reactor_ports::{MemPorts, PortStep, ThreePorts, are_valid};
use std::alloc::Global;
use std::mem::replace;
use std::rt::Clock;
use std::sync::Wait;
use std::thread::Threads;
use tile_store::MemStore;

/// How often an Await answers Woken at most: more often than it takes to draw all tiles of a case.
const TURNS: u64 = 400_000;

/// How many bytes a case may put on out: more than the largest tile.
const ROOM: u32 = 300_000;

/// What cases are played with: the runtime, the files beside them, and the sink on which is told how they end.
#[derive(Drop)]
pub struct Player<'a, R, F, O> {
    pub rt: &'a R,
    pub alloc: Global,
    pub files: CaseFiles<F>,
    pub out: Noted<O>,
}

/// What a call puts its answer and its line on.
#[derive(Drop)]
pub struct Sinks {
    pub put: MemSink,
    pub err: MemSink,
}

/// Runs all cases over these files. None where they cannot be read, a put on out fails, or memory runs out.
pub fn run_all<R: Threads + Wait + Clock + Sync, F: Files + Drop, O: Sink + Drop>(
    rt: &R,
    alloc: Global,
    files: F,
    out: O,
) -> Option<()> {
    let mut player = Player {
        rt,
        alloc,
        files: CaseFiles::new(alloc, files),
        out: Noted::new(out),
    };
    let ran = player.run_lists();
    drop(player);
    ran
}

impl<'a, R: Threads + Wait + Clock + Sync, F: Files, O: Sink> Player<'a, R, F, O> {
    fn run_lists(&mut self) -> Option<()> {
        run_texts(self.alloc, "texts", &mut self.files, &mut self.out)?;
        self.run_serves("serves")?;
        self.run_cases("scripts")?;
        self.run_cases("drawings")?;
        if self.out.took_all() { Some(()) } else { None }
    }

    /// Runs the case and tells how it ended. None where its steps are in no order, or memory runs out.
    pub(crate) fn play(&mut self, case: &mut Case) -> Option<()> {
        let mut ports = three(self.alloc, case)?;
        spoil(&mut ports.renderd, self.alloc, &mut case.renderd);
        spoil(&mut ports.tiles, self.alloc, &mut case.tiles);
        spoil(&mut ports.control, self.alloc, &mut case.control);
        let played = self.play_over(case, &mut ports);
        drop(ports);
        played
    }

    fn play_over(
        &mut self,
        case: &mut Case,
        ports: &mut ThreePorts<MemPorts, NoBell>,
    ) -> Option<()> {
        let mut sinks = sinks_of(self.alloc, case)?;
        let Some(store) = store_of(self.alloc, case) else {
            drop(sinks);
            return None;
        };
        let mut ended = self.call(case, ports, &mut sinks, store);
        tell(self.alloc, case, &mut ended, &sinks, ports, &mut self.out);
        drop(ended);
        drop(sinks);
        Some(())
    }

    // The call itself.
    fn call(
        &mut self,
        case: &mut Case,
        ports: &mut ThreePorts<MemPorts, NoBell>,
        sinks: &mut Sinks,
        store: MemStore,
    ) -> Ended {
        let gate = HoldGate::new(self.rt, replace(&mut case.holds, Vec::new(self.alloc)));
        self.files.fail(taken(self.alloc, &mut case.reads));
        let FarmEnd {
            status,
            left,
            fronts,
        } = farm_main(
            self.rt,
            self.alloc,
            case.words.as_slice(),
            &mut self.files,
            &mut sinks.put,
            &mut sinks.err,
            store,
            ports,
            &gate,
        );
        self.files.fail(Vec::new(self.alloc));
        let is_late = gate.is_late();
        let is_unheld = gate.is_unheld();
        drop(gate);
        let (left, store) = what_is_left(left);
        Ended {
            status,
            is_late,
            is_unheld,
            left,
            fronts,
            store,
        }
    }
}

fn what_is_left(left: Left<MemStore>) -> (&'static str, MemStore) {
    match left {
        Left::Store(store) => ("store", store),
        Left::Farm(farm) => ("farm", farm.into_store()),
    }
}

fn taken(alloc: Global, numbers: &mut Vec<u64>) -> Vec<u64> {
    replace(numbers, Vec::new(alloc))
}

fn sinks_of(alloc: Global, case: &mut Case) -> Option<Sinks> {
    let outs = taken(alloc, &mut case.outs);
    let errs = taken(alloc, &mut case.errs);
    let put = MemSink::new(alloc, ROOM, outs).ok()?;
    let err = MemSink::new(alloc, 1_000, errs).ok()?;
    Some(Sinks { put, err })
}

fn saved_of(alloc: Global, case: &mut Case) -> Option<Vec<(Text, Bytes)>> {
    let mut held = Vec::new(alloc);
    if let Some(bytes) = case.saved.take() {
        let path = Text::of(alloc, "farm.saved").ok()?;
        held.push((path, bytes)).ok()?;
    }
    Some(held)
}

fn store_of(alloc: Global, case: &mut Case) -> Option<MemStore> {
    let held = saved_of(alloc, case)?;
    let puts = taken(alloc, &mut case.puts);
    let gets = taken(alloc, &mut case.gets);
    MemStore::new(alloc, held, puts, gets).ok()
}

fn steps_of(alloc: Global, side: &mut Side) -> Option<Vec<PortStep>>
    ensures { IfSome result (λ steps. is_valid [] steps.items ≡ true) }
{
    if are_valid(alloc, side.steps.as_slice()).ok()? {
        Some(replace(&mut side.steps, Vec::new(alloc)))
    } else {
        None
    }
}

fn three(alloc: Global, case: &mut Case) -> Option<ThreePorts<MemPorts, NoBell>> {
    let renderd = steps_of(alloc, &mut case.renderd)?;
    let tiles = steps_of(alloc, &mut case.tiles)?;
    let control = steps_of(alloc, &mut case.control)?;
    MemPorts::three(alloc, renderd, tiles, control, case.take, TURNS).ok()
}

fn spoil(ports: &mut MemPorts, alloc: Global, side: &mut Side) {
    ports.fail(taken(alloc, &mut side.fails));
    if side.deaf {
        ports.deaf();
    }
}
