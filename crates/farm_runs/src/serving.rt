//! A front in a thread of a run.
ghost use Rattle.std.specs.Prelude.{ℕ, List, Option, Bool};
ghost use Rattle.farm_base.specs.Outside.{Outside};
ghost use Rattle.farm_history.specs.Entries.{Entry};
ghost use Rattle.reactor_ports.specs.declared.ends.FrontDone.{FrontDone};
ghost use Rattle.reactor_ports.specs.Told.{PortsTold};
ghost use Rattle.farm_runs.specs.Actors.{HasServed, IsFrontSeat};
ghost use Rattle.farm_shared.specs.Shared.{maps_of};

use crate::each_front::RunStart;
use crate::fronts::turn_away;
use farm_base::{Bell, Bells};
use farm_shared::{Alarms, Seat, SharedFarm};
use front_loop::{Context, FarmAdapter, Front, serve_shared};
use reactor_ports::{FrontDone, Ports};
use std::rt::Clock;
use std::sync::Wait;
use tile_store::TileStore;

/// A front, as a thread of a run serves it. A `Front` has types of its own, which would stand in each
/// fact of what crosses threads, and of those the check takes only so many; here are none.
pub trait FrontServing {
    /// Its number, at a farm that has the maps of these names.
    ghost number: { Self → (List ℕ → Option ℕ) → ℕ };

    /// What it leaves there.
    ghost leaves: { Self → (List ℕ → Option ℕ) → Outside PortsTold → Outside PortsTold
        → List Entry → FrontDone → Bool → Type 0 };

    /// Serves the connections of the ports until the front ends, where all actors have begun. When it
    /// has ended all are woken.
    fn serve_front<'a, R: Wait + Clock, D: TileStore, P: Ports, B: Bell>(
        &'a self,
        rt: &'a R,
        start: &'a RunStart,
        farm: &'a SharedFarm<D>,
        seat: &mut Seat<D>,
        ports: &mut P,
        bells: &'a Bells<B>,
    ) -> FrontDone
        requires { IsFrontSeat farm.now (number self.now (maps_of farm.now)) seat.old }
        ensures { HasServed farm.now (leaves self.now (maps_of farm.now)) seat.old seat.new
            (P.state ports.old) (P.state ports.new) result };
}

/// Any front, by its rules.
#[derive(Drop)]
pub struct Threaded<F> {
    pub front: F,
}

impl<F: Front> FrontServing for Threaded<F> {
    ghost use Rattle.farm_runs.specs.Actors.{leaving, number_in};

    ghost number = { λ threaded maps. number_in F.rules threaded.front maps };

    ghost leaves = { λ threaded maps. leaving F.rules threaded.front maps };

    #[tactic(auto, using(front_loop::proofs::Leaves::unbegun))]
    fn serve_front<'a, R: Wait + Clock, D: TileStore, P: Ports, B: Bell>(
        &'a self,
        rt: &'a R,
        start: &'a RunStart,
        farm: &'a SharedFarm<D>,
        seat: &mut Seat<D>,
        ports: &mut P,
        bells: &'a Bells<B>,
    ) -> FrontDone {
        let alarms = Alarms {
            workers: start.barrier.sleepers.as_slice(),
            bells,
        };
        let done = if start.barrier.begin(rt) {
            let adapter = FarmAdapter {
                farm,
                alarms: &alarms,
            };
            let work = Context {
                rt,
                alloc: start.alloc,
                front: &self.front,
                farm: &adapter,
            };
            serve_shared(&work, seat, ports)
        } else {
            turn_away(rt, start.alloc, farm, seat)
        };
        alarms.ring_all();
        done
    }
}
