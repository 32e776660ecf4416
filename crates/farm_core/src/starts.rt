//! How a farm begins.
ghost use Rattle.std.specs.Prelude.{◌≡◌, ◌≤◌, replicate, None, IfErr, IfOk};
ghost use Rattle.std.specs.Vec.{vec_capacity};
ghost use Rattle.farm_plan.specs.Plans.{AreRanged, IsPlan};
ghost use Rattle.farm_refinement.specs.inner.Events.{no_counts};
ghost use Rattle.farm_core.specs.Begins.{Begins};
ghost use Rattle.farm_core.specs.inner.Starts.{AreFirst, AreParts, IsStarted};

use crate::farm::Farm;
use expiry_lists::Marks;
use farm_base::NoMemory;
use farm_plan::{FarmPlan, Limits};
use farm_refinement::Counts;
use render_jobs::{Share, Taken, know_plan, make_shares};
use render_queues::Queues;
use std::alloc::Global;
use std::snapshot::Snapshot as Seen;
use tile_store::TileStore;

/// The tables of a farm that begins: no map has been given a style, nothing is drawn, and nothing waits.
#[derive(Drop)]
struct Tables {
    styled: Vec<Option<u32>>,
    taken: Vec<Taken>,
    queues: Queues,
}

/// What a farm that begins has beside its store.
#[derive(Drop)]
struct Parts {
    own: Share,
    spares: Vec<Share>,
    tables: Tables,
}

#[tactic(auto, using(render_jobs::proofs::Replicas::replicate_push))]
fn no_styles(alloc: Global, count: usize) -> Result<Vec<Option<u32>>, NoMemory>
    ensures { IfOk result (λ v. v.items ≡ replicate count None) }
{
    let mut styled = Vec::with_capacity(alloc, count)?;
    for _map in 0..count {
        styled.push_reserved(None);
    }
    Ok(styled)
}

// The tables of a farm of so many maps and workers, with all the room that its limits and workers need.
fn first_tables(
    alloc: Global,
    maps: usize,
    limits: Limits,
    workers: u32,
) -> Result<Tables, NoMemory>
    ensures { IfOk result
        (λ t. AreFirst maps limits workers t.styled.items t.taken.items t.queues
        (vec_capacity t.taken)) }
{
    let styled = no_styles(alloc, maps)?;
    let taken = Vec::with_capacity(alloc, workers as usize)?;
    let queues = Queues::with_limits(alloc, limits, workers)?;
    Ok(Tables {
        styled,
        taken,
        queues,
    })
}

fn first_shares(alloc: Global, plan: FarmPlan) -> Result<(Share, Vec<Share>), NoMemory>
    ensures own { IfOk result (λ s. s.0 ≡ record { plan = plan; data_now = plan.dataset }) }
    ensures alike { IfOk result (λ s. s.1.items ≡ replicate plan.workers s.0) }
    ensures fit { IfOk result (λ s. plan.workers ≤ vec_capacity s.1) }
{
    let own = Share::first(alloc, plan)?;
    let spares = make_shares(alloc, &own, own.setup().workers())?;
    Ok((own, spares))
}

fn first_parts(alloc: Global, plan: FarmPlan) -> Result<Parts, NoMemory>
    ensures { IfOk result
        (λ p. AreParts plan p.own p.spares.items (vec_capacity p.spares) p.tables.styled.items
        p.tables.taken.items p.tables.queues (vec_capacity p.tables.taken)) }
{
    let (maps, limits, workers) = (plan.maps.len(), plan.limits, plan.workers);
    match first_shares(alloc, plan) {
        Ok((own, spares)) => match first_tables(alloc, maps, limits, workers) {
            Ok(tables) => Ok(Parts {
                own,
                spares,
                tables,
            }),
            Err(fault) => Err(fault),
        },
        Err(fault) => Err(fault),
    }
}

fn no_counts() -> Counts
    ensures { result ≡ no_counts }
{
    Counts {
        turns: 0,
        stopped: false,
        version: 0,
        numbers: 0,
        jobs: 0,
        asks: 0,
        done: 0,
        stored: 0,
    }
}

fn begin<D>(alloc: Global, parts: Parts, store: D) -> Farm<D>
    requires plan { IsPlan parts.own.plan }
    requires parts { AreParts parts.own.plan parts.own parts.spares.items
        (vec_capacity parts.spares) parts.tables.styled.items parts.tables.taken.items
        parts.tables.queues (vec_capacity parts.tables.taken) }
    ensures { IsStarted parts.own.plan store result }
{
    let Parts {
        own,
        spares,
        tables,
    } = parts;
    let Tables {
        styled,
        taken,
        queues,
    } = tables;
    let first = Seen::of(&store);
    Farm {
        own,
        spares,
        saved: None,
        first,
        store,
        changes: Vec::new(alloc),
        styled,
        taken,
        queues,
        marks: Marks::new(alloc),
        counts: no_counts(),
    }
}

/// A farm of the plan over the store, in which nothing has happened yet. Err is want of memory, and hands the
/// store back.
pub(crate) fn first_farm<D>(alloc: Global, plan: FarmPlan, store: D) -> Result<Farm<D>, D>
    requires { IsPlan plan }
    ensures started { IfOk result (IsStarted plan store) }
    ensures store { IfErr result (λ s. s ≡ store) }
{
    match first_parts(alloc, plan) {
        Ok(parts) => Ok(begin(alloc, parts, store)),
        Err(_) => Err(store),
    }
}

impl<D: TileStore> Farm<D> {
    /// A farm of the plan over the store, in which nothing has happened yet. It takes all the memory that later
    /// calls need which take none, and keeps the plan for good. Err is want of memory, and hands the store back.
    pub fn start(alloc: Global, plan: FarmPlan, store: D) -> Result<Farm<D>, D>
        requires { IsPlan plan }
        ensures begins { IfOk result (Begins D.state plan None store) }
        ensures ranged { AreRanged plan }
        ensures store { IfErr result (λ s. s ≡ store) }
    {
        know_plan(&plan);
        first_farm(alloc, plan, store)
    }
}
