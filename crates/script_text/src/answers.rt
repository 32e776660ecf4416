//! One line of a script.
ghost use Rattle.std.specs.Prelude.{◌≡◌, ◌<◌, ◌^◌, Bool, List};
ghost use Rattle.farm_history.specs.Entries.{Entry};
ghost use Rattle.farm_refinement.specs.Stands.{StandsFor};
ghost use Rattle.farm_core.specs.Answers.{Lasts};
ghost use Rattle.script_lines.specs.declared.script.ScriptLine.TheVariants as line;
ghost use Rattle.script_text.specs.inner.Hands.{HandStands};
ghost use Rattle.script_text.specs.inner.Steps.{Answers};

use crate::events::{
    ask, collect, expire, fetch, leave, look, renew, restyle, stop, tally, update,
};
use crate::hands::{claim, cut, finish};
use crate::said::{LineAnswer, said};
use farm_base::{NoMemory, Text};
use farm_core::{Farm, Job};
use merc_fixed::tile;
use script_lines::ScriptLine;
use std::alloc::Global;
use tile_store::TileStore;

fn expire_at<D: TileStore>(
    alloc: Global,
    farm: &mut Farm<D>,
    hand: &mut Vec<Job>,
    place: (u32, u32, u32),
) -> Result<LineAnswer, NoMemory>
    requires { farm.old.counts.turns < 2 ^ 63 }
    ensures step { (store_tells : Bool) (g : List Entry) → StandsFor D.state store_tells farm.old g
        → HandStands farm.old.plan g hand.old.items
        → Answers D.state store_tells farm.new farm.old.plan (line.Expire place.0 place.1 place.2)
        g hand.old.items hand.new.items result }
    ensures kept { Lasts D.state farm.old farm.new }
{
    let (z, x, y) = place;
    match tile(z, x, y) {
        Some(t) => expire(alloc, farm, t),
        None => said(Text::of(alloc, "unservable\n")),
    }
}

/// Answers a line: its event, if it has one, is asked of the farm.
pub(crate) fn answer<D: TileStore>(
    alloc: Global,
    farm: &mut Farm<D>,
    hand: &mut Vec<Job>,
    l: &ScriptLine,
) -> Result<LineAnswer, NoMemory>
    requires turns { farm.old.counts.turns < 2 ^ 63 }
    requires stands { (store_tells : Bool) × (g : List Entry)
        × StandsFor D.state store_tells farm.old g × HandStands farm.old.plan g hand.old.items }
    ensures step { (store_tells : Bool) (g : List Entry) → StandsFor D.state store_tells farm.old g
        → HandStands farm.old.plan g hand.old.items
        → Answers D.state store_tells farm.new farm.old.plan l.now g
        hand.old.items hand.new.items result }
    ensures kept { Lasts D.state farm.old farm.new }
{
    match l {
        ScriptLine::Ask(c, cmd, map, z, x, y) => ask(alloc, farm, *c, *cmd, map, (*z, *x, *y)),
        ScriptLine::Claim(worker) => claim(alloc, farm, hand, *worker),
        ScriptLine::Finish(ticket) => finish(alloc, farm, hand, *ticket),
        ScriptLine::Cut(ticket) => cut(alloc, farm, hand, *ticket),
        ScriptLine::Update(n) => update(alloc, farm, *n),
        ScriptLine::Expire(z, x, y) => expire_at(alloc, farm, hand, (*z, *x, *y)),
        ScriptLine::Fetch(map, z, x, y) => fetch(alloc, farm, map, (*z, *x, *y)),
        ScriptLine::Look(map, z, x, y) => look(alloc, farm, map, (*z, *x, *y)),
        ScriptLine::Collect(front) => collect(alloc, farm, *front),
        ScriptLine::Leave(c) => leave(alloc, farm, *c),
        ScriptLine::Tally => tally(alloc, farm),
        ScriptLine::Stop => stop(alloc, farm),
        ScriptLine::Restyle(n) => restyle(alloc, farm, *n),
        ScriptLine::Renew(n) => renew(alloc, farm, *n),
    }
}
