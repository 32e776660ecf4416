//! The lines that ask one event of a farm and leave what is in hand alone.
ghost use Rattle.std.specs.Prelude.{◌≡◌, ◌<◌, ◌^◌, IfOk};
ghost use Rattle.plain_world.specs.World.{IsTile};
ghost use Rattle.farm_core.specs.Answers.{Lasts};
ghost use Rattle.script_lines.specs.declared.script.ScriptLine.TheVariants as line;
ghost use Rattle.script_text.specs.ScriptTexts.{conn_of, script_spot};
ghost use Rattle.script_text.specs.inner.Steps.{EntersFrom};

use crate::said::{LineAnswer, fetch_said, said};
use farm_base::{NoMemory, Text};
use farm_core::Farm;
use farm_plan::{Cmd, Conn, Spot};
use plain_world::Tile;
use script_answers::{
    ask_line, collect_line, expire_line, leave_line, look_line, renew_line, restyle_line,
    tally_line, update_line,
};
use std::alloc::Global;
use tile_store::TileStore;

fn conn_at(number: u32) -> Conn
    ensures { result ≡ conn_of number }
{
    Conn { front: 0, number }
}

fn spot_at<D>(farm: &Farm<D>, map: &Text, place: (u32, u32, u32)) -> Spot
    ensures { result ≡ script_spot farm.now.plan map.now place.0 place.1 place.2 }
{
    let map = farm.map_of(map.as_str().as_bytes());
    let (z, x, y) = place;
    Spot { map, z, x, y }
}

/// `ask C CMD MAP Z X Y`.
pub(crate) fn ask<D: TileStore>(
    alloc: Global,
    farm: &mut Farm<D>,
    number: u32,
    cmd: Cmd,
    map: &Text,
    place: (u32, u32, u32),
) -> Result<LineAnswer, NoMemory>
    requires { farm.old.counts.turns < 2 ^ 63 }
    ensures step { EntersFrom D.state farm.old farm.new
        (line.Ask number cmd map.now place.0 place.1 place.2) result }
    ensures kept { Lasts D.state farm.old farm.new }
{
    let spot = spot_at(farm, map, place);
    let answer = farm.ask(conn_at(number), cmd, spot);
    said(ask_line(alloc, answer))
}

/// `update N`.
pub(crate) fn update<D: TileStore>(
    alloc: Global,
    farm: &mut Farm<D>,
    number: u32,
) -> Result<LineAnswer, NoMemory>
    requires { farm.old.counts.turns < 2 ^ 63 }
    ensures step { EntersFrom D.state farm.old farm.new (line.Update number) result }
    ensures kept { Lasts D.state farm.old farm.new }
{
    let answer = farm.update(alloc, number);
    said(update_line(alloc, answer))
}

/// `restyle N`.
pub(crate) fn restyle<D: TileStore>(
    alloc: Global,
    farm: &mut Farm<D>,
    number: u32,
) -> Result<LineAnswer, NoMemory>
    requires { farm.old.counts.turns < 2 ^ 63 }
    ensures step { EntersFrom D.state farm.old farm.new (line.Restyle number) result }
    ensures kept { Lasts D.state farm.old farm.new }
{
    let answer = farm.restyle(number);
    said(restyle_line(alloc, answer))
}

/// `renew N`.
pub(crate) fn renew<D: TileStore>(
    alloc: Global,
    farm: &mut Farm<D>,
    number: u32,
) -> Result<LineAnswer, NoMemory>
    requires { farm.old.counts.turns < 2 ^ 63 }
    ensures step { EntersFrom D.state farm.old farm.new (line.Renew number) result }
    ensures kept { Lasts D.state farm.old farm.new }
{
    let answer = farm.renew(alloc, number);
    said(renew_line(alloc, answer))
}

/// `expire Z X Y`, of a tile.
pub(crate) fn expire<D: TileStore>(
    alloc: Global,
    farm: &mut Farm<D>,
    t: Tile,
) -> Result<LineAnswer, NoMemory>
    requires turns { farm.old.counts.turns < 2 ^ 63 }
    requires tile { IsTile t }
    ensures step { EntersFrom D.state farm.old farm.new (line.Expire t.z t.x t.y) result }
    ensures kept { Lasts D.state farm.old farm.new }
{
    let count = farm.expire(t);
    said(expire_line(alloc, count))
}

/// `fetch MAP Z X Y`.
pub(crate) fn fetch<D: TileStore>(
    alloc: Global,
    farm: &mut Farm<D>,
    map: &Text,
    place: (u32, u32, u32),
) -> Result<LineAnswer, NoMemory>
    requires { farm.old.counts.turns < 2 ^ 63 }
    ensures step { EntersFrom D.state farm.old farm.new
        (line.Fetch map.now place.0 place.1 place.2) result }
    ensures kept { Lasts D.state farm.old farm.new }
{
    let spot = spot_at(farm, map, place);
    let answer = farm.fetch(alloc, spot);
    fetch_said(alloc, answer)
}

/// `look MAP Z X Y`.
pub(crate) fn look<D: TileStore>(
    alloc: Global,
    farm: &mut Farm<D>,
    map: &Text,
    place: (u32, u32, u32),
) -> Result<LineAnswer, NoMemory>
    requires { farm.old.counts.turns < 2 ^ 63 }
    ensures step { EntersFrom D.state farm.old farm.new
        (line.Look map.now place.0 place.1 place.2) result }
    ensures kept { Lasts D.state farm.old farm.new }
{
    let spot = spot_at(farm, map, place);
    let answer = farm.look(spot);
    said(look_line(alloc, answer))
}

/// `collect F`.
pub(crate) fn collect<D: TileStore>(
    alloc: Global,
    farm: &mut Farm<D>,
    front: u32,
) -> Result<LineAnswer, NoMemory>
    requires { farm.old.counts.turns < 2 ^ 63 }
    ensures step { EntersFrom D.state farm.old farm.new (line.Collect front) result }
    ensures kept { Lasts D.state farm.old farm.new }
{
    let answer = farm.collect(front);
    said(collect_line(alloc, answer))
}

/// `leave C`.
pub(crate) fn leave<D: TileStore>(
    alloc: Global,
    farm: &mut Farm<D>,
    number: u32,
) -> Result<LineAnswer, NoMemory>
    requires { farm.old.counts.turns < 2 ^ 63 }
    ensures step { EntersFrom D.state farm.old farm.new (line.Leave number) result }
    ensures kept { Lasts D.state farm.old farm.new }
{
    let count = farm.leave(conn_at(number));
    said(leave_line(alloc, count))
}

/// `tally`.
pub(crate) fn tally<D: TileStore>(alloc: Global, farm: &mut Farm<D>) -> Result<LineAnswer, NoMemory>
    requires { farm.old.counts.turns < 2 ^ 63 }
    ensures step { EntersFrom D.state farm.old farm.new line.Tally result }
    ensures kept { Lasts D.state farm.old farm.new }
{
    let totals = farm.tally();
    said(tally_line(alloc, totals))
}

/// `stop`.
pub(crate) fn stop<D: TileStore>(alloc: Global, farm: &mut Farm<D>) -> Result<LineAnswer, NoMemory>
    requires { farm.old.counts.turns < 2 ^ 63 }
    ensures step { EntersFrom D.state farm.old farm.new line.Stop result }
    ensures kept { Lasts D.state farm.old farm.new }
{
    farm.stop();
    said(Text::of(alloc, "stopping\n"))
}
