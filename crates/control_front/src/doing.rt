//! What is done at a line.
ghost use Rattle.std.specs.Prelude.{◌≡◌, ◌∷◌, [], ℕ, List, All, true, OnErr, IfSome, option_copied, slice_get};
ghost use Rattle.plain_world.specs.World.{IsTile};
ghost use Rattle.plain_world.specs.declared.world.Tile.{Tile};
ghost use Rattle.farm_history.specs.Entries.{Entry};
ghost use Rattle.front_loop.specs.Calls.{SameSeat};
ghost use Rattle.front_loop.specs.declared.dispositions.Disposition.TheVariants as disposition;
ghost use Rattle.front_loop.specs.declared.dispositions.Reason.TheVariants as reason;
ghost use Rattle.control_front.specs.inner.Doing.{Did, DidLine};
ghost use Rattle.control_front.specs.declared.acts.Line.TheVariants as line_is;

use crate::acts::Line;
use crate::answers::{say, say_expired, say_renew, say_restyle, say_tally, say_update};
use crate::control::Control;
use crate::expiring::expire_all;
use expiry_lists::TileList;
use farm_base::Worn;
use farm_shared::{Count, Renew, Restyle, Stop, Update};
use front_loop::{Context, Disposition, Farm};
use plain_world::Tile;
use std::sync::Wait;

fn list_at(lists: &[TileList], number: u32) -> Option<&[Tile]>
    ensures value { option_copied result ≡ slice_get lists.entry.now number }
    ensures tiles { IfSome result (λ tiles. All IsTile tiles.now) }
{
    match lists.get(number as usize) {
        Some(list) => Some(list.tiles.as_slice()),
        None => None,
    }
}

fn do_expire<R: Wait, M: Farm>(
    context: &Context<'_, R, M, Control<'_>>,
    seat: &mut M::Seat,
    number: u32,
    response: &mut Vec<u8>,
) -> Result<Disposition, Worn>
    requires { (M.seats context.now.farm.now).is_seat seat.old }
    ensures seat { SameSeat (M.seats context.now.farm.now) seat.old seat.new }
    ensures worn { OnErr result ((M.seats context.now.farm.now).worn seat.new ≡ true) }
    ensures did { DidLine (M.seats context.now.farm.now) context.now.front.now.lists.now
        (line_is.Expire number) seat.old seat.new response.old.items response.new.items result }
{
    let Some(tiles) = list_at(context.front.lists, number) else {
        return Ok(say(response, "no list\n"));
    };
    let Ok(total) = expire_all(context.rt, context.farm, seat, tiles) else {
        return Err(Worn);
    };
    Ok(say_expired(context.alloc, total, response))
}

/// A line that is none.
pub fn do_bad(response: &mut Vec<u8>) -> Disposition
    ensures did { (front : ℕ) (lists : List (List Tile)) (c : ℕ) (mine : List Entry)
        → Did front lists c (line_is.Bad ∷ []) mine mine response.old.items response.new.items
        result }
    ensures lacks { result ≡ disposition.Leaves reason.Starved
        → response.new.items ≡ response.old.items }
{
    say(response, "bad line\n")
}

/// Does what a line asks for, and says the answer.
pub fn do_line<R: Wait, M: Farm>(
    context: &Context<'_, R, M, Control<'_>>,
    seat: &mut M::Seat,
    line: Line,
    response: &mut Vec<u8>,
) -> Result<Disposition, Worn>
    requires { (M.seats context.now.farm.now).is_seat seat.old }
    ensures seat { SameSeat (M.seats context.now.farm.now) seat.old seat.new }
    ensures worn { OnErr result ((M.seats context.now.farm.now).worn seat.new ≡ true) }
    ensures did { DidLine (M.seats context.now.farm.now) context.now.front.now.lists.now line
        seat.old seat.new response.old.items response.new.items result }
{
    let alloc = context.alloc;
    match line {
        Line::Update(number) => {
            let Ok(answer) = context
                .farm
                .turn(context.rt, seat, Update { alloc, number })
            else {
                return Err(Worn);
            };
            Ok(say_update(alloc, answer, response))
        }
        Line::Restyle(number) => {
            let Ok(answer) = context.farm.turn(context.rt, seat, Restyle { number }) else {
                return Err(Worn);
            };
            Ok(say_restyle(alloc, answer, response))
        }
        Line::Renew(number) => {
            let Ok(answer) = context.farm.turn(context.rt, seat, Renew { alloc, number }) else {
                return Err(Worn);
            };
            Ok(say_renew(alloc, answer, response))
        }
        Line::Expire(number) => do_expire(context, seat, number, response),
        Line::Stats => {
            let Ok(totals) = context.farm.turn(context.rt, seat, Count) else {
                return Err(Worn);
            };
            Ok(say_tally(alloc, totals, response))
        }
        Line::Stop => {
            let Ok(()) = context.farm.turn(context.rt, seat, Stop) else {
                return Err(Worn);
            };
            Ok(say(response, "stopping\n"))
        }
        Line::Bad => Ok(do_bad(response)),
    }
}
