//! Bytes are read, and the lines that become whole by them are done.
ghost use Rattle.std.specs.Prelude.{◌≡◌, ◌∷◌, [], ℕ, List, true, OnErr, length, nat_lt};
ghost use Rattle.farm_base.specs.Limits.{most_control_bytes};
ghost use Rattle.front_loop.specs.Calls.{SameSeat};
ghost use Rattle.front_loop.specs.declared.dispositions.Disposition.TheVariants as disposition;
ghost use Rattle.front_loop.specs.declared.dispositions.Reason.TheVariants as reason;
ghost use Rattle.plain_world.specs.declared.world.Tile.{Tile};
ghost use Rattle.farm_history.specs.Entries.{Entry};
ghost use Rattle.control_front.specs.declared.acts.Line.TheVariants as line_is;
ghost use Rattle.control_front.specs.inner.Doing.{Did, LongWhy, Says, as_done, HeedsBytes};

use crate::control::Control;
use crate::doing::{do_bad, do_line};
use crate::lines::line_in;
use farm_base::{MOST_CONTROL_BYTES, Worn};
use front_loop::{Context, Disposition, Farm, Reason};
use std::sync::Wait;

/// What is kept of a session: the part of the line that has not ended.
#[derive(Drop)]
pub struct ConnState {
    pub part: Vec<u8>,
}

fn too_long(response: &mut Vec<u8>) -> Disposition
    ensures did { (front : ℕ) (lists : List (List Tile)) (c : ℕ) (mine : List Entry)
        → Did front lists c (line_is.Bad ∷ []) mine mine response.old.items response.new.items
        (as_done result) }
    ensures long { LongWhy true result }
    ensures lacks { result ≡ disposition.Leaves reason.Starved
        → response.new.items ≡ response.old.items }
{
    match do_bad(response) {
        Disposition::Stays => Disposition::Leaves(Reason::Unread),
        Disposition::Leaves(why) => Disposition::Leaves(why),
    }
}

fn is_short(part: &Vec<u8>) -> bool
    ensures { result ≡ nat_lt (length part.now.items) most_control_bytes }
{
    part.as_slice().len() < MOST_CONTROL_BYTES
}

fn keep(part: &mut Vec<u8>, byte: u8) -> Disposition
    ensures { Says (byte ∷ []) part.old.items part.new.items result }
{
    match part.push(byte) {
        Ok(()) => Disposition::Stays,
        Err(_) => Disposition::Leaves(Reason::Starved),
    }
}

fn take_byte<R: Wait, M: Farm>(
    context: &Context<'_, R, M, Control<'_>>,
    seat: &mut M::Seat,
    part: &mut Vec<u8>,
    byte: u8,
    response: &mut Vec<u8>,
) -> Result<Disposition, Worn>
    requires { (M.seats context.now.farm.now).is_seat seat.old }
    ensures seat { SameSeat (M.seats context.now.farm.now) seat.old seat.new }
    ensures worn { OnErr result ((M.seats context.now.farm.now).worn seat.new ≡ true) }
    ensures heeds { HeedsBytes (M.seats context.now.farm.now) context.now.front.now.lists.now
        part.old.items (byte ∷ []) seat.old seat.new part.new.items response.old.items
        response.new.items result }
{
    if byte == b'\n' {
        let line = line_in(part.as_slice());
        part.clear();
        return do_line(context, seat, line, response);
    }
    if is_short(part) {
        return Ok(keep(part, byte));
    }
    Ok(too_long(response))
}

/// A piece of bytes behind a part of a line.
pub fn hear_piece<R: Wait, M: Farm>(
    context: &Context<'_, R, M, Control<'_>>,
    seat: &mut M::Seat,
    part: &mut Vec<u8>,
    piece: &[u8],
    response: &mut Vec<u8>,
) -> Result<Disposition, Worn>
    requires { (M.seats context.now.farm.now).is_seat seat.old }
    ensures seat { SameSeat (M.seats context.now.farm.now) seat.old seat.new }
    ensures worn { OnErr result ((M.seats context.now.farm.now).worn seat.new ≡ true) }
    ensures heeds { HeedsBytes (M.seats context.now.farm.now) context.now.front.now.lists.now
        part.old.items piece.now seat.old seat.new part.new.items response.old.items
        response.new.items result }
{
    for byte in piece {
        let Ok(disposition) = take_byte(context, seat, part, *byte, response) else {
            return Err(Worn);
        };
        match disposition {
            Disposition::Stays => {}
            Disposition::Leaves(why) => return Ok(Disposition::Leaves(why)),
        }
    }
    Ok(Disposition::Stays)
}
