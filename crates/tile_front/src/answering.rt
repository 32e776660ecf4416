//! One ask at the farm.
ghost use Rattle.std.specs.Prelude.{◌≡◌, ◌+◌, ◌≤◌, [], true, length, OnErr, MatchResult};
ghost use Rattle.farm_base.specs.Limits.{most_head_bytes};
ghost use Rattle.farm_history.specs.Past as past;
ghost use Rattle.front_loop.specs.Calls.{SameSeat};
ghost use Rattle.front_loop.specs.Front.{disposition_of};
ghost use Rattle.tile_front.specs.Tiles as spec;
ghost use Rattle.tile_front.specs.Answers.{fault_answer};
ghost use Rattle.tile_front.specs.inner.Steps.{Finds, Fetches, DoesHttpAsk, Says};
ghost use Rattle.tile_front.specs.declared.acts.HttpAsk.TheVariants as http_ask;

use crate::acts::HttpAsk;
use crate::conn_states::Stage;
use crate::fronts::Tiles;
use crate::{Fault, Kind, Request, put_dirty, put_fault, put_status, put_tile, read_request};
use farm_base::{NoMemory, Worn};
use farm_history::{AskAnswer, Cmd, Conn, Fetched, Spot};
use farm_shared::{Ask, Fetch, Look};
use front_loop::{Context, Disposition, Farm, Reason};
use std::alloc::Global;
use std::sync::Wait;

/// The ask that stands in the bytes; `None` while more are waited for.
pub(crate) fn http_ask_in<M: Farm>(farm: &M, bytes: &[u8]) -> Option<HttpAsk>
    requires { length bytes.now ≤ most_head_bytes }
    ensures { Finds (M.map_at farm.now) bytes.now result }
{
    match read_request(bytes) {
        Request::Open => None,
        Request::Bad => Some(HttpAsk::Bad),
        Request::NotGet => Some(HttpAsk::NotGet),
        Request::NoTarget => Some(HttpAsk::NoTarget),
        Request::Get(target) => {
            let spot = Spot {
                map: farm.map_of(target.name.as_bytes()),
                z: target.z,
                x: target.x,
                y: target.y,
            };
            Some(match target.kind {
                Kind::Tile => HttpAsk::Tile(spot),
                Kind::Status => HttpAsk::Status(spot),
                Kind::Dirty => HttpAsk::Dirty(spot),
            })
        }
    }
}

/// Does an ask, and puts the bytes that are answered to it into `response`.
pub(crate) fn serve_http_ask<R: Wait, M: Farm>(
    context: &Context<'_, R, M, Tiles>,
    seat: &mut M::Seat,
    conn: Conn,
    http_ask: HttpAsk,
    stage: &mut Stage,
    response: &mut Vec<u8>,
) -> Result<Disposition, Worn>
    requires seat { (M.seats context.now.farm.now).is_seat seat.old }
    requires number { (M.seats context.now.farm.now).number seat.old ≡ conn.front + 1 }
    requires empty { response.old.items ≡ [] }
    ensures seat { SameSeat (M.seats context.now.farm.now) seat.old seat.new }
    ensures worn { OnErr result ((M.seats context.now.farm.now).worn seat.new ≡ true) }
    ensures does { DoesHttpAsk conn http_ask ((M.seats context.now.farm.now).mine seat.old)
        ((M.seats context.now.farm.now).mine seat.new) stage.new response.new.items
        (disposition_of result) }
{
    match http_ask {
        HttpAsk::Bad => Ok(refuse(context.alloc, Fault::BadRequest, stage, response)),
        HttpAsk::NotGet => Ok(refuse(context.alloc, Fault::NotAllowed, stage, response)),
        HttpAsk::NoTarget => Ok(refuse(context.alloc, Fault::NotFound, stage, response)),
        HttpAsk::Tile(spot) => serve_tile(context, seat, conn, spot, stage, response),
        HttpAsk::Status(spot) => {
            let Ok(looked) = context.farm.turn(context.rt, seat, Look { spot }) else {
                return Err(Worn);
            };
            *stage = Stage::Answered;
            Ok(disposition_of_put(put_status(context.alloc, looked, response)))
        }
        HttpAsk::Dirty(spot) => {
            let cmd = Cmd::Dirty;
            let Ok(_) = context.farm.turn(context.rt, seat, Ask { conn, cmd, spot }) else {
                return Err(Worn);
            };
            *stage = Stage::Answered;
            Ok(disposition_of_put(put_dirty(context.alloc, response)))
        }
    }
}

fn refuse(alloc: Global, fault: Fault, stage: &mut Stage, response: &mut Vec<u8>) -> Disposition
    requires { response.old.items ≡ [] }
    ensures stage { stage.new ≡ Stage.Answered }
    ensures response { Says (fault_answer fault) response.new.items result }
{
    *stage = Stage::Answered;
    disposition_of_put(put_fault(alloc, fault, response))
}

fn serve_tile<R: Wait, M: Farm>(
    context: &Context<'_, R, M, Tiles>,
    seat: &mut M::Seat,
    conn: Conn,
    spot: Spot,
    stage: &mut Stage,
    response: &mut Vec<u8>,
) -> Result<Disposition, Worn>
    requires seat { (M.seats context.now.farm.now).is_seat seat.old }
    requires number { (M.seats context.now.farm.now).number seat.old ≡ conn.front + 1 }
    requires empty { response.old.items ≡ [] }
    ensures seat { SameSeat (M.seats context.now.farm.now) seat.old seat.new }
    ensures worn { OnErr result ((M.seats context.now.farm.now).worn seat.new ≡ true) }
    ensures does { DoesHttpAsk conn (http_ask.Tile spot)
        ((M.seats context.now.farm.now).mine seat.old)
        ((M.seats context.now.farm.now).mine seat.new) stage.new response.new.items
        (disposition_of result) }
{
    let cmd = Cmd::Render;
    let Ok(answer) = context.farm.turn(context.rt, seat, Ask { conn, cmd, spot }) else {
        return Err(Worn);
    };
    match answer {
        AskAnswer::Queued(number) | AskAnswer::Joined(number) | AskAnswer::Lifted(number) => {
            *stage = Stage::Waiting(number, spot);
            Ok(Disposition::Stays)
        }
        AskAnswer::Done | AskAnswer::NotDone(_) | AskAnswer::Silent => {
            *stage = Stage::Answered;
            fetch_and_say(context, seat, spot, response)
        }
    }
}

/// Fetches a tile, and puts its answer into `response`.
pub(crate) fn fetch_and_say<R: Wait, M: Farm>(
    context: &Context<'_, R, M, Tiles>,
    seat: &mut M::Seat,
    spot: Spot,
    response: &mut Vec<u8>,
) -> Result<Disposition, Worn>
    requires seat { (M.seats context.now.farm.now).is_seat seat.old }
    requires empty { response.old.items ≡ [] }
    ensures seat { SameSeat (M.seats context.now.farm.now) seat.old seat.new }
    ensures worn { OnErr result ((M.seats context.now.farm.now).worn seat.new ≡ true) }
    ensures fetches { Fetches spot ((M.seats context.now.farm.now).mine seat.old)
        ((M.seats context.now.farm.now).mine seat.new) response.new.items (disposition_of result) }
{
    let alloc = context.alloc;
    let Ok(fetched) = context.farm.turn(context.rt, seat, Fetch { alloc, spot }) else {
        return Err(Worn);
    };
    if matches!(fetched, Fetched::NoMemory) {
        return Ok(Disposition::Leaves(Reason::NoMemory));
    }
    match put_tile(alloc, fetched, response) {
        Ok(()) => Ok(Disposition::Stays),
        Err(_) => Ok(Disposition::Leaves(Reason::Starved)),
    }
}

fn disposition_of_put(put: Result<(), NoMemory>) -> Disposition
    ensures { MatchResult put (λ _. result ≡ Disposition.Stays)
        (λ _. result ≡ Disposition.Leaves Reason.Starved) }
{
    match put {
        Ok(()) => Disposition::Stays,
        Err(_) => Disposition::Leaves(Reason::Starved),
    }
}
