//! One ask, and what is answered to it.
ghost use Rattle.std.specs.Prelude.{◌≡◌, ◌+◌, ◌++◌, ◌∷◌, [], true, Some, Err, IsTrue, OnOk, MatchResult};
ghost use Rattle.front_loop.specs.Calls.{SameSeat};
ghost use Rattle.renderd_protocol.specs.Messages.{is_version, wire_of};
ghost use Rattle.session_front.specs.declared.asking.Halt.{Halt};
ghost use Rattle.session_front.specs.Renderd.{answer_command, command_of, response_to, with_wait};
ghost use Rattle.farm_history.specs.Past.{number_in};
ghost use Rattle.session_front.specs.inner.Reads.{AsksOne, pairs};

use crate::renderd::Renderd;
use crate::waits::Waiting;
use crate::words::{DONE, NOT_DONE, command_of, spot_of};
use farm_base::NoMemory;
use farm_history::{AskAnswer, Conn};
use farm_shared::Ask;
use front_loop::{Context, Farm};
use renderd_protocol::{Request, write};
use std::sync::Wait;

/// Why the reading of a connection is given up.
#[derive(Clone, Copy)]
pub enum Halt {
    /// The farm's limit of turns was drawn.
    Worn,
    /// There is no memory for an answer, or for an ask that waits.
    NoMemory,
}

/// Says an answer: the request with this command.
pub fn say(response: &mut Vec<u8>, request: &Request, command: u32) -> Result<(), NoMemory>
    requires { IsTrue (is_version request.now.ver) }
    ensures { OnOk result (response.new.items ≡ response.old.items ++ wire_of request.now command) }
{
    let message = write(request, command);
    response.extend_from_slice(message.as_slice())?;
    Ok(())
}

// Keeps a request that waits, with the number of its ask.
fn keep(waits: &mut Vec<Waiting>, number: u64, request: Request) -> Result<(), NoMemory>
    requires { IsTrue (is_version request.ver) }
    ensures { OnOk result
        (pairs waits.new.items ≡ pairs waits.old.items ++ (number, request) ∷ []) }
{
    waits.push(Waiting { number, request })?;
    Ok(())
}

// Says what is answered at once to a request, or keeps the request where it waits.
fn settle(
    waits: &mut Vec<Waiting>,
    response: &mut Vec<u8>,
    request: Request,
    answer: AskAnswer,
) -> Result<(), NoMemory>
    requires { IsTrue (is_version request.ver) }
    ensures response { OnOk result (response.new.items
        ≡ response.old.items ++ response_to (answer_command answer) request) }
    ensures waits { OnOk result (pairs waits.new.items
        ≡ with_wait (number_in answer) request (pairs waits.old.items)) }
{
    match answer {
        AskAnswer::Done => say(response, &request, DONE),
        AskAnswer::NotDone(_) => say(response, &request, NOT_DONE),
        AskAnswer::Queued(number) => keep(waits, number, request),
        AskAnswer::Joined(number) => keep(waits, number, request),
        AskAnswer::Lifted(number) => keep(waits, number, request),
        AskAnswer::Silent => Ok(()),
    }
}

/// Asks the farm for a request, or skips one of another command.
pub fn ask<R: Wait, M: Farm>(
    context: &Context<'_, R, M, Renderd>,
    seat: &mut M::Seat,
    conn: u32,
    request: Request,
    waits: &mut Vec<Waiting>,
    response: &mut Vec<u8>,
) -> Result<(), Halt>
    requires seat { (M.seats context.now.farm.now).is_seat seat.old }
    requires number { (M.seats context.now.farm.now).number seat.old
        ≡ context.now.front.now.front + 1 }
    requires version { IsTrue (is_version request.ver) }
    ensures seat { SameSeat (M.seats context.now.farm.now) seat.old seat.new }
    ensures worn { result ≡ Err Halt.Worn → (M.seats context.now.farm.now).worn seat.new ≡ true }
    ensures made { AsksOne M.map_at M.seats context.now conn request seat.old seat.new
        waits.old.items waits.new.items response.old.items response.new.items result }
{
    let Some(cmd) = command_of(request.cmd) else {
        return Ok(());
    };
    let spot = spot_of(context.farm, &request);
    let conn = Conn {
        front: context.front.front,
        number: conn,
    };
    let Ok(answer) = context.farm.turn(context.rt, seat, Ask { conn, cmd, spot }) else {
        return Err(Halt::Worn);
    };
    let Ok(()) = settle(waits, response, request, answer) else {
        return Err(Halt::NoMemory);
    };
    Ok(())
}
