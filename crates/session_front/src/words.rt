//! The numbers of renderd's commands.
ghost use Rattle.std.specs.Prelude.{◌≡◌};
ghost use Rattle.session_front.specs.Renderd.{command_of, outcome_command, request_spot};

use farm_history::{Cmd, Outcome, Spot};
use front_loop::Farm;
use renderd_protocol::Request;

/// The command of the answer to what is drawn: renderd's `cmdDone`.
pub const DONE: u32 = 3;

/// The command of the answer to what is not: renderd's `cmdNotDone`.
pub const NOT_DONE: u32 = 4;

/// The name of the map of a request of version 1, which has none.
const DEFAULT: &str = "default";

/// The command that a number asks, if it is one of the five.
pub fn command_of(number: u32) -> Option<Cmd>
    ensures { result ≡ command_of number }
{
    match number {
        1 => Some(Cmd::Render),
        5 => Some(Cmd::Prio),
        7 => Some(Cmd::Low),
        6 => Some(Cmd::Bulk),
        2 => Some(Cmd::Dirty),
        _ => None,
    }
}

/// The number of the command that a reply is answered with; none for a Cut.
pub fn outcome_command(outcome: Outcome) -> Option<u32>
    ensures { result ≡ outcome_command outcome }
{
    match outcome {
        Outcome::Done => Some(DONE),
        Outcome::NotDone => Some(NOT_DONE),
        Outcome::Cut => None,
    }
}

/// What a request asks for.
pub fn spot_of<M: Farm>(farm: &M, request: &Request) -> Spot
    ensures { result ≡ request_spot (M.map_at farm.now) request.now }
{
    let map = if request.ver == 1 {
        farm.map_of(DEFAULT.as_bytes())
    } else {
        farm.map_of(request.name.as_slice())
    };
    Spot {
        map,
        z: request.z,
        x: request.x,
        y: request.y,
    }
}
