//! The answers to asks that waited.
ghost use Rattle.std.specs.Prelude.{◌≡◌, ◌==◌, ◌++◌, Option, find, position, option_map, OnOk};
ghost use Rattle.farm_history.specs.Lists.{without_first};
ghost use Rattle.session_front.specs.Renderd.{outcome_command};
ghost use Rattle.session_front.specs.inner.Reads.{is_wait, pair_of, pairs, response_for};

use crate::asking::say;
use crate::waits::Waiting;
use crate::words::outcome_command;
use farm_base::NoMemory;
use farm_history::Reply;

fn place_of(waits: &[Waiting], ask: u64) -> Option<usize>
    ensures { result ≡ position (λ w. w.number == ask) waits.now }
{
    waits.iter().position(|waiting| waiting.number == ask)
}

fn take_wait(waits: &mut Vec<Waiting>, ask: u64) -> Option<Waiting>
    ensures found { option_map pair_of result ≡ find (is_wait ask) (pairs waits.old.items) }
    ensures left { pairs waits.new.items ≡ without_first (is_wait ask) (pairs waits.old.items) }
{
    let place = place_of(waits.as_slice(), ask)?;
    Some(waits.remove(place))
}

/// Says what is answered to a reply, where an ask waits for it.
pub fn answer_reply(
    waits: &mut Vec<Waiting>,
    response: &mut Vec<u8>,
    reply: Reply,
) -> Result<(), NoMemory>
    ensures response { OnOk result
        (response.new.items
        ≡ response.old.items ++ response_for (outcome_command reply.outcome)
        (find (is_wait reply.ask) (pairs waits.old.items))) }
    ensures waits { pairs waits.new.items
        ≡ without_first (is_wait reply.ask) (pairs waits.old.items) }
{
    let Some(waiting) = take_wait(waits, reply.ask) else {
        return Ok(());
    };
    match outcome_command(reply.outcome) {
        Some(command) => say(response, &waiting.request, command),
        None => Ok(()),
    }
}
