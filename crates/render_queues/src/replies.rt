//! The replies that have not been collected, in the order in which they ended.
ghost use Rattle.std.specs.Prelude.{◌≡◌, find};
ghost use Rattle.std.specs.Vec.{vec_capacity};
ghost use Rattle.farm_history.specs.Lists.{without_first};
ghost use Rattle.render_queues.specs.Tables.{is_of_front};

use farm_history::Reply;

/// Takes out the first reply for the front.
pub(crate) fn first_reply(ended: &mut Vec<Reply>, front: u32) -> Option<Reply>
    ensures first { result ≡ find (is_of_front front) ended.old.items }
    ensures rest { ended.new.items ≡ without_first (is_of_front front) ended.old.items }
    ensures room { vec_capacity ended.new ≡ vec_capacity ended.old }
{
    let place = ended
        .as_slice()
        .iter()
        .position(|reply| reply.conn.front == front)?;
    Some(ended.remove(place))
}
