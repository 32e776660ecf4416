//! What is kept of a session.
ghost use Rattle.std.specs.Prelude.{◌≡◌};
ghost use Rattle.tile_front.specs.ConnStates as spec;

use farm_history::Spot;

/// How far a session is.
#[derive(Clone, Copy)]
pub enum Stage {
    /// Its head is read.
    Reading,
    /// The reply to this ask is waited for, to fetch the tile then.
    Waiting(u64, Spot),
    /// Its one request was answered.
    Answered,
}

/// What is kept of a session: the bytes that came, while the head is read.
#[derive(Drop)]
pub struct ConnState {
    pub head: Vec<u8>,
    pub stage: Stage,
}

/// The spot whose ask of this number waits.
pub(crate) fn spot_of_ask(stage: Stage, ask: u64) -> Option<Spot>
    ensures { result ≡ spec.spot_at ask (spec.waits_in stage) }
{
    match stage {
        Stage::Waiting(number, spot) if number == ask => Some(spot),
        _ => None,
    }
}
