//! What fronts ask: asks, replies and the leaving of connections.
use crate::event::{Event, Wakes};
use farm_base::Worn;
use farm_core::Farm;
use farm_history::{AskAnswer, Cmd, Collected, Conn, Spot, Why};
use tile_store::TileStore;

/// A connection asks for the metatile of a spot, on the seat of its front.
#[derive(Drop)]
pub struct Ask {
    pub conn: Conn,
    pub cmd: Cmd,
    pub spot: Spot,
}

impl Event for Ask {
    ghost use Rattle.std.specs.Prelude.{◌≡◌, ◌+◌, ⊤};
    ghost use Rattle.farm_history.specs.Entries as entries;

    type Answer = AskAnswer;

    ghost entry = { λ e answer. entries.Ask e.conn e.cmd e.spot answer };

    ghost need = { λ e n _ _ _. n ≡ e.conn.front + 1 };

    ghost promise = { λ _ _ _ _ _. ⊤ };

    fn run<D: TileStore>(self, farm: &mut Farm<D>) -> AskAnswer {
        farm.ask(self.conn, self.cmd, self.spot)
    }

    // Wakes the workers where the ask may have put a metatile in a queue. What it joined or lifted waited or was being
    // drawn already, and was woken for then.
    fn wakes(answer: &Result<AskAnswer, Worn>) -> Wakes {
        match answer {
            Ok(AskAnswer::Queued(_) | AskAnswer::Silent | AskAnswer::NotDone(Why::Deferred)) => {
                Wakes::Workers
            }
            _ => Wakes::Nobody,
        }
    }
}

/// A front takes the first of its replies, on its own seat.
#[derive(Drop)]
pub struct Collect {
    pub front: u32,
}

impl Event for Collect {
    ghost use Rattle.std.specs.Prelude.{◌≡◌, ◌+◌};
    ghost use Rattle.farm_history.specs.Entries as entries;
    ghost use Rattle.farm_shared.specs.Promises.{GivesReply};

    type Answer = Collected;

    ghost entry = { λ e answer. entries.Collect e.front answer };

    ghost need = { λ e n _ _ _. n ≡ e.front + 1 };

    ghost promise = { λ e answer log _ _. GivesReply e.front answer log };

    fn run<D: TileStore>(self, farm: &mut Farm<D>) -> Collected {
        farm.collect(self.front)
    }
}

/// The open asks of a connection are forgotten, on the seat of its front. It is answered how many there were.
#[derive(Drop)]
pub struct Leave {
    pub conn: Conn,
}

impl Event for Leave {
    ghost use Rattle.std.specs.Prelude.{◌≡◌, ◌+◌, ⊤};
    ghost use Rattle.farm_history.specs.Entries as entries;

    type Answer = u32;

    ghost entry = { λ e answer. entries.Leave e.conn answer };

    ghost need = { λ e n _ _ _. n ≡ e.conn.front + 1 };

    ghost promise = { λ _ _ _ _ _. ⊤ };

    fn run<D: TileStore>(self, farm: &mut Farm<D>) -> u32 {
        farm.leave(self.conn)
    }
}
