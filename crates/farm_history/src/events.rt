//! The events of a farm, as a history names them.
use std::marker::Model;

/// An event of a farm with its arguments and its answer, for types that keep a history. A clause sees it as
/// an entry of `specs/Entries.antt`, so that the thirteen events stand in one list; no value of it is made.
#[derive(Drop)]
pub struct Event {
    none: (),
}

impl Model for Event {
    ghost use Rattle.farm_history.specs.Entries.{Entry, Stop};

    ghost Value = { Entry };

    ghost view = { λ _. Stop };
}
