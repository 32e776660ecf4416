//! What is saved of a farm.
use crate::keys::Kept;
use std::marker::Model;

/// An update that succeeded, by its number: as an update, or as one that expired what it reaches.
#[derive(Clone, Copy)]
pub enum Past {
    Update(u32),
    Renew(u32),
}

/// What is saved of a farm: for each map, in order, the number of its last style, or none where it still has
/// the plan's; the updates that succeeded, in order; and the clean metatiles with their versions, by map, zoom,
/// column and row.
#[derive(Drop)]
pub struct Saved {
    pub styles: Vec<Option<u32>>,
    pub updates: Vec<Past>,
    pub clean: Vec<Kept>,
}

impl Model for Saved {
    ghost use Rattle.farm_history.specs.Replays.{Saving};

    ghost Value = { Saving };

    ghost view = { λ s. record {
      styles = s.styles.items;
      updates = s.updates.items;
      clean = s.clean.items;
    } };
}
