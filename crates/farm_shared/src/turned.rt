//! A farm as the lock has it, and an event as a turn of the lock.
use crate::{Event, LastingPart};
use farm_core::Farm;
use farm_history::Event as Entry;
use tile_store::TileStore;
use turn_cell::{Call, StandsFor};

/// A farm under the lock.
#[derive(Drop)]
pub struct Turned<D> {
    pub(crate) farm: Farm<D>,
}

impl<D: TileStore> StandsFor for Turned<D> {
    ghost use Rattle.farm_shared.specs.Afters.{IsAfter, lasting_of};

    type Entry = Entry;

    type Lasting = LastingPart<D>;

    ghost lasting = { λ t. lasting_of D.state t.farm };

    ghost stands = { λ t log. IsAfter D.state t.farm log };
}

/// An event, as a turn of the lock.
#[derive(Drop)]
pub(crate) struct Turn<C> {
    pub event: C,
}

impl<D: TileStore, C: Event> Call<Turned<D>> for Turn<C> {
    ghost use Rattle.farm_shared.specs.Needs.{NeedOf};

    type Answer = C::Answer;

    ghost entry = { λ t answer. C.entry t.event answer };

    ghost need = { λ t n seen part. NeedOf (C.need t.event) n seen part };

    ghost promise = { λ t answer log part. C.promise t.event answer log part.plan part.saved };

    fn run(self, value: &mut Turned<D>) -> C::Answer {
        let Turn { event } = self;
        event.run(&mut value.farm)
    }
}
