//! What no event changes.
use farm_base::Bytes;
use farm_history::Saved;
use farm_plan::FarmPlan;

/// What no event changes of a farm: its plan, what it was resumed from, its store as it was at the start, and
/// what the store tells at the path of a saved farm. No value of it is made.
#[derive(Drop)]
pub struct LastingPart<D> {
    pub plan: FarmPlan,
    pub saved: Option<Saved>,
    pub first: D,
    pub beside: Option<Option<Bytes>>,
}
