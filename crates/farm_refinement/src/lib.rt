//! What a farm stands for: the list of events that its state is that of, and how each event goes on from it.
//!
//! There is no code here but the type of what a farm counts. `specs/Stands.antt` has the definitions that a reader must believe, and `proofs/` shows
//! of each event that a farm which stands for a history goes on to stand for that history with the event.
//!
//! What is proved: What it means that a farm stands for a history (`StandsFor`): its counts, data, styles, drawings
//! under way, marks and queues are those of the history, and its store has counted and holds what the history tells.
//! Lemmas alone, which the contracts of calls rest on: each event goes on from it, a started farm
//! stands for nothing, a put beside the metatiles is no event, a replay is stood for piece by piece.
#![tactic(auto)]

mod counts;

pub use counts::Counts;
