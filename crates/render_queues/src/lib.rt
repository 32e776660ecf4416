//! What waits in a render farm: five queues of metatiles, the metatiles that are being drawn, the chains of
//! asks that wait for both, and the replies that have not been collected.
//!
//! `Queues` keeps them in tables that are made once: no call after `Queues::with_limits` takes memory.
//!
//! What is proved: `Queues` as one record of lists: `find`, `place`, `join`, `lift`, `take`, `end`, `collect`, `leave`,
//! `asks_of` and `asks` are exact, `place` and `lift` false exactly at the limit with nothing changed, and no call
//! after `with_limits` takes memory; a metatile stands at most once (`Queues::law_sound`); the chain of each metatile
//! after each step (`law_chains`), and the items with their chains (`law_items`); what is taken next is what histories
//! call next (`law_next`).
#![tactic(auto)]

mod asks;
mod key_list;
mod laws;
mod queues;
mod replies;
mod standing;
mod waiting;

pub use asks::Asked;
pub use farm_history::{Conn, Key, Limits, Outcome, Queue, Reply, Waiter};
pub use laws::{law_chains, law_items, law_next};
pub use queues::Queues;
pub use standing::Standing;
