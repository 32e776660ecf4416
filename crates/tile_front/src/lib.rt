//! The tile front: tiles over HTTP, one request a connection. A request's head, and what its target asks for, which
//! takes no memory; and the texts in which it answers, each put behind what was said before. After want of memory it is
//! not told what was put.
//!
//! What is proved: `read_request`: what the bytes of a connection ask for, by the head that they begin with as
//! `httparse` reads it (`Reads`): more is waited for, it is refused, or it gets this of that tile. `httparse`'s answer
//! is no function of the bytes (more than 32 headers, a target that is cut off), so it is a relation; but no bytes that
//! begin with a whole head of at most 32 headers are refused or waited for, they begin with one head at most, and a
//! target asks for one thing of one tile at most (`law_one_request`); what is refused stays so, and a whole head stays
//! the same, whatever follows (`law_stays`). `read_target`: both ways. Of each answer of a farm to a tile, to `/status`
//! and to `/dirty` its text over HTTP, and of each refusal, exactly (`specs/Answers`), put behind what was said before.
//! `Tiles`, a front by its number, over any farm: its `Rules` (`crates/tile_front/specs/Tiles.antt`) are those of tiles
//! over HTTP. A connection has one request, that of the head in its first 8,192 bytes. A tile's is an Ask with Render,
//! and a Fetch: at once where the ask does not wait, else directly behind the Collect of its reply, unless that is Cut;
//! `/status` is a Look, `/dirty` an Ask with Dirty; a head that is refused, another method and another target have no
//! entry. Each is answered with its text, a Fetch without memory with none, and then all is answered
//! (`docs/operate/http.md`). Its rules are those of front 1 of a farm (`IsFront`, in `proofs/OwnEntries.antt`).
//! `serve`: what `front_loop` promises of a front, with these rules, on a seat of a shared farm.
#![tactic(auto)]

mod acts;
mod answering;
mod conn_states;
mod faults;
mod fronts;
mod heads;
mod laws;
mod requests;
mod serving;
mod targets;
mod texts;
mod tiles;

pub use acts::{Act, HttpAsk};
pub use conn_states::{ConnState, Stage};
pub use faults::{Fault, put_fault};
pub use fronts::Tiles;
pub use laws::{law_one_request, law_stays};
pub use requests::{Request, read_request};
pub use serving::serve;
pub use targets::{Kind, Target, read_target};
pub use tiles::{put_dirty, put_status, put_tile};
