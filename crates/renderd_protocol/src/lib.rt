//! The messages of renderd's protocol, both ways, and the law that they do not depend on how the
//! bytes of a connection were cut.
//!
//! What is proved: `next` and `write` equal the table of the messages; whole messages are found, written ones are read
//! back, and the messages are the same however the bytes are cut (three laws).
#![tactic(auto)]

mod laws;
mod messages;
mod reading;
mod writing;

pub use laws::{law_any_pieces, law_messages_are_found, law_written_is_read_back};
pub use messages::{Found, MESSAGE_BYTES, Request, TEXT_BYTES};
pub use reading::next;
pub use writing::write;
