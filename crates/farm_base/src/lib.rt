//! What every crate of the farm shares: want of memory, turns that are used up, limits, texts, bytes and
//! attribute values, lines of texts and numbers in decimal, the traits of the outside with their forms in
//! memory and over the real files and streams, and bells and gates.
//!
//! What is proved: Files and sinks as traits: an object that tells has a content and a list of failed calls; a call
//! fails only where the count of faults rose (`Files::read`, `Sink::put`). `MemFiles` and `MemSink` do exactly what
//! `specs/InMemory` says. `DiskFiles` and `OutSink` keep the traits without telling their content; a put of `OutSink`
//! that is Ok has appended the whole piece to a writer whose bytes are known (`written`). `number`, `small_number` and
//! `number_below`: the number that the text is in decimal, `None` exactly where it is none (`law_numbers`); `cut` and
//! `first_line` by std's words for what stands before and behind a byte, and for the lines of a text. Bells and gates
//! promise nothing.
#![tactic(auto)]

mod bells;
mod cuts;
mod disk;
mod faults;
mod files;
mod laws;
mod limits;
mod listed;
mod memory;
mod numbers;
mod sinks;
mod texts;
mod turns;
mod values;

pub use bells::{Bell, Bells, Gate, NoBell, OpenGate};
pub use cuts::{cut, first_line, without_return};
pub use disk::{DiskFiles, OutSink, file_fault, read_to_end};
pub use faults::{ApplyFault, MetaFault};
pub use files::{FailedCall, FileFault, Files, MemFiles};
pub use laws::law_numbers;
pub use limits::{
    MOST_ASKS, MOST_ASKS_OF_ONE, MOST_CONTROL_BYTES, MOST_FILE_BYTES, MOST_HEAD_BYTES,
    MOST_HEAD_FIELDS, MOST_LINES, MOST_PIECE_BYTES, MOST_REST_BYTES, MOST_SESSIONS, MOST_TURNS,
};
pub use listed::Listed;
pub use memory::NoMemory;
pub use numbers::{number, number_below, small_number};
pub use sinks::{MemSink, Sink, SinkFault};
pub use texts::{Bytes, Text, put_front};
pub use turns::Worn;
pub use values::{Attr, Value};
