//! The steps of a script.
use farm_base::Bytes;

/// A step of a script. Connections have the numbers 0, 1, 2 and so on, in the order of their Open.
#[derive(Drop)]
pub enum PortStep {
    /// A peer connects.
    Open,
    /// A piece comes, of 1 to 4,096 bytes.
    Bytes(u32, Bytes),
    /// The peer sends no more.
    End(u32),
    /// The connection fails.
    Lose(u32),
    /// Waits until the front of this number has sent so many bytes in all: 0 renderd, 1 tiles, 2 control;
    /// no other front sends any.
    Await(u32, u64),
    /// The ports fail.
    Break,
}
