//! What ports tell in their calls: events, refusals, and the lines of their record.
ghost use Rattle.std.specs.Prelude.{◌≡◌};

use farm_base::{Bytes, NoMemory, Text};
use std::alloc::AllocError;

/// What happened on ports. Connections have the numbers 0, 1, 2 and so on, in the order in which they
/// were opened; a number is never used twice.
#[derive(Clone, Copy)]
pub enum PortEvent {
    /// A peer connected.
    Opened(u32),
    /// A piece came on the connection, of 1 to 4,096 bytes.
    Bytes(u32),
    /// The connection takes bytes again.
    Writable(u32),
    /// The peer sends no more; the connection is still open.
    Ended(u32),
    /// The connection failed, and is open no longer.
    Lost(u32),
    /// A bell was rung, or nothing happened.
    Woken,
    /// Nothing will happen any more.
    Finished,
    /// The ports as a whole failed.
    Broken,
    /// Want of memory; all is as before.
    NoMemory,
}

/// Why ports do not listen at an address.
#[derive(Clone, Copy)]
pub enum PortFault {
    /// The address is none, or cannot be listened at.
    Failed,
    /// Want of memory; all is as before.
    NoMemory,
}

impl From<NoMemory> for PortFault {
    ghost use Rattle.reactor_ports.specs.declared.events.PortFault.TheVariants.{NoMemory};

    ghost from_gives = { λ _ e. e ≡ NoMemory };

    fn from(_refused: NoMemory) -> PortFault {
        PortFault::NoMemory
    }
}

impl From<AllocError> for PortFault {
    ghost use Rattle.reactor_ports.specs.declared.events.PortFault.TheVariants.{NoMemory};

    ghost from_gives = { λ _ e. e ≡ NoMemory };

    fn from(_refused: AllocError) -> PortFault {
        PortFault::NoMemory
    }
}

/// Why a send took nothing.
#[derive(Clone, Copy)]
pub enum SendFault {
    /// The connection failed, and is open no longer.
    Failed,
    /// Want of memory; all is as before.
    NoMemory,
}

impl From<NoMemory> for SendFault {
    ghost use Rattle.reactor_ports.specs.declared.events.SendFault.TheVariants.{NoMemory};

    ghost from_gives = { λ _ e. e ≡ NoMemory };

    fn from(_refused: NoMemory) -> SendFault {
        SendFault::NoMemory
    }
}

impl From<AllocError> for SendFault {
    ghost use Rattle.reactor_ports.specs.declared.events.SendFault.TheVariants.{NoMemory};

    ghost from_gives = { λ _ e. e ≡ NoMemory };

    fn from(_refused: AllocError) -> SendFault {
        SendFault::NoMemory
    }
}

/// A line of the record that ports tell.
#[derive(Drop)]
pub enum PortItem {
    /// A listen: its address, and whether it failed.
    Listened(Text, bool),
    /// An event with its piece, which is empty for every event but Bytes.
    Heard(PortEvent, Bytes),
    /// A send: its connection, how many bytes were offered, and how many were taken; none where it
    /// failed.
    Sent(u32, usize, Option<usize>),
}
