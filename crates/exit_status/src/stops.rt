//! Why a command ended early.
ghost use Rattle.std.specs.Prelude.{◌≡◌, ◌⊎◌};
ghost use Rattle.exit_status.specs.Stops as spec;
ghost use Rattle.exit_status.specs.declared.stops.Stop.TheVariants as stop;

use farm_base::{NoMemory, Text};
use std::alloc::{AllocError, Global};

/// Why a command ended before it was done. A refusal carries its whole line.
#[derive(Drop)]
pub enum Stop {
    /// A file's content was refused.
    Refused(Text),
    /// The words ask for nothing that there is.
    Words,
    /// A file cannot be read.
    Unreadable(Text),
    /// A put failed.
    SinkFailed,
    /// Want of memory.
    NoMemory,
    /// A put or a get of the store failed.
    StoreFailed,
    /// A port could not be listened on, or broke.
    PortsFailed,
    /// The turns of the farm's lock were used up.
    TurnsUsedUp,
}

impl From<NoMemory> for Stop {
    ghost use Rattle.std.specs.Prelude.{◌≡◌};
    ghost use Rattle.exit_status.specs.declared.stops.Stop.TheVariants as stop;

    ghost from_gives = { λ _ e. e ≡ stop.NoMemory };

    fn from(_refused: NoMemory) -> Stop {
        Stop::NoMemory
    }
}

impl From<AllocError> for Stop {
    ghost use Rattle.std.specs.Prelude.{◌≡◌};
    ghost use Rattle.exit_status.specs.declared.stops.Stop.TheVariants as stop;

    ghost from_gives = { λ _ e. e ≡ stop.NoMemory };

    fn from(_refused: AllocError) -> Stop {
        Stop::NoMemory
    }
}

/// The refusal of a file for a fault with this text.
pub fn refused(alloc: Global, name: &str, text: &str) -> Stop
    ensures { (result ≡ stop.NoMemory)
        ⊎ (result ≡ stop.Refused (spec.refused_line name.now text.now)) }
{
    match format!(in alloc; "tilefarm: {name}: {text}\n") {
        Ok(line) => Stop::Refused(Text::from_string(line)),
        Err(_) => Stop::NoMemory,
    }
}

/// That a file cannot be read.
pub fn unreadable(alloc: Global, name: &str) -> Stop
    ensures { (result ≡ stop.NoMemory)
        ⊎ (result ≡ stop.Unreadable (spec.unreadable_line name.now)) }
{
    match format!(in alloc; "tilefarm: {name}: cannot be read\n") {
        Ok(line) => Stop::Unreadable(Text::from_string(line)),
        Err(_) => Stop::NoMemory,
    }
}
