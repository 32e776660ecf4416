//! What the words ask for.
ghost use Rattle.std.specs.Prelude.{◌≡◌};

use farm_base::{NoMemory, Text};
use plain_world::Tile;
use std::alloc::{AllocError, AllocFailed};

/// A command of the program.
#[derive(Drop)]
pub enum Command {
    /// `render STYLE DATA T Z X Y`: the names of the style and of the data, the tile's size and the tile.
    Render(Text, Text, u32, Tile),
    /// `script CONFIG SCRIPT`.
    Script(Text, Text),
    /// `serve CONFIG`.
    Serve(Text),
    /// `load SEED N`: the seed and the number of features, from 1 to 100,000.
    Load(u64, u32),
    /// `meta FILE`.
    Meta(Text),
}

/// Why the words ask for nothing.
#[derive(Clone, Copy)]
pub enum WordsFault {
    /// The words are none of the five forms, or clap refuses them.
    Refused,
    /// Want of memory.
    NoMemory,
}

impl From<NoMemory> for WordsFault {
    ghost use Rattle.farm_words.specs.declared.command.WordsFault.TheVariants.{NoMemory};

    ghost from_gives = { λ _ e. e ≡ NoMemory };

    fn from(_refused: NoMemory) -> WordsFault {
        WordsFault::NoMemory
    }
}

impl From<AllocError> for WordsFault {
    ghost use Rattle.farm_words.specs.declared.command.WordsFault.TheVariants.{NoMemory};

    ghost from_gives = { λ _ e. e ≡ NoMemory };

    fn from(_refused: AllocError) -> WordsFault {
        WordsFault::NoMemory
    }
}

impl<T: Drop> From<AllocFailed<T>> for WordsFault {
    ghost use Rattle.farm_words.specs.declared.command.WordsFault.TheVariants.{NoMemory};

    ghost from_gives = { λ _ e. e ≡ NoMemory };

    fn from(_refused: AllocFailed<T>) -> WordsFault {
        WordsFault::NoMemory
    }
}
