//! A part of a layer, which snapshots share.
ghost use Rattle.std.specs.Prelude.{◌≡◌, ◌≤◌, ◌+◌, ◌++◌, false, List, All, length, slice_get, IfOk, OnOk};
ghost use Rattle.std.specs.Option.{option_copied};
ghost use Rattle.plain_shapes.specs.Features.{Feature};
ghost use Rattle.data_versions.specs.inner.Ids.{numbered};
ghost use Rattle.data_versions.specs.inner.Parts.{IsPart};
ghost use Rattle.data_versions.specs.inner.Questions.{answers};
ghost use Rattle.data_versions.specs.inner.Sieves.{Sifts};

use crate::question::Question;
use crate::shared::SharedFeature;
use crate::sieve::Sifted;
use farm_base::NoMemory;

/// Features in order, which are shared; what most searches need to know of them stands in line.
pub(crate) trait Block: Drop {
    ghost use Rattle.std.specs.Prelude.{List};
    ghost use Rattle.plain_shapes.specs.Features.{Feature};

    /// The features.
    ghost features: { Self → List Feature };

    /// How many features there are.
    fn len(&self) -> u32
        ensures { result ≡ length (features self.now) };

    /// Whether a feature may answer the question; if not, none does.
    fn may_answer(&self, question: Question) -> bool
        ensures { result ≡ false → All (λ f. answers question f ≡ false) (features self.now) };

    /// The feature at the place.
    fn get(&self, i: u32) -> Option<&SharedFeature>
        ensures { option_copied result ≡ slice_get (features self.now) i };

    /// The place, from the place `from` on, before which no feature answers the question, features that stand
    /// side by side from there on, and which of them may be looked for.
    fn part_from(&self, from: u32, question: Question) -> (u32, &[SharedFeature], Sifted)
        ensures part { IsPart (answers question) from result.0 result.1.now (features self.now) }
        ensures sifted { Sifts question result.2 result.1.now };

    /// Adds the ids, each with its place.
    fn number(&self, pairs: &mut Vec<(u64, u32)>) -> Result<(), NoMemory>
        requires { length pairs.old.items + length (features self.now) ≤ 4294967295 }
        ensures { OnOk result (pairs.new.items
            ≡ pairs.old.items ++ numbered (length pairs.old.items) (features self.now)) };
}
