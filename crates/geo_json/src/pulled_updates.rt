//! Updates pulled from the tokens of a text, without a tree of the whole.
ghost use Rattle.std.specs.Prelude.{◌≡◌, false, Some, Ok, IfSome, IfOk, option_map};
ghost use Rattle.geo_json.specs.UpdateTexts as spec;
ghost use Rattle.geo_json.specs.declared.coordinates.Units.TheVariants.{Centimetres};
ghost use Rattle.geo_json.specs.inner.Gathered.{HasUpdateParts, AreReadChanges};

use crate::coordinates::{Units, are_same, units_from};
use crate::pulled_changes::PulledChanges;
use data_versions::Change;
use json::{Reader, Scratch};
use pulled_json::{PullMember, pull_list, pull_text};
use std::alloc::Global;

// What is gathered of an update.
#[derive(Drop)]
struct UpdateParts {
    told: bool,
    // Other units are told than those that were taken for granted.
    other: bool,
    changes: Option<Vec<Change>>,
}

// The members of an update in units that are taken for granted, since they may be told behind the changes.
#[derive(Drop)]
struct PulledMembers {
    units: Units,
}

impl PullMember for PulledMembers {
    type Gathered = UpdateParts;

    ghost has = { λ p g ms. HasUpdateParts p.units g.told (option_map (λ v. v.items) g.changes) ms };

    fn pull(
        &self,
        alloc: Global,
        gathered: &mut UpdateParts,
        key: &str,
        reader: &mut Reader<'_>,
        depth: usize,
    ) -> Option<()> {
        match key {
            "units" => {
                let told = units_from(reader)?;
                if are_same(told, self.units) {
                    gathered.told = true;
                    Some(())
                } else {
                    gathered.other = true;
                    None
                }
            }
            "changes" => {
                let changes = PulledChanges { units: self.units };
                gathered.changes = Some(pull_list(alloc, &changes, &mut (), reader, depth)?);
                Some(())
            }
            _ => None,
        }
    }
}

// The changes of an update in these units. Units that are not told are centimetres.
fn changes_of(units: Units, parts: UpdateParts) -> Option<Vec<Change>>
    ensures { IfSome result (λ v. (option_map (λ w. w.items) parts.changes ≡ Some v.items)
        × (parts.told ≡ false → units ≡ Centimetres)) }
{
    if !parts.told && !are_same(units, Units::Centimetres) {
        return None;
    }
    parts.changes
}

// The changes that the bytes say in these units; or else whether they tell other units.
fn changes_in(
    alloc: Global,
    units: Units,
    scratch: &mut Scratch,
    bytes: &[u8],
) -> Result<Vec<Change>, bool>
    ensures { IfOk result (λ v. (spec.update_in bytes.now ≡ Ok v.items) × AreReadChanges v.items) }
{
    let mut parts = UpdateParts {
        told: false,
        other: false,
        changes: None,
    };
    let Some(_) = pull_text(alloc, &PulledMembers { units }, &mut parts, scratch, bytes) else {
        return Err(parts.other);
    };
    match changes_of(units, parts) {
        Some(changes) => Ok(changes),
        None => Err(false),
    }
}

/// The changes that the bytes say. None says that they are refused, or that memory ran out, or that they tell
/// two units.
pub(crate) fn pulled_changes(alloc: Global, bytes: &[u8]) -> Option<Vec<Change>>
    ensures { IfSome result
        (λ v. (spec.update_in bytes.now ≡ Ok v.items) × AreReadChanges v.items) }
{
    let mut scratch = Scratch::new(alloc);
    match changes_in(alloc, Units::Centimetres, &mut scratch, bytes) {
        Ok(changes) => Some(changes),
        Err(true) => match changes_in(alloc, Units::World, &mut scratch, bytes) {
            Ok(changes) => Some(changes),
            Err(_) => None,
        },
        Err(false) => None,
    }
}
