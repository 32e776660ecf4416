//! Why a farm is not resumed: the first fault of what was saved, over a plan.
ghost use Rattle.std.specs.Prelude.{◌≡◌, ◌<◌, ◌+◌, ◌^◌, length, nat_lt};
ghost use Rattle.farm_history.specs.Replays.{past_number};
ghost use Rattle.render_jobs.specs.Faults.{can_show, cause, is_style_at, refused_at, form_fault};
ghost use Rattle.render_jobs.specs.inner.Faults.{kept_fault, styles_fault, updates_fault};

use crate::shares::Setup;
use farm_base::{ApplyFault, NoMemory};
use farm_history::Saved;
use farm_plan::{Kept, Key, Past};
use std::alloc::AllocError;

/// Why a farm is not resumed, in the order in which this is told.
#[derive(Clone, Copy)]
pub enum ResumeFault {
    /// Of so many maps a style was saved, and the plan has not as many.
    Maps(u64),
    /// The number of a style is not in the table, or of another map; or that of an update is not in the table.
    /// The place is counted through the styles and then the updates.
    Number(u64),
    /// A clean metatile, by its place, is of a map that the plan does not have, or past the map's greatest zoom.
    Kept(u64),
    /// An update, by its place, is refused.
    Apply(u64, ApplyFault),
    /// Want of memory.
    NoMemory,
}

impl From<NoMemory> for ResumeFault {
    ghost use Rattle.render_jobs.specs.declared.faults.ResumeFault.TheVariants.{NoMemory};

    ghost from_gives = { λ _ e. e ≡ NoMemory };

    fn from(_refused: NoMemory) -> ResumeFault {
        ResumeFault::NoMemory
    }
}

impl From<AllocError> for ResumeFault {
    ghost use Rattle.render_jobs.specs.declared.faults.ResumeFault.TheVariants.{NoMemory};

    ghost from_gives = { λ _ e. e ≡ NoMemory };

    fn from(_refused: AllocError) -> ResumeFault {
        ResumeFault::NoMemory
    }
}

// Whether the style that a map was given last is one of the table for that map, or there is none.
fn is_style_at(setup: &Setup, map: usize, style: Option<u32>) -> bool
    ensures { result ≡ is_style_at setup.now map style }
{
    let Some(number) = style else {
        return true;
    };
    match setup.restyle(number) {
        Some(restyle) => restyle.map as usize == map,
        None => false,
    }
}

fn check_styles(setup: &Setup, styles: &[Option<u32>]) -> Result<(), ResumeFault>
    ensures { cause result ≡ styles_fault setup.now styles.now }
{
    for (map, style) in styles.iter().enumerate() {
        if !is_style_at(setup, map, *style) {
            return Err(ResumeFault::Number(map as u64));
        }
    }
    Ok(())
}

fn number_of(past: Past) -> u32
    ensures { result ≡ past_number past }
{
    match past {
        Past::Update(number) => number,
        Past::Renew(number) => number,
    }
}

fn has_update(setup: &Setup, past: Past) -> bool
    ensures { result ≡ nat_lt (past_number past) (length setup.now.updates) }
{
    setup.update(number_of(past)).is_some()
}

// The first update that is not in the table is refused. The places go on from those of the styles.
fn check_updates(setup: &Setup, styles: u64, updates: &[Past]) -> Result<(), ResumeFault>
    requires { styles + length updates.now < 2 ^ 64 }
    ensures { cause result ≡ updates_fault setup.now styles updates.now }
{
    for (place, past) in updates.iter().enumerate() {
        if !has_update(setup, *past) {
            return Err(ResumeFault::Number(styles + place as u64));
        }
    }
    Ok(())
}

fn can_show(setup: &Setup, key: Key) -> bool
    ensures { result ≡ can_show setup.now key }
{
    match setup.map(key.map) {
        Some(plan) => key.meta.z <= plan.max_zoom,
        None => false,
    }
}

// The first clean metatile that the plan does not have is refused.
fn check_clean(setup: &Setup, clean: &[Kept]) -> Result<(), ResumeFault>
    ensures { cause result ≡ kept_fault setup.now clean.now }
{
    for (place, kept) in clean.iter().enumerate() {
        if !can_show(setup, kept.key) {
            return Err(ResumeFault::Kept(place as u64));
        }
    }
    Ok(())
}

/// Whether what was saved is of such a plan, but for the faults of its updates. Err is the first fault.
pub fn check(setup: &Setup, saved: &Saved) -> Result<(), ResumeFault>
    requires { length saved.now.styles + length saved.now.updates < 2 ^ 64 }
    ensures { cause result ≡ form_fault setup.now saved.now }
{
    let styles = saved.styles.len();
    if styles != setup.maps().len() {
        return Err(ResumeFault::Maps(styles as u64));
    }
    check_styles(setup, saved.styles.as_slice())?;
    check_updates(setup, styles as u64, saved.updates.as_slice())?;
    check_clean(setup, saved.clean.as_slice())
}

/// The fault of an update at that place of what was saved.
pub fn refused_at(place: u64, fault: ApplyFault) -> ResumeFault
    ensures { result ≡ refused_at place fault }
{
    match fault {
        ApplyFault::NoMemory => ResumeFault::NoMemory,
        other => ResumeFault::Apply(place, other),
    }
}
