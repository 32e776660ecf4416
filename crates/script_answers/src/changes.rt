//! Changes of data and styles, and what is expired.
ghost use Rattle.std.specs.Prelude.{◌≡◌, IfOk, Some};
ghost use Rattle.script_answers.specs.Answers as spec;
ghost use Rattle.script_answers.specs.inner.Parts as parts;

use crate::asks::numbered;
use farm_base::{ApplyFault, NoMemory, Text};
use farm_history::{Renewed, Restyled, Updated};
use std::alloc::Global;

// An update that does not fit the data.
fn refused_line(alloc: Global, fault: ApplyFault) -> Result<Text, NoMemory>
    ensures { IfOk result (λ t. spec.fault_line fault ≡ Some t) }
{
    match fault {
        ApplyFault::NoLayer(_) => Text::of(alloc, "refused 1\n"),
        ApplyFault::NoFeature(_, _) => Text::of(alloc, "refused 2\n"),
        ApplyFault::TooMany(_) => Text::of(alloc, "refused 3\n"),
        ApplyFault::NoMemory => Err(NoMemory),
    }
}

/// The line of an update: `version V`, `noupdate` or `refused K`.
pub fn update_line(alloc: Global, answer: Updated) -> Result<Text, NoMemory>
    ensures { IfOk result (λ t. spec.update_line answer ≡ Some t) }
{
    match answer {
        Updated::Version(version) => numbered(alloc, "version ", version),
        Updated::NoUpdate => Text::of(alloc, "noupdate\n"),
        Updated::Refused(fault) => refused_line(alloc, fault),
    }
}

/// The line of a restyle: `styled C` or `norestyle`.
pub fn restyle_line(alloc: Global, answer: Restyled) -> Result<Text, NoMemory>
    ensures { IfOk result (λ t. t ≡ spec.restyle_line answer) }
{
    match answer {
        Restyled::Styled(count) => numbered(alloc, "styled ", count),
        Restyled::NoRestyle => Text::of(alloc, "norestyle\n"),
    }
}

fn renewed_line(alloc: Global, version: u64, count: u64) -> Result<Text, NoMemory>
    ensures { IfOk result (λ t. t ≡ parts.renewed_line version count) }
{
    Ok(Text::from_string(format!(in alloc; "version {version} renewed {count}\n")?))
}

/// The line of an update that expires what it reaches: `version V renewed C`, `noupdate` or
/// `refused K`.
pub fn renew_line(alloc: Global, answer: Renewed) -> Result<Text, NoMemory>
    ensures { IfOk result (λ t. spec.renew_line answer ≡ Some t) }
{
    match answer {
        Renewed::Version(version, count) => renewed_line(alloc, version, count),
        Renewed::NoUpdate => Text::of(alloc, "noupdate\n"),
        Renewed::Refused(fault) => refused_line(alloc, fault),
    }
}

/// The line of an expired tile, `expired N`.
pub fn expire_line(alloc: Global, count: u64) -> Result<Text, NoMemory>
    ensures { IfOk result (λ t. t ≡ spec.expire_line count) }
{
    numbered(alloc, "expired ", count)
}
