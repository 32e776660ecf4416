//! Why a run ended.
ghost use Rattle.std.specs.Prelude.{◌≡◌};
ghost use Rattle.std.specs.List.{list_any};
ghost use Rattle.farm_call.specs.Endings as spec;

use exit_status::Stop;
use reactor_ports::FrontEnd;

// Whether a front ended since all turns were drawn.
fn any_worn(ends: &[FrontEnd]) -> bool
    ensures { result ≡ list_any spec.is_front_worn ends.now }
{
    ends.iter().any(|end| matches!(end, FrontEnd::Worn))
}

fn any_broken(ends: &[FrontEnd]) -> bool
    ensures { result ≡ list_any spec.is_broken ends.now }
{
    ends.iter().any(|end| matches!(end, FrontEnd::Broken))
}

// Whether a front ended for want of memory.
fn any_wanting(ends: &[FrontEnd]) -> bool
    ensures { result ≡ list_any spec.is_wanting ends.now }
{
    ends.iter().any(|end| matches!(end, FrontEnd::NoMemory))
}

/// How a call ends whose fronts ended so, before anything is saved. `worn` says that all turns were drawn, as a worker or
/// the run itself met it. The first that holds: TurnsUsedUp where all turns were drawn, PortsFailed where a front's ports
/// broke, NoMemory where a front ended for that, and else Ok.
pub fn why_ended(worn: bool, ends: &[FrontEnd]) -> Result<(), Stop>
    ensures { result ≡ spec.why_ended worn ends.now }
{
    if worn || any_worn(ends) {
        return Err(Stop::TurnsUsedUp);
    }
    if any_broken(ends) {
        return Err(Stop::PortsFailed);
    }
    if any_wanting(ends) {
        return Err(Stop::NoMemory);
    }
    Ok(())
}
