//! What a command puts on out, and how its end is told on err.
ghost use Rattle.std.specs.Prelude.{◌≡◌};
ghost use Rattle.exit_status.specs.Stops.{told_of};
ghost use Rattle.exit_status.specs.inner.Told as spec;
ghost use Rattle.exit_status.specs.Ends.{PutsAll, Reports};

use crate::stops::Stop;
use farm_base::Sink;

/// Puts all bytes.
pub fn put<O: Sink>(out: &mut O, bytes: &[u8]) -> Result<(), Stop>
    ensures { PutsAll (O.state out.old) (O.state out.new) bytes.now result }
{
    match out.put(bytes) {
        Ok(()) => Ok(()),
        Err(_) => Err(Stop::SinkFailed),
    }
}

const USAGE: &str =
    "usage: tilefarm render STYLE DATA T Z X Y | script CONFIG SCRIPT | serve CONFIG | load SEED N | meta FILE\n";

fn status_of(end: &Result<(), Stop>) -> u8
    ensures { result ≡ spec.status_of end.now }
{
    match end {
        Ok(()) => 0,
        Err(Stop::Refused(_)) => 1,
        Err(Stop::Words) => 2,
        Err(Stop::Unreadable(_)) => 3,
        Err(Stop::SinkFailed) => 4,
        Err(Stop::NoMemory) => 5,
        Err(Stop::StoreFailed) => 6,
        Err(Stop::PortsFailed) => 7,
        Err(Stop::TurnsUsedUp) => 8,
    }
}

fn err_line(end: &Result<(), Stop>) -> &str
    ensures { result.now ≡ spec.err_line end.now }
{
    match end {
        Ok(()) => "",
        Err(Stop::Refused(line)) => line.as_str(),
        Err(Stop::Words) => USAGE,
        Err(Stop::Unreadable(line)) => line.as_str(),
        Err(Stop::SinkFailed) => "",
        Err(Stop::NoMemory) => "tilefarm: out of memory\n",
        Err(Stop::StoreFailed) => "tilefarm: the store failed\n",
        Err(Stop::PortsFailed) => "tilefarm: the ports failed\n",
        Err(Stop::TurnsUsedUp) => "tilefarm: turns used up\n",
    }
}

/// Puts the line of an end on err, if it has one, and answers the status; 4 where that put failed.
pub fn report<E: Sink>(err: &mut E, end: &Result<(), Stop>) -> u8
    ensures { Reports (told_of end.now) (E.state err.old) (E.state err.new) result }
{
    let status = status_of(end);
    let line = err_line(end);
    if line.is_empty() {
        return status;
    }
    match err.put(line.as_bytes()) {
        Ok(()) => status,
        Err(_) => 4,
    }
}
