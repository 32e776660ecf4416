//! The ports of a farm are listened on.
ghost use Rattle.std.specs.Prelude.{◌≡◌, [], ◌∷◌};
ghost use Rattle.farm_call.specs.Listens.{ListenEnds, Listening};
ghost use Rattle.farm_call.specs.Listens as spec;

use exit_status::Stop;
use reactor_ports::{PortFault, Ports, ThreePorts};

// Why a call ends in which ports do not listen.
fn stop_of(fault: PortFault) -> Stop
    ensures { result ≡ spec.stop_of fault }
{
    match fault {
        PortFault::Failed => Stop::PortsFailed,
        PortFault::NoMemory => Stop::NoMemory,
    }
}

fn listen<P: Ports>(ports: &mut P, address: &str) -> Result<(), Stop>
    ensures { ListenEnds address.now (P.state ports.old) (P.state ports.new) result }
{
    match ports.listen(address) {
        Ok(()) => Ok(()),
        Err(fault) => Err(stop_of(fault)),
    }
}

/// Listens at these addresses, one for each front, in this order; the first that fails is the last. PortsFailed where it
/// failed.
pub fn listen_all<P: Ports, B>(
    ports: &mut ThreePorts<P, B>,
    renderd: &str,
    tiles: &str,
    control: &str,
) -> Result<(), Stop>
    ensures { Listening
        ((renderd.now, P.state ports.old.renderd, P.state ports.new.renderd)
        ∷ (tiles.now, P.state ports.old.tiles, P.state ports.new.tiles)
        ∷ (control.now, P.state ports.old.control, P.state ports.new.control) ∷ []) result }
{
    listen(&mut ports.renderd, renderd)?;
    listen(&mut ports.tiles, tiles)?;
    listen(&mut ports.control, control)
}
