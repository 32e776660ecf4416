//! The trait of ports.
ghost use Rattle.std.specs.Prelude.{◌≡◌, ◌≤◌, length, IfOk};
ghost use Rattle.reactor_ports.specs.Told.{PortsTold, Hears, IsPieceOf, Sends, Listens, Closes, IsOpen, EventCounts, SendCounts, ListenCounts};
ghost use Rattle.farm_base.specs.Outside.{Outside};

use crate::events::{PortEvent, PortFault, SendFault};
use farm_base::Bells;

/// Many connections as one list of events. Where ports tell, contracts know their record so far, and
/// of each connection the bytes taken and whether it is open; real sockets do not tell. No call
/// changes whether they tell.
pub trait Ports {
    /// What the ports tell, if they do, and how often listening, a connection or the ports failed: a
    /// count that never falls, and stands still at its last value, `2^64 - 1`.
    ghost state: { Self → Outside PortsTold };

    /// Listens at this address, `tcp:a.b.c.d:port` or `unix:` and a path. Failed comes only where the
    /// count of faults rose in this call.
    fn listen(&mut self, address: &str) -> Result<(), PortFault>
        ensures told { Listens address.now result (state self.old).told (state self.new).told }
        ensures cause { ListenCounts (state self.old).faults (state self.new).faults result };

    /// The next event; may wait for it. After Bytes `room` holds the piece. Lost and Broken come only
    /// where the count of faults rose in this call.
    fn next(&mut self, room: &mut Vec<u8>) -> PortEvent
        ensures told { Hears result room.new.items (state self.old).told (state self.new).told }
        ensures piece { IsPieceOf result room.new.items }
        ensures cause { EventCounts (state self.old).faults (state self.new).faults result };

    /// Offers bytes to the connection, and answers how many of them were taken from their front, which
    /// may be none. Failed comes only where the count of faults rose in this call.
    fn send(&mut self, conn: u32, bytes: &[u8]) -> Result<usize, SendFault>
        requires { IsOpen conn (state self.old).told }
        ensures told { Sends conn bytes.now result (state self.old).told (state self.new).told }
        ensures count { IfOk result (λ n. n ≤ length bytes.now) }
        ensures cause { SendCounts (state self.old).faults (state self.new).faults result };

    /// Ends the connection.
    fn close(&mut self, conn: u32)
        requires { IsOpen conn (state self.old).told }
        ensures told { Closes conn (state self.old).told (state self.new).told }
        ensures same { (state self.new).faults ≡ (state self.old).faults };
}

/// The ports of the three fronts, and a bell for each of them.
#[derive(Drop)]
pub struct ThreePorts<P, B> {
    pub renderd: P,
    pub tiles: P,
    pub control: P,
    pub bells: Bells<B>,
}
