//! Laws of the definitions.
ghost use Rattle.reactor_ports.specs.Boxes.{ConnectionsStandOnce};

/// A connection stands once in an outbox: whatever its calls change keeps that.
pub fn law_connections_stand_once()
    ensures { ConnectionsStandOnce }
{}
