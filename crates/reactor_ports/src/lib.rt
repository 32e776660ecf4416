//! Ports: many connections as one list of events. The trait and what ports tell, ports in memory, which play a script
//! of what happens on connections to a front, ports over the system's sockets, TCP and Unix, with the bell that wakes
//! them, the outbox that keeps what was answered and not yet taken, and what a front answers at its end.
//!
//! What is proved: The trait of ports: where ports tell, each call is one equation over what they tell (`heard`,
//! `after_send`, `after_listen`, `after_close`); whether they tell or not, a listen, a send, `Lost` and `Broken` are
//! failures only where the count rose, and a piece has 1 to 4,096 bytes. `MemPorts`: which event comes next and what it
//! changes, what a send takes and which fail, what a listen and a close do, exactly (`Plays`, `SendsHeld`,
//! `ListensHeld`); `Finished` only where the script is through or an Await has used its turns (`over`), and there it
//! comes (`law_finished_where_over`); `are_valid` says which scripts are in order. (That an Await waits for its bytes,
//! and no longer, is in no contract.) `SocketPorts` keeps the trait without telling its content: it counts its failures.
//! `Outbox`: each call exactly; `Full` exactly past 1,048,576 bytes; `offer` makes one send of the whole rest or none; a
//! connection stands in it once (`law_connections_stand_once`).
#![tactic(auto)]

mod address;
mod ends;
mod events;
mod laws;
mod links;
mod mem_counts;
mod mem_laws;
mod mem_ports;
mod outbox;
mod peers;
mod playing;
mod port_steps;
mod ports;
mod scripts;
mod socket_ports;
mod streams;

pub use ends::{FrontDone, FrontEnd, Rest};
pub use events::{PortEvent, PortFault, PortItem, SendFault};
pub use laws::law_connections_stand_once;
pub use mem_laws::law_finished_where_over;
pub use mem_ports::MemPorts;
pub use outbox::{BoxFault, Outbox, drop_front};
pub use port_steps::PortStep;
pub use ports::{Ports, ThreePorts};
pub use scripts::are_valid;
pub use socket_ports::{SocketBell, SocketPorts};
