//! Bytes are offered to the connections that have a reason to get them.
ghost use Rattle.std.specs.Prelude.{◌≡◌, ◌≤◌, true};
ghost use Rattle.front_loop.specs.Front.{rules_in};
ghost use Rattle.front_loop.specs.inner.Sessions.{is_up};
ghost use Rattle.front_loop.specs.inner.Stages.{Gives, OffersOne, disposition_after};
ghost use Rattle.front_loop.specs.inner.Moments.{at, MayOffer, OffersAll};
ghost use Rattle.reactor_ports.specs.Boxes.{HasRest, rest_in};
ghost use Rattle.reactor_ports.specs.Told.{IsOpen};

use crate::context::Context;
use crate::dispositions::{Disposition, Reason};
use crate::farm::Farm;
use crate::front::Front;
use crate::hearing::is_kept;
use crate::sessions::{Session, SessionTable};
use reactor_ports::{Outbox, Ports, SendFault};

/// What an offer of a connection's rest did.
#[derive(Clone, Copy)]
pub enum Gave {
    /// Nothing was due.
    Nothing,
    /// Some bytes are left.
    Part,
    /// All bytes were taken.
    All,
    /// The send failed.
    Failed,
    /// Want of memory; nothing was taken.
    NoMemory,
}

fn give<P: Ports>(outbox: &mut Outbox, conn: u32, ports: &mut P) -> Gave
    requires rest { HasRest outbox.old conn }
    requires open { IsOpen conn (P.state ports.old).told }
    ensures gives { Gives conn (rest_in outbox.old conn) outbox.old outbox.new
        (P.state ports.old).told (P.state ports.new).told result }
    ensures count { (P.state ports.old).faults ≤ (P.state ports.new).faults }
{
    if outbox.rest(conn).is_empty() {
        return Gave::Nothing;
    }
    match outbox.offer(conn, ports) {
        Ok(()) => {
            if outbox.rest(conn).is_empty() {
                Gave::All
            } else {
                Gave::Part
            }
        }
        Err(SendFault::Failed) => Gave::Failed,
        Err(SendFault::NoMemory) => Gave::NoMemory,
    }
}

fn disposition_of_offer(gave: Gave, done: bool, disposition: Disposition) -> Disposition
    ensures { result ≡ disposition_after gave done disposition }
{
    match gave {
        Gave::Nothing | Gave::Part => disposition,
        Gave::All => {
            if done {
                Disposition::Leaves(Reason::SentWhole)
            } else {
                disposition
            }
        }
        Gave::Failed => Disposition::Leaves(Reason::SendFailed),
        Gave::NoMemory => Disposition::Leaves(Reason::Starved),
    }
}

fn offer_one<R, M: Farm, F: Front, P: Ports>(
    work: &Context<'_, R, M, F>,
    session: &mut Session<F::ConnState>,
    outbox: &mut Outbox,
    ports: &mut P,
)
    requires rest { HasRest outbox.old session.old.conn }
    requires open { is_up session.old.disposition ≡ true
        → IsOpen session.old.conn (P.state ports.old).told }
    ensures offers { OffersOne (rules_in F.rules M.map_at work.now) F.knows session.old session.new
        outbox.old outbox.new (P.state ports.old).told (P.state ports.new).told }
    ensures count { (P.state ports.old).faults ≤ (P.state ports.new).faults }
{
    if !session.owes || !is_kept(session.disposition) {
        return;
    }
    session.owes = false;
    let gave = give(outbox, session.conn, ports);
    let done = work.front.is_done(&session.conn_state);
    session.disposition = disposition_of_offer(gave, done, session.disposition);
}

/// Offers every session its bytes that owes that.
pub fn offer_all<R, M: Farm, F: Front, P: Ports>(
    work: &Context<'_, R, M, F>,
    table: &mut SessionTable<F::ConnState>,
    ports: &mut P,
)
    requires ready { (seat : M.Seat)
        × MayOffer (rules_in F.rules M.map_at work.now) F.knows (M.seats work.now.farm.now)
        (at (P.state ports.old) seat table.old) }
    ensures goes { (seat : M.Seat)
        → OffersAll (rules_in F.rules M.map_at work.now) F.knows (M.seats work.now.farm.now)
        (at (P.state ports.old) seat table.old) (at (P.state ports.new) seat table.new) }
    ensures count { (P.state ports.old).faults ≤ (P.state ports.new).faults }
{
    for place in 0..table.sessions.len() {
        offer_one(
            work,
            &mut table.sessions[place],
            &mut table.answers.outbox,
            ports,
        );
    }
}
