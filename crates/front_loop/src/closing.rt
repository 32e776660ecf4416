//! Connections are left.
ghost use Rattle.std.specs.Prelude.{◌≡◌, ◌+◌, ◌-◌, ◌^◌, true, length, min, OnErr, OnOk, IfSome, IfNone};
ghost use Rattle.farm_history.specs.Lists.{Each};
ghost use Rattle.front_loop.specs.Calls.{SameSeat};
ghost use Rattle.front_loop.specs.Front.{rules_in};
ghost use Rattle.front_loop.specs.Rounds.{with_starved};
ghost use Rattle.front_loop.specs.inner.Sessions.{is_up, IsLeaving, StaysOn};
ghost use Rattle.front_loop.specs.declared.dispositions.Disposition.TheVariants as disposition;
ghost use Rattle.front_loop.specs.inner.Stages.{Shuts};
ghost use Rattle.front_loop.specs.inner.Moments.{at, MayLeave, LeavesOne, LeavesAll};
ghost use Rattle.reactor_ports.specs.Told.{IsOpen};

use crate::context::Context;
use crate::dispositions::{Disposition, Reason};
use crate::farm::Farm;
use crate::front::Front;
use crate::sessions::{Session, SessionTable};
use farm_base::Worn;
use farm_history::Conn;
use farm_shared::Leave;
use reactor_ports::Ports;
use std::sync::Wait;

// A session that leaves: its place, its connection, and why.
fn leaving<T>(sessions: &[Session<T>]) -> Option<(usize, u32, Reason)>
    ensures some { IfSome result (λ p. IsLeaving sessions.now p.0 p.1 p.2) }
    ensures none { IfNone result (Each StaysOn sessions.now) }
{
    let first = sessions.iter().position(|session| matches!(
        session.disposition,
        Disposition::Leaves(_)
    ));
    match first {
        Some(place) => match sessions[place].disposition {
            Disposition::Stays => unreachable!(),
            Disposition::Leaves(why) => Some((place, sessions[place].conn, why)),
        },
        None => None,
    }
}

// Closes the connection, if it is still open.
fn shut<P: Ports>(ports: &mut P, conn: u32, why: Reason)
    requires { is_up (disposition.Leaves why) ≡ true → IsOpen conn (P.state ports.old).told }
    ensures told { Shuts conn why (P.state ports.old).told (P.state ports.new).told }
    ensures count { (P.state ports.new).faults ≡ (P.state ports.old).faults }
{
    if !matches!(why, Reason::Lost | Reason::SendFailed) {
        ports.close(conn);
    }
}

fn starved_after(starved: u64, why: Reason) -> u64
    ensures { result ≡ min (with_starved starved why) (2 ^ 64 - 1) }
{
    match why {
        Reason::Starved => starved.saturating_add(1),
        _ => starved,
    }
}

fn close_one<R: Wait, M: Farm, F: Front, P: Ports>(
    work: &Context<'_, R, M, F>,
    seat: &mut M::Seat,
    table: &mut SessionTable<F::ConnState>,
    ports: &mut P,
    left: (usize, u32, Reason),
) -> Result<(), Worn>
    requires seat { (M.seats work.now.farm.now).is_seat seat.old }
    requires number { (M.seats work.now.farm.now).number seat.old
        ≡ (rules_in F.rules M.map_at work.now).number + 1 }
    requires leaving { IsLeaving table.old.sessions.items left.0 left.1 left.2 }
    requires ready { MayLeave (rules_in F.rules M.map_at work.now) F.knows
        (M.seats work.now.farm.now) (at (P.state ports.old) seat.old table.old) }
    ensures seat { SameSeat (M.seats work.now.farm.now) seat.old seat.new }
    ensures worn { OnErr result ((M.seats work.now.farm.now).worn seat.new ≡ true) }
    ensures count { (P.state ports.new).faults ≡ (P.state ports.old).faults }
    ensures fewer { OnOk result
        (length table.new.sessions.items + 1 ≡ length table.old.sessions.items) }
    ensures goes { LeavesOne (rules_in F.rules M.map_at work.now) F.knows
        (M.seats work.now.farm.now) (at (P.state ports.old) seat.old table.old)
        (at (P.state ports.new) seat.new table.new) result }
{
    let (place, conn, why) = left;
    let conn_left = Conn {
        front: work.front.number(),
        number: conn,
    };
    let Ok(_asks) = work.farm.turn(work.rt, seat, Leave { conn: conn_left }) else {
        return Err(Worn);
    };
    shut(ports, conn, why);
    table.answers.outbox.forget(conn);
    table.starved = starved_after(table.starved, why);
    table.sessions.remove(place);
    Ok(())
}

/// Leaves every connection that leaves.
pub fn close_all<R: Wait, M: Farm, F: Front, P: Ports>(
    work: &Context<'_, R, M, F>,
    seat: &mut M::Seat,
    table: &mut SessionTable<F::ConnState>,
    ports: &mut P,
) -> Result<(), Worn>
    requires seat { (M.seats work.now.farm.now).is_seat seat.old }
    requires number { (M.seats work.now.farm.now).number seat.old
        ≡ (rules_in F.rules M.map_at work.now).number + 1 }
    requires ready { MayLeave (rules_in F.rules M.map_at work.now) F.knows
        (M.seats work.now.farm.now) (at (P.state ports.old) seat.old table.old) }
    ensures seat { SameSeat (M.seats work.now.farm.now) seat.old seat.new }
    ensures worn { OnErr result ((M.seats work.now.farm.now).worn seat.new ≡ true) }
    ensures count { (P.state ports.new).faults ≡ (P.state ports.old).faults }
    ensures goes { LeavesAll (rules_in F.rules M.map_at work.now) F.knows
        (M.seats work.now.farm.now) (at (P.state ports.old) seat.old table.old)
        (at (P.state ports.new) seat.new table.new) result }
{
    while let Some((place, conn, why)) = leaving(table.sessions.as_slice()) {
        let Ok(()) = close_one(work, seat, table, ports, (place, conn, why)) else {
            return Err(Worn);
        };
    }
    Ok(())
}
