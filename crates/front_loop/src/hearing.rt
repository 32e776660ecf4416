//! A round begins: its event, and the requests that become whole by it.
ghost use Rattle.std.specs.Prelude.{◌≡◌, ◌≢◌, ◌+◌, ◌-◌, ◌^◌, ◌++◌, ◌∷◌, [], true, None, OnErr, OnOk, cond, min, map, nat_lt, length, option_map};
ghost use Rattle.farm_base.specs.Limits.{most_sessions};
ghost use Rattle.farm_base.specs.Outside.{Outside};
ghost use Rattle.front_loop.specs.Calls.{SameSeat};
ghost use Rattle.front_loop.specs.Front.{keeps, rules_in};
ghost use Rattle.front_loop.specs.inner.Sessions.{owing, woken, keys, conns, newcomer};
ghost use Rattle.front_loop.specs.inner.Stages.{Settles, Admits, Opens, MarksAt, marked};
ghost use Rattle.front_loop.specs.inner.Moments.{at, MayStart, Starts, MayHear, HearsPiece, HearsOn};
ghost use Rattle.reactor_ports.specs.Boxes.{HasRest, rest_at};
ghost use Rattle.reactor_ports.specs.Told.{PortsTold, IsOpen, after_close};
ghost use Rattle.reactor_ports.specs.declared.events.PortEvent.TheVariants as event;

use crate::context::{Context, Piece};
use crate::dispositions::{Disposition, Reason};
use crate::farm::Farm;
use crate::front::Front;
use crate::sessions::{Answers, Session, SessionTable, place_of};
use farm_base::{MOST_SESSIONS, NoMemory, Worn};
use reactor_ports::{BoxFault, Outbox, PortEvent, Ports};
use std::alloc::Global;
use std::sync::Wait;

/// What came: an event, and the bytes of its piece.
#[derive(Clone, Copy)]
pub struct Came<'a> {
    pub event: PortEvent,
    pub piece: &'a [u8],
}

/// Whether the bytes of a session are still kept and answered.
pub fn is_kept(disposition: Disposition) -> bool
    ensures { result ≡ keeps disposition }
{
    matches!(
        disposition,
        Disposition::Stays | Disposition::Leaves(Reason::Unread)
    )
}

/// Whether a session owes an offer, after something was said, or nothing.
pub fn owes_after(owes: bool, response: &[u8], disposition: Disposition) -> bool
    ensures { result ≡ owing owes response.now disposition }
{
    owes || !response.is_empty() || matches!(disposition, Disposition::Leaves(Reason::Unread))
}

/// Puts what was said behind the rest of a connection whose bytes are kept.
pub fn settle(
    outbox: &mut Outbox,
    conn: u32,
    response: &mut Vec<u8>,
    disposition: Disposition,
) -> Disposition
    requires { HasRest outbox.old conn }
    ensures { Settles conn response.old.items disposition result outbox.old outbox.new }
{
    if !is_kept(disposition) {
        return disposition;
    }
    match outbox.answer_with(conn, response) {
        Ok(()) => disposition,
        Err(BoxFault::Full) => Disposition::Leaves(Reason::Full),
        Err(BoxFault::NoMemory) => Disposition::Leaves(Reason::Starved),
    }
}

fn hear_one<R: Wait, M: Farm, F: Front>(
    work: &Context<'_, R, M, F>,
    seat: &mut M::Seat,
    session: &mut Session<F::ConnState>,
    answers: &mut Answers,
    bytes: &[u8],
) -> Result<(), Worn>
    requires seat { (M.seats work.now.farm.now).is_seat seat.old }
    requires number { (M.seats work.now.farm.now).number seat.old
        ≡ (rules_in F.rules M.map_at work.now).number + 1 }
    requires rest { HasRest answers.old.outbox session.old.conn }
    ensures seat { SameSeat (M.seats work.now.farm.now) seat.old seat.new }
    ensures worn { OnErr result ((M.seats work.now.farm.now).worn seat.new ≡ true) }
    ensures heard { HearsOn (rules_in F.rules M.map_at work.now) F.knows (M.seats work.now.farm.now)
        bytes.now seat.old seat.new session.old session.new answers.old.outbox answers.new.outbox
        result }
{
    let response = &mut answers.response;
    response.clear();
    let piece = Piece {
        conn: session.conn,
        bytes,
    };
    let Ok(disposition) = F::hear(work, seat, &mut session.conn_state, &piece, response) else {
        return Err(Worn);
    };
    session.owes = owes_after(session.owes, response.as_slice(), disposition);
    session.disposition = settle(&mut answers.outbox, session.conn, response, disposition);
    Ok(())
}

fn hear<R: Wait, M: Farm, F: Front>(
    work: &Context<'_, R, M, F>,
    seat: &mut M::Seat,
    table: &mut SessionTable<F::ConnState>,
    conn: u32,
    piece: &[u8],
) -> Result<(), Worn>
    requires seat { (M.seats work.now.farm.now).is_seat seat.old }
    requires number { (M.seats work.now.farm.now).number seat.old
        ≡ (rules_in F.rules M.map_at work.now).number + 1 }
    requires ready { (o : Outside PortsTold)
        × MayHear (rules_in F.rules M.map_at work.now) F.knows (M.seats work.now.farm.now) conn
        piece.now (at o seat.old table.old) }
    ensures seat { SameSeat (M.seats work.now.farm.now) seat.old seat.new }
    ensures worn { OnErr result ((M.seats work.now.farm.now).worn seat.new ≡ true) }
    ensures goes { (o : Outside PortsTold)
        → HearsPiece (rules_in F.rules M.map_at work.now) F.knows (M.seats work.now.farm.now) conn
        piece.now (at o seat.old table.old) (at o seat.new table.new) result }
{
    let Some(place) = place_of(table.sessions.as_slice(), conn) else {
        return Ok(());
    };
    hear_one(
        work,
        seat,
        &mut table.sessions[place],
        &mut table.answers,
        piece,
    )
}

fn add<T: Drop>(
    alloc: Global,
    table: &mut SessionTable<T>,
    conn: u32,
    conn_state: T,
) -> Result<(), NoMemory>
    requires { rest_at table.old.answers.outbox conn ≡ None }
    ensures sessions { OnOk result
        (table.new.sessions.items ≡ table.old.sessions.items ++ newcomer conn conn_state ∷ []) }
    ensures outbox { OnOk result
        (table.new.answers.outbox ≡ table.old.answers.outbox ++ (conn, []) ∷ []) }
    ensures refused { OnErr result
        ((table.new.sessions.items ≡ table.old.sessions.items)
        × (table.new.answers.outbox ≡ table.old.answers.outbox)) }
    ensures starved { table.new.starved ≡ table.old.starved }
{
    table.sessions.reserve(1)?;
    table.answers.outbox.begin(alloc, conn)?;
    table
        .sessions
        .push(Session {
            conn,
            conn_state,
            disposition: Disposition::Stays,
            owes: false,
        })
        .unwrap();
    Ok(())
}

// Makes a session of a connection, unless it is there, or 1,024 are, or memory is wanting; answers
// whether it did.
fn admit<R, M: Farm, F: Front>(
    work: &Context<'_, R, M, F>,
    table: &mut SessionTable<F::ConnState>,
    conn: u32,
) -> bool
    requires { keys table.old.answers.outbox ≡ conns table.old.sessions.items }
    ensures { Admits (rules_in F.rules M.map_at work.now) F.knows conn table.old table.new result }
{
    if table.sessions.len() >= MOST_SESSIONS {
        return false;
    }
    match place_of(table.sessions.as_slice(), conn) {
        Some(_) => false,
        None => match add(work.alloc, table, conn, work.front.begin(work.alloc)) {
            Ok(()) => true,
            Err(NoMemory) => false,
        },
    }
}

fn refused_after(starved: u64, there: usize) -> u64
    ensures { result ≡ cond (nat_lt there most_sessions) (min (starved + 1) (2 ^ 64 - 1)) starved }
{
    if there < MOST_SESSIONS {
        starved.saturating_add(1)
    } else {
        starved
    }
}

fn refuse<T, P: Ports>(table: &mut SessionTable<T>, ports: &mut P, conn: u32)
    requires { IsOpen conn (P.state ports.old).told }
    ensures told { (P.state ports.new).told
        ≡ option_map (after_close conn) (P.state ports.old).told }
    ensures count { (P.state ports.new).faults ≡ (P.state ports.old).faults }
    ensures sessions { table.new.sessions.items ≡ table.old.sessions.items }
    ensures outbox { table.new.answers.outbox ≡ table.old.answers.outbox }
    ensures starved { table.new.starved
        ≡ cond (nat_lt (length table.old.sessions.items) most_sessions)
        (min (table.old.starved + 1) (2 ^ 64 - 1)) table.old.starved }
{
    ports.close(conn);
    table.starved = refused_after(table.starved, table.sessions.len());
}

fn open<R, M: Farm, F: Front, P: Ports>(
    work: &Context<'_, R, M, F>,
    table: &mut SessionTable<F::ConnState>,
    ports: &mut P,
    conn: u32,
)
    requires keys { keys table.old.answers.outbox ≡ conns table.old.sessions.items }
    requires open { IsOpen conn (P.state ports.old).told }
    ensures opens { Opens (rules_in F.rules M.map_at work.now) F.knows conn (P.state ports.old).told
        (P.state ports.new).told table.old table.new }
    ensures count { (P.state ports.new).faults ≡ (P.state ports.old).faults }
{
    match admit(work, table, conn) {
        true => {}
        false => refuse(table, ports, conn),
    }
}

fn mark<T>(session: &mut Session<T>, event: PortEvent)
    ensures { session.new ≡ marked event session.old }
{
    match event {
        PortEvent::Writable(_) => session.owes = true,
        PortEvent::Ended(_) => session.disposition = Disposition::Leaves(Reason::Ended),
        PortEvent::Lost(_) => session.disposition = Disposition::Leaves(Reason::Lost),
        _ => {}
    }
}

fn mark_at<T>(table: &mut SessionTable<T>, event: PortEvent, conn: u32)
    ensures { MarksAt event conn table.old table.new }
{
    let Some(place) = place_of(table.sessions.as_slice(), conn) else {
        return;
    };
    mark(&mut table.sessions[place], event);
}

/// An event came that begins a round.
pub fn take_event<R: Wait, M: Farm, F: Front, P: Ports>(
    work: &Context<'_, R, M, F>,
    seat: &mut M::Seat,
    table: &mut SessionTable<F::ConnState>,
    ports: &mut P,
    came: &Came<'_>,
) -> Result<(), Worn>
    requires seat { (M.seats work.now.farm.now).is_seat seat.old }
    requires number { (M.seats work.now.farm.now).number seat.old
        ≡ (rules_in F.rules M.map_at work.now).number + 1 }
    requires begins { came.now.event ≢ event.Broken }
    requires memory { came.now.event ≢ event.NoMemory }
    requires ready { MayStart (rules_in F.rules M.map_at work.now) F.knows
        (M.seats work.now.farm.now) came.now (at (P.state ports.old) seat.old table.old) }
    ensures seat { SameSeat (M.seats work.now.farm.now) seat.old seat.new }
    ensures worn { OnErr result ((M.seats work.now.farm.now).worn seat.new ≡ true) }
    ensures count { (P.state ports.new).faults ≡ (P.state ports.old).faults }
    ensures goes { Starts (rules_in F.rules M.map_at work.now) F.knows (M.seats work.now.farm.now)
        came.now (at (P.state ports.old) seat.old table.old)
        (at (P.state ports.new) seat.new table.new) result }
{
    match came.event {
        PortEvent::Opened(conn) => {
            open(work, table, ports, conn);
            Ok(())
        }
        PortEvent::Bytes(conn) => hear(work, seat, table, conn, came.piece),
        PortEvent::Writable(conn) => {
            mark_at(table, came.event, conn);
            Ok(())
        }
        PortEvent::Ended(conn) => {
            mark_at(table, came.event, conn);
            Ok(())
        }
        PortEvent::Lost(conn) => {
            mark_at(table, came.event, conn);
            Ok(())
        }
        PortEvent::Woken => {
            wake_all(table);
            Ok(())
        }
        PortEvent::Finished => {
            wake_all(table);
            Ok(())
        }
        PortEvent::Broken => unreachable!(),
        PortEvent::NoMemory => unreachable!(),
    }
}

fn wake_each<T>(sessions: &mut [Session<T>])
    ensures { sessions.new ≡ map woken sessions.old }
{
    for session in sessions.iter_mut() {
        session.owes = true;
    }
}

/// Every session of the table owes an offer.
pub fn wake_all<T>(table: &mut SessionTable<T>)
    ensures sessions { table.new.sessions.items ≡ map woken table.old.sessions.items }
    ensures outbox { table.new.answers.outbox ≡ table.old.answers.outbox }
    ensures starved { table.new.starved ≡ table.old.starved }
{
    wake_each(table.sessions.as_mut_slice());
}
