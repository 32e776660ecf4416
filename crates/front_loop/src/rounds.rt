//! Rounds, one after another, until the front ends.
ghost use Rattle.std.specs.Prelude.{◌≡◌, ◌≢◌, ◌≤◌, ◌+◌, [], true, Some, OnErr, IfOk, map};
ghost use Rattle.front_loop.specs.Calls.{SameSeat};
ghost use Rattle.front_loop.specs.Front.{IsServed, rules_in};
ghost use Rattle.farm_base.specs.Outside.{Counted};
ghost use Rattle.reactor_ports.specs.Boxes.{as_rest};
ghost use Rattle.reactor_ports.specs.declared.events.PortEvent.TheVariants as event;
ghost use Rattle.reactor_ports.specs.declared.ends.FrontEnd.TheVariants as ended;
ghost use Rattle.front_loop.specs.inner.Stages.{StopsAfter, end_of};
ghost use Rattle.front_loop.specs.inner.Moments.{at, MayStart, Plays, MayGo, GoesOnce, GoesOn};

use crate::closing::close_all;
use crate::collecting::collect_all;
use crate::context::Context;
use crate::farm::Farm;
use crate::front::Front;
use crate::hearing::{Came, take_event};
use crate::offering::offer_all;
use crate::sessions::SessionTable;
use farm_base::Worn;
use farm_shared::Stop;
use reactor_ports::{FrontDone, FrontEnd, PortEvent, Ports};
use std::sync::Wait;

fn end_after(event: PortEvent, stopped: bool) -> Option<FrontEnd>
    ensures end { result ≡ end_of event stopped }
    ensures unbroken { result ≢ Some ended.Broken }
{
    if stopped {
        return Some(FrontEnd::Stopped);
    }
    match event {
        PortEvent::Finished => Some(FrontEnd::Finished),
        _ => None,
    }
}

fn play<R: Wait, M: Farm, F: Front, P: Ports>(
    work: &Context<'_, R, M, F>,
    seat: &mut M::Seat,
    table: &mut SessionTable<F::ConnState>,
    ports: &mut P,
    came: &Came<'_>,
) -> Result<Option<FrontEnd>, Worn>
    requires seat { (M.seats work.now.farm.now).is_seat seat.old }
    requires number { (M.seats work.now.farm.now).number seat.old
        ≡ (rules_in F.rules M.map_at work.now).number + 1 }
    requires begins { came.now.event ≢ event.Broken }
    requires memory { came.now.event ≢ event.NoMemory }
    requires ready { MayStart (rules_in F.rules M.map_at work.now) F.knows
        (M.seats work.now.farm.now) came.now (at (P.state ports.old) seat.old table.old) }
    ensures seat { SameSeat (M.seats work.now.farm.now) seat.old seat.new }
    ensures worn { OnErr result ((M.seats work.now.farm.now).worn seat.new ≡ true) }
    ensures count { (P.state ports.old).faults ≤ (P.state ports.new).faults }
    ensures unbroken { IfOk result (λ end. end ≢ Some ended.Broken) }
    ensures goes { Plays (rules_in F.rules M.map_at work.now) F.knows (M.seats work.now.farm.now)
        came.now (at (P.state ports.old) seat.old table.old)
        (at (P.state ports.new) seat.new table.new) result }
{
    let Ok(()) = take_event(work, seat, table, ports, came) else {
        return Err(Worn);
    };
    let Ok(stopped) = collect_all(work, seat, table) else {
        return Err(Worn);
    };
    offer_all(work, table, ports);
    let Ok(()) = close_all(work, seat, table, ports) else {
        return Err(Worn);
    };
    Ok(end_after(came.event, stopped))
}

fn round<R: Wait, M: Farm, F: Front, P: Ports>(
    work: &Context<'_, R, M, F>,
    seat: &mut M::Seat,
    table: &mut SessionTable<F::ConnState>,
    ports: &mut P,
    room: &mut Vec<u8>,
) -> Result<Option<FrontEnd>, Worn>
    requires seat { (M.seats work.now.farm.now).is_seat seat.old }
    requires number { (M.seats work.now.farm.now).number seat.old
        ≡ (rules_in F.rules M.map_at work.now).number + 1 }
    requires ready { MayGo (rules_in F.rules M.map_at work.now) F.knows (M.seats work.now.farm.now)
        (at (P.state ports.old) seat.old table.old) }
    ensures seat { SameSeat (M.seats work.now.farm.now) seat.old seat.new }
    ensures worn { OnErr result ((M.seats work.now.farm.now).worn seat.new ≡ true) }
    ensures count { (P.state ports.old).faults ≤ (P.state ports.new).faults }
    ensures broken { IfOk result
        (λ end.
        end ≡ Some ended.Broken → Counted (P.state ports.old).faults (P.state ports.new).faults) }
    ensures goes { GoesOnce (rules_in F.rules M.map_at work.now) F.knows (M.seats work.now.farm.now)
        (at (P.state ports.old) seat.old table.old) (at (P.state ports.new) seat.new table.new)
        result }
{
    let event = ports.next(room);
    match event {
        PortEvent::Broken => Ok(Some(FrontEnd::Broken)),
        PortEvent::NoMemory => Ok(Some(FrontEnd::NoMemory)),
        _ => {
            let piece = room.as_slice();
            play(work, seat, table, ports, &Came { event, piece })
        }
    }
}

fn run<R: Wait, M: Farm, F: Front, P: Ports>(
    work: &Context<'_, R, M, F>,
    seat: &mut M::Seat,
    table: &mut SessionTable<F::ConnState>,
    ports: &mut P,
) -> Result<FrontEnd, Worn>
    requires seat { (M.seats work.now.farm.now).is_seat seat.old }
    requires number { (M.seats work.now.farm.now).number seat.old
        ≡ (rules_in F.rules M.map_at work.now).number + 1 }
    requires ready { MayGo (rules_in F.rules M.map_at work.now) F.knows (M.seats work.now.farm.now)
        (at (P.state ports.old) seat.old table.old) }
    ensures seat { SameSeat (M.seats work.now.farm.now) seat.old seat.new }
    ensures worn { OnErr result ((M.seats work.now.farm.now).worn seat.new ≡ true) }
    ensures broken { IfOk result
        (λ end. end ≡ ended.Broken
        → Counted (P.state ports.old).faults (P.state ports.new).faults) }
    ensures goes { GoesOn (rules_in F.rules M.map_at work.now) F.knows (M.seats work.now.farm.now)
        (at (P.state ports.old) seat.old table.old) (at (P.state ports.new) seat.new table.new)
        result }
{
    let mut room = Vec::new(work.alloc);
    for _ in work.rt.forever() {
        let Ok(end) = round(work, seat, table, ports, &mut room) else {
            return Err(Worn);
        };
        if let Some(end) = end {
            return Ok(end);
        }
    }
    unreachable!()
}

// A front that ends otherwise than Finished stops the farm.
fn stop_after<R: Wait, M: Farm>(rt: &R, farm: &M, seat: &mut M::Seat, end: FrontEnd) -> FrontEnd
    requires { (M.seats farm.now).is_seat seat.old }
    ensures seat { SameSeat (M.seats farm.now) seat.old seat.new }
    ensures stops { StopsAfter end result ((M.seats farm.now).mine seat.old)
        ((M.seats farm.now).mine seat.new) ((M.seats farm.now).worn seat.new) }
    ensures broken { result ≡ ended.Broken → end ≡ ended.Broken }
{
    if end == FrontEnd::Finished {
        return FrontEnd::Finished;
    }
    match farm.turn(rt, seat, Stop) {
        Ok(()) => end,
        Err(Worn) => FrontEnd::Worn,
    }
}

// What is handed back of a front that has ended.
fn done_by<T: Drop>(table: SessionTable<T>, end: FrontEnd, front: u32) -> FrontDone
    ensures end { result.end ≡ end }
    ensures rests { result.rests.items ≡ map (as_rest front) table.answers.outbox }
    ensures starved { result.starved ≡ table.starved }
{
    let answers = table.answers;
    let rests = answers.outbox.into_rests(front);
    FrontDone {
        end,
        rests,
        starved: table.starved,
    }
}

/// Serves the connections of the ports until the front ends. It ends Finished where its ports finished,
/// Stopped where the farm was stopped, Broken where its ports broke, NoMemory where they found no
/// memory, and Worn where the farm's limit of turns was drawn. Where it ends otherwise than Finished or
/// Worn it stops the farm. Broken comes only where the ports' count of faults rose in this call.
pub fn serve<R: Wait, M: Farm, F: Front, P: Ports>(
    work: &Context<'_, R, M, F>,
    seat: &mut M::Seat,
    ports: &mut P,
) -> FrontDone
    requires seat { (M.seats work.now.farm.now).is_seat seat.old }
    requires number { (M.seats work.now.farm.now).number seat.old
        ≡ (rules_in F.rules M.map_at work.now).number + 1 }
    requires fresh { (M.seats work.now.farm.now).mine seat.old ≡ [] }
    ensures seat { SameSeat (M.seats work.now.farm.now) seat.old seat.new }
    ensures served { IsServed (rules_in F.rules M.map_at work.now) (M.seats work.now.farm.now)
        (P.state ports.old).told (P.state ports.new).told seat.new result }
    ensures broken { result.end ≡ ended.Broken
        → Counted (P.state ports.old).faults (P.state ports.new).faults }
{
    let mut table = SessionTable::new(work.alloc);
    let front = work.front.number();
    match run(work, seat, &mut table, ports) {
        Ok(end) => {
            let end = stop_after(work.rt, work.farm, seat, end);
            done_by(table, end, front)
        }
        Err(Worn) => done_by(table, FrontEnd::Worn, front),
    }
}
