//! Replies are collected until none comes.
ghost use Rattle.std.specs.Prelude.{◌≡◌, ◌+◌, true, OnErr};
ghost use Rattle.farm_base.specs.Outside.{Outside};
ghost use Rattle.front_loop.specs.Calls.{SameSeat};
ghost use Rattle.front_loop.specs.Front.{rules_in};
ghost use Rattle.front_loop.specs.inner.Sessions.{worse};
ghost use Rattle.front_loop.specs.inner.Moments.{at, MayCollect, Collects, CollectsAll, RepliesOn};
ghost use Rattle.reactor_ports.specs.Boxes.{HasRest};
ghost use Rattle.reactor_ports.specs.Told.{PortsTold};

use crate::context::Context;
use crate::dispositions::{Disposition, Reason};
use crate::farm::Farm;
use crate::front::Front;
use crate::hearing::{is_kept, owes_after, settle, wake_all};
use crate::sessions::{Answers, Session, SessionTable, place_of};
use farm_base::Worn;
use farm_history::{Collected, Outcome, Reply};
use farm_shared::Collect;
use std::sync::Wait;

fn worse_of(old: Disposition, new: Disposition) -> Disposition
    ensures { result ≡ worse old new }
{
    match new {
        Disposition::Stays => old,
        Disposition::Leaves(why) => Disposition::Leaves(why),
    }
}

fn reply_one<R: Wait, M: Farm, F: Front>(
    work: &Context<'_, R, M, F>,
    seat: &mut M::Seat,
    session: &mut Session<F::ConnState>,
    answers: &mut Answers,
    reply: Reply,
) -> Result<(), Worn>
    requires seat { (M.seats work.now.farm.now).is_seat seat.old }
    requires number { (M.seats work.now.farm.now).number seat.old
        ≡ (rules_in F.rules M.map_at work.now).number + 1 }
    requires rest { HasRest answers.old.outbox session.old.conn }
    ensures seat { SameSeat (M.seats work.now.farm.now) seat.old seat.new }
    ensures worn { OnErr result ((M.seats work.now.farm.now).worn seat.new ≡ true) }
    ensures replied { RepliesOn (rules_in F.rules M.map_at work.now) F.knows
        (M.seats work.now.farm.now) reply seat.old seat.new session.old session.new
        answers.old.outbox answers.new.outbox result }
{
    if !is_kept(session.disposition) {
        return Ok(());
    }
    if reply.outcome == Outcome::Cut {
        session.disposition = Disposition::Leaves(Reason::Cut);
        return Ok(());
    }
    let response = &mut answers.response;
    response.clear();
    let Ok(disposition) = F::reply(work, seat, &mut session.conn_state, reply, response) else {
        return Err(Worn);
    };
    session.owes = owes_after(session.owes, response.as_slice(), Disposition::Stays);
    let disposition = worse_of(session.disposition, disposition);
    session.disposition = settle(&mut answers.outbox, session.conn, response, disposition);
    Ok(())
}

fn collect_one<R: Wait, M: Farm, F: Front>(
    work: &Context<'_, R, M, F>,
    seat: &mut M::Seat,
    table: &mut SessionTable<F::ConnState>,
) -> Result<Collected, Worn>
    requires seat { (M.seats work.now.farm.now).is_seat seat.old }
    requires number { (M.seats work.now.farm.now).number seat.old
        ≡ (rules_in F.rules M.map_at work.now).number + 1 }
    requires ready { (o : Outside PortsTold)
        × MayCollect (rules_in F.rules M.map_at work.now) F.knows (M.seats work.now.farm.now)
        (at o seat.old table.old) }
    ensures seat { SameSeat (M.seats work.now.farm.now) seat.old seat.new }
    ensures worn { OnErr result ((M.seats work.now.farm.now).worn seat.new ≡ true) }
    ensures goes { (o : Outside PortsTold)
        → Collects (rules_in F.rules M.map_at work.now) F.knows (M.seats work.now.farm.now)
        (at o seat.old table.old) (at o seat.new table.new) result }
{
    let front = work.front.number();
    let Ok(collected) = work.farm.turn(work.rt, seat, Collect { front }) else {
        return Err(Worn);
    };
    match collected {
        Collected::Reply(reply) => {
            let Some(place) = place_of(table.sessions.as_slice(), reply.conn.number) else {
                return Ok(collected);
            };
            let Ok(()) = reply_one(
                work,
                seat,
                &mut table.sessions[place],
                &mut table.answers,
                reply,
            ) else {
                return Err(Worn);
            };
            Ok(collected)
        }
        Collected::Stopped => {
            wake_all(table);
            Ok(collected)
        }
        Collected::Empty => Ok(collected),
    }
}

/// Collects until no reply comes, and answers whether the farm was stopped.
pub fn collect_all<R: Wait, M: Farm, F: Front>(
    work: &Context<'_, R, M, F>,
    seat: &mut M::Seat,
    table: &mut SessionTable<F::ConnState>,
) -> Result<bool, Worn>
    requires seat { (M.seats work.now.farm.now).is_seat seat.old }
    requires number { (M.seats work.now.farm.now).number seat.old
        ≡ (rules_in F.rules M.map_at work.now).number + 1 }
    requires ready { (o : Outside PortsTold)
        × MayCollect (rules_in F.rules M.map_at work.now) F.knows (M.seats work.now.farm.now)
        (at o seat.old table.old) }
    ensures seat { SameSeat (M.seats work.now.farm.now) seat.old seat.new }
    ensures worn { OnErr result ((M.seats work.now.farm.now).worn seat.new ≡ true) }
    ensures goes { (o : Outside PortsTold)
        → CollectsAll (rules_in F.rules M.map_at work.now) F.knows (M.seats work.now.farm.now)
        (at o seat.old table.old) (at o seat.new table.new) result }
{
    for _ in work.rt.forever() {
        let Ok(collected) = collect_one(work, seat, table) else {
            return Err(Worn);
        };
        match collected {
            Collected::Reply(_) => {}
            Collected::Stopped => return Ok(true),
            Collected::Empty => return Ok(false),
        }
    }
    unreachable!()
}
