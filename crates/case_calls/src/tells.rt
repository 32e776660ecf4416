//! What is told of a call that has ended.
use crate::cases::{Case, Side, Telling};
use crate::plays::Sinks;
use farm_base::{NoBell, Sink};
use noted_puts::Noted;
use reactor_ports::{FrontDone, FrontEnd, MemPorts, Rest, ThreePorts};
use std::alloc::Global;
use tile_store::{MemStore, TileStore};

/// How many bytes that a command puts on out are told one by one.
const MOST_TOLD: usize = 12_000;

/// How a call ended.
#[derive(Drop)]
pub struct Ended {
    pub status: u8,
    /// Whether a drawing was held in vain.
    pub is_late: bool,
    /// Whether a drawing that was to be held never came.
    pub is_unheld: bool,
    pub left: &'static str,
    pub fronts: Vec<FrontDone>,
    pub store: MemStore,
}

/// Puts on `out` how the call ended, what it put on its own sinks, and of each front how it ended, what was not taken
/// of its answers, and what was taken on each of its connections.
pub(crate) fn tell<O: Sink>(
    alloc: Global,
    case: &Case,
    ended: &mut Ended,
    sinks: &Sinks,
    ports: &ThreePorts<MemPorts, NoBell>,
    out: &mut Noted<O>,
) {
    match case.telling {
        Telling::Command => tell_command(ended.status, sinks, out),
        Telling::LikeOut => {
            put_status(ended.status, out);
            put_likeness("out: ", sinks.put.bytes(), case.like.as_slice(), out);
            out.put_bytes(sinks.err.bytes());
        }
        Telling::LikeErr => {
            put_status(ended.status, out);
            out.put_bytes(sinks.put.bytes());
            put_likeness("err: ", sinks.err.bytes(), case.like.as_slice(), out);
        }
        Telling::Status => {
            tell_end(ended, out);
            out.put_bytes(sinks.err.bytes());
            tell_sure(case, ended.fronts.as_slice(), ports, out);
        }
        Telling::All | Telling::Lengths => {
            tell_end(ended, out);
            out.put_bytes(sinks.put.bytes());
            out.put_bytes(sinks.err.bytes());
            tell_fronts(case, ended.fronts.as_slice(), ports, out);
            out.put("left ");
            out.put(ended.left);
            out.put("\n");
            tell_saved(alloc, &mut ended.store, out);
        }
    }
}

fn tell_command<O: Sink>(status: u8, sinks: &Sinks, out: &mut Noted<O>) {
    put_output(sinks.put.bytes(), out);
    out.put_bytes(sinks.err.bytes());
    put_status(status, out);
}

fn put_status<O: Sink>(status: u8, out: &mut Noted<O>) {
    out.put("status ");
    out.put_number(status);
    out.put("\n");
}

fn tell_end<O: Sink>(ended: &Ended, out: &mut Noted<O>) {
    put_status(ended.status, out);
    if ended.is_late {
        out.put("late\n");
    }
    if ended.is_unheld {
        out.put("not held\n");
    }
}

fn put_likeness<O: Sink>(sink: &str, put: &[u8], like: &[u8], out: &mut Noted<O>) {
    out.put(sink);
    out.put(likeness(put, like));
    out.put("\n");
}

fn likeness(put: &[u8], like: &[u8]) -> &'static str {
    if put == like {
        "the same"
    } else if like.starts_with(put) {
        "a front"
    } else if put.starts_with(like) {
        "more"
    } else {
        "another"
    }
}

fn put_output<O: Sink>(bytes: &[u8], out: &mut Noted<O>) {
    if bytes.len() <= MOST_TOLD {
        out.put_bytes(bytes);
        return;
    }
    out.put_number(bytes.len());
    out.put(" bytes, sum ");
    out.put_number(weighted_sum(bytes));
    out.put("\n");
}

// The sum of the bytes, each times its place, from 1 on; of a sum over 64 bits its low 64.
fn weighted_sum(bytes: &[u8]) -> u64 {
    let mut place = 0u64;
    let mut sum = 0u64;
    for byte in bytes {
        place = place.wrapping_add(1);
        sum = sum.wrapping_add(place.wrapping_mul(u64::from(*byte)));
    }
    sum
}

// A front that is told: what its side of the case says, how it ended, if there was one, and its ports.
#[derive(Clone, Copy)]
struct Front<'a> {
    number: u32,
    side: &'a Side,
    has_lengths: bool,
    done: Option<&'a FrontDone>,
    ports: &'a MemPorts,
}

fn fronts_of<'a>(
    case: &'a Case,
    fronts: &'a [FrontDone],
    ports: &'a ThreePorts<MemPorts, NoBell>,
) -> [Front<'a>; 3] {
    let has_lengths = matches!(case.telling, Telling::Lengths);
    [
        Front {
            number: 0,
            side: &case.renderd,
            has_lengths,
            done: fronts.get(0),
            ports: &ports.renderd,
        },
        Front {
            number: 1,
            side: &case.tiles,
            has_lengths,
            done: fronts.get(1),
            ports: &ports.tiles,
        },
        Front {
            number: 2,
            side: &case.control,
            has_lengths,
            done: fronts.get(2),
            ports: &ports.control,
        },
    ]
}

fn tell_fronts<O: Sink>(
    case: &Case,
    fronts: &[FrontDone],
    ports: &ThreePorts<MemPorts, NoBell>,
    out: &mut Noted<O>,
) {
    for front in &fronts_of(case, fronts, ports) {
        if let Some(done) = front.done {
            front.tell_done(done, out);
        }
        front.tell_connections(out);
    }
}

fn tell_sure<O: Sink>(
    case: &Case,
    fronts: &[FrontDone],
    ports: &ThreePorts<MemPorts, NoBell>,
    out: &mut Noted<O>,
) {
    for front in &fronts_of(case, fronts, ports) {
        front.tell_broken(out);
        if let Some(conn) = front.side.sure {
            front.tell_connection(conn, out);
        }
    }
}

impl Front<'_> {
    fn end_text(&self, end: FrontEnd) -> &'static str {
        match end {
            FrontEnd::Finished | FrontEnd::Stopped if self.side.over => "over",
            FrontEnd::Finished => "finished",
            FrontEnd::Stopped => "stopped",
            FrontEnd::Broken => "broken",
            FrontEnd::Worn => "worn",
            FrontEnd::NoMemory => "out of memory",
        }
    }

    fn tell_done<O: Sink>(&self, done: &FrontDone, out: &mut Noted<O>) {
        out.put("front ");
        out.put_number(self.number);
        out.put(" ");
        out.put(self.end_text(done.end));
        out.put(", rests ");
        out.put_number(done.rests.len());
        out.put(", starved ");
        out.put_number(done.starved);
        out.put("\n");
        for rest in done.rests.as_slice() {
            self.tell_rest(rest, out);
        }
    }

    fn tell_broken<O: Sink>(&self, out: &mut Noted<O>) {
        let Some(done) = self.done else {
            return;
        };
        if matches!(done.end, FrontEnd::Broken) {
            out.put("front ");
            out.put_number(self.number);
            out.put(" broken\n");
        }
    }

    fn tell_rest<O: Sink>(&self, rest: &Rest, out: &mut Noted<O>) {
        let bytes = rest.bytes.as_slice();
        if !bytes.is_empty() {
            self.put_bytes("rest ", rest.front, rest.conn, bytes, out);
        }
    }

    fn tell_connections<O: Sink>(&self, out: &mut Noted<O>) {
        for conn in 0..self.side.conns {
            self.tell_connection(conn, out);
        }
    }

    fn tell_connection<O: Sink>(&self, conn: u32, out: &mut Noted<O>) {
        let bytes = self.ports.taken(conn);
        if !self.ports.is_open(conn) {
            self.put_bytes("closed ", self.number, conn, bytes, out);
        } else if !bytes.is_empty() {
            self.put_bytes("open ", self.number, conn, bytes, out);
        }
    }

    // What was or was not taken on a connection of a front.
    fn put_bytes<O: Sink>(
        &self,
        state: &str,
        front: u32,
        conn: u32,
        bytes: &[u8],
        out: &mut Noted<O>,
    ) {
        out.put(state);
        out.put_number(front);
        out.put(".");
        out.put_number(conn);
        out.put(" ");
        out.put_number(bytes.len());
        out.put("\n");
        if !self.has_lengths && !bytes.is_empty() {
            out.put_bytes(bytes);
            out.put("\n");
        }
    }
}

fn tell_saved<O: Sink>(alloc: Global, store: &mut MemStore, out: &mut Noted<O>) {
    let Ok(Some(saved)) = store.get(alloc, "farm.saved") else {
        return;
    };
    out.put("saved ");
    out.put_number(saved.len());
    out.put("\n");
    out.put_bytes(saved.as_slice());
    out.put("\n");
}
