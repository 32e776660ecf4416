//! Cases: the words of a call, what happens on its three ports, what its gate holds and what fails.
use crate::gates::Hold;
use farm_base::{Bytes, Files, cut, number, small_number};
use reactor_ports::PortStep;
use std::alloc::Global;
use std::mem::replace;

/// The ports of one front.
#[derive(Drop)]
pub struct Side {
    pub steps: Vec<PortStep>,
    /// How many connections its steps open.
    pub conns: u32,
    /// The sends that fail.
    pub fails: Vec<u64>,
    /// Whether no listen succeeds.
    pub deaf: bool,
    /// Whether the front may end by its ports or by the farm, as it comes.
    pub over: bool,
    /// The connection that is told of where else the status alone is.
    pub sure: Option<u32>,
}

impl Side {
    fn new(alloc: Global) -> Side {
        Side {
            steps: Vec::new(alloc),
            conns: 0,
            fails: Vec::new(alloc),
            deaf: false,
            over: false,
            sure: None,
        }
    }
}

/// What is told of a case.
#[derive(Clone, Copy, PartialEq, Eq)]
pub enum Telling {
    All,
    /// All, but lengths in place of bytes.
    Lengths,
    /// The status, what stands on err, which fronts broke, and the connections that are sure.
    Status,
    /// What stands on out and on err, and then the status.
    Command,
    /// The status, how what stands on out is like a text, and what stands on err.
    LikeOut,
    /// The same, out and err exchanged.
    LikeErr,
}

/// A case.
#[derive(Drop)]
pub struct Case {
    pub words: Vec<String>,
    pub renderd: Side,
    pub tiles: Side,
    pub control: Side,
    pub holds: Vec<Hold>,
    /// How many bytes a send takes at most.
    pub take: usize,
    /// The bytes of `farm.saved` in the store, if there is such a path.
    pub saved: Option<Bytes>,
    /// The puts and the gets of the store, the puts on out and on err, and the reads of files, that fail.
    pub puts: Vec<u64>,
    pub gets: Vec<u64>,
    pub outs: Vec<u64>,
    pub errs: Vec<u64>,
    pub reads: Vec<u64>,
    pub telling: Telling,
    /// The text that what stands on a sink is told beside.
    pub like: Vec<u8>,
}

impl Case {
    pub(crate) fn new(alloc: Global) -> Case {
        Case {
            words: Vec::new(alloc),
            renderd: Side::new(alloc),
            tiles: Side::new(alloc),
            control: Side::new(alloc),
            holds: Vec::new(alloc),
            take: 1_000_000,
            saved: None,
            puts: Vec::new(alloc),
            gets: Vec::new(alloc),
            outs: Vec::new(alloc),
            errs: Vec::new(alloc),
            reads: Vec::new(alloc),
            telling: Telling::All,
            like: Vec::new(alloc),
        }
    }

    /// Takes a line of a case: its first word says what the others are.
    pub(crate) fn take_line<F: Files>(
        &mut self,
        alloc: Global,
        files: &mut F,
        line: &str,
    ) -> Option<()> {
        let (name, rest) = cut(line, ' ')?;
        if let Some(side) = self.side(name) {
            return step(alloc, side, files, rest);
        }
        if let Some(numbers) = self.numbers(name) {
            return numbers.push(number(rest)?).ok();
        }
        match name {
            "word" => self.take_word(alloc, rest),
            "saved" => self.take_saved(alloc, files, rest),
            "like" => self.take_like(alloc, files, rest),
            _ => self.set(name, rest),
        }
    }

    fn side(&mut self, name: &str) -> Option<&mut Side> {
        match name {
            "renderd" => Some(&mut self.renderd),
            "tiles" => Some(&mut self.tiles),
            "control" => Some(&mut self.control),
            _ => None,
        }
    }

    fn numbers(&mut self, name: &str) -> Option<&mut Vec<u64>> {
        match name {
            "put" => Some(&mut self.puts),
            "get" => Some(&mut self.gets),
            "out" => Some(&mut self.outs),
            "err" => Some(&mut self.errs),
            "read" => Some(&mut self.reads),
            _ => None,
        }
    }

    /// Takes a word of the call.
    pub(crate) fn take_word(&mut self, alloc: Global, word: &str) -> Option<()> {
        self.words.push(String::from_str(alloc, word).ok()?).ok()
    }

    fn take_saved<F: Files>(&mut self, alloc: Global, files: &mut F, name: &str) -> Option<()> {
        let bytes = files.read(alloc, name).ok()?;
        drop(replace(&mut self.saved, Some(Bytes::from_vec(bytes))));
        Some(())
    }

    fn take_like<F: Files>(&mut self, alloc: Global, files: &mut F, text: &str) -> Option<()> {
        let (sink, name) = cut(text, ' ')?;
        let bytes = files.read(alloc, name).ok()?;
        drop(replace(&mut self.like, bytes));
        self.telling = match sink {
            "out" => Telling::LikeOut,
            "err" => Telling::LikeErr,
            _ => return None,
        };
        Some(())
    }

    fn set(&mut self, name: &str, rest: &str) -> Option<()> {
        match name {
            "hold" => self.holds.push(hold(rest)?).ok()?,
            "take" => self.take = small_number(rest)? as usize,
            "tell" => self.telling = telling_of(rest)?,
            _ => return None,
        }
        Some(())
    }
}

fn telling_of(text: &str) -> Option<Telling> {
    match text {
        "lengths" => Some(Telling::Lengths),
        "status" => Some(Telling::Status),
        _ => None,
    }
}

fn hold(text: &str) -> Option<Hold> {
    let (held, until) = cut(text, ' ')?;
    Some(Hold {
        held: number(held)?,
        until: number(until)?,
    })
}

fn step<F: Files>(alloc: Global, side: &mut Side, files: &mut F, line: &str) -> Option<()> {
    let (name, rest) = cut(line, ' ')?;
    match name {
        "open" => open(side, small_number(rest)?),
        "bytes" => bytes(alloc, side, files, rest),
        "fail" => side.fails.push(number(rest)?).ok(),
        "as" => set(side, rest),
        "sure" => {
            side.sure = Some(small_number(rest)?);
            Some(())
        }
        _ => side.steps.push(lone_step(name, rest)?).ok(),
    }
}

fn lone_step(name: &str, rest: &str) -> Option<PortStep> {
    match name {
        "end" => Some(PortStep::End(small_number(rest)?)),
        "lose" => Some(PortStep::Lose(small_number(rest)?)),
        "await" => {
            let (conn, sent) = cut(rest, ' ')?;
            Some(PortStep::Await(small_number(conn)?, number(sent)?))
        }
        _ => None,
    }
}

fn set(side: &mut Side, text: &str) -> Option<()> {
    match text {
        "break" => side.steps.push(PortStep::Break).ok()?,
        "deaf" => side.deaf = true,
        "over" => side.over = true,
        _ => return None,
    }
    Some(())
}

fn open(side: &mut Side, count: u32) -> Option<()> {
    for _ in 0..count {
        side.steps.push(PortStep::Open).ok()?;
        side.conns = side.conns.saturating_add(1);
    }
    Some(())
}

// What `CONN TIMES LENGTH FILE` says: the bytes of a file come so many times, each time in pieces of that length.
#[derive(Clone, Copy)]
struct Coming<'a> {
    conn: u32,
    times: u32,
    length: usize,
    file: &'a str,
}

fn read_coming(text: &str) -> Option<Coming<'_>> {
    let (conn, rest) = cut(text, ' ')?;
    let (times, rest) = cut(rest, ' ')?;
    let (length, file) = cut(rest, ' ')?;
    Some(Coming {
        conn: small_number(conn)?,
        times: small_number(times)?,
        length: small_number(length)? as usize,
        file,
    })
}

fn bytes<F: Files>(alloc: Global, side: &mut Side, files: &mut F, text: &str) -> Option<()> {
    let coming = read_coming(text)?;
    let bytes = files.read(alloc, coming.file).ok()?;
    come_all(alloc, side, &coming, bytes.as_slice())
}

fn come_all(alloc: Global, side: &mut Side, coming: &Coming<'_>, bytes: &[u8]) -> Option<()> {
    for _ in 0..coming.times {
        come(alloc, side, coming, bytes)?;
    }
    Some(())
}

fn come(alloc: Global, side: &mut Side, coming: &Coming<'_>, bytes: &[u8]) -> Option<()> {
    for piece in bytes.chunks(coming.length.max(1)) {
        let piece = Bytes::of(alloc, piece).ok()?;
        side.steps.push(PortStep::Bytes(coming.conn, piece)).ok()?;
    }
    Some(())
}
