//! Commands as cases: those that stand in a file, one a line, are run over the files beside it and a store in memory that
//! holds nothing.
//!
//! A line `configs TABLE FILE..` or `scripts TABLE FILE..` runs `script` once for each row of the table, with the row
//! as the configuration or the script and these files alone beside it. `puts N..` and then `gets N..` at a line's end
//! are the calls of the store that are to fail. Before the answers stands `case` with the line, and before that of a row
//! `row TABLE:LINE`. An output of more than 12,000 bytes is told by its length and its sum, in which each byte counts
//! as often as its place says.
use crate::cases::{Case, Telling};
use crate::plays::Player;
use case_texts::{Frame, frame_of, put_row, row};
use farm_base::{Bytes, Files, MemFiles, Sink, Text};
use noted_puts::Letters;
use std::alloc::Global;
use std::rt::Clock;
use std::str;
use std::sync::Wait;
use std::thread::Threads;

// How the rows of a table are run: its name, the words behind `script`, the name that a row has as a file, and the files
// beside it.
#[derive(Clone, Copy)]
struct Frames<'a> {
    table: &'a str,
    config: &'a str,
    script: &'a str,
    row: &'a str,
    beside: &'a str,
}

impl<'a, R: Threads + Wait + Clock + Sync, F: Files, O: Sink> Player<'a, R, F, O> {
    /// Runs the cases of the file `list`, and writes of each its line, what it puts on out, then what it puts on err, then
    /// its status; `None` where the cases cannot be read, or memory runs out.
    pub(crate) fn run_cases(&mut self, list: &str) -> Option<()> {
        let cases = self.files.read(self.alloc, list).ok()?;
        self.each_line(cases.as_slice())
    }

    fn each_line(&mut self, cases: &[u8]) -> Option<()> {
        for line in str::from_utf8(cases).ok()?.lines() {
            self.out.put("case ");
            self.out.put(line);
            self.out.put("\n");
            let mut case = Case::new(self.alloc);
            let told = self.run_line(line, &mut case);
            drop(case);
            told?;
        }
        Some(())
    }

    // A table's rows, or one command whose calls of the store fail as the end of the line says.
    fn run_line(&mut self, line: &str, case: &mut Case) -> Option<()> {
        let line = calls_before(line, " gets ", &mut case.gets)?;
        let line = calls_before(line, " puts ", &mut case.puts)?;
        match line.split_once(' ') {
            Some(("configs", rest)) => self.run_table("config", rest),
            Some(("scripts", rest)) => self.run_table("script", rest),
            _ => self.answer(line, case),
        }
    }

    fn answer(&mut self, line: &str, case: &mut Case) -> Option<()> {
        for word in line.split(' ') {
            case.take_word(self.alloc, word)?;
        }
        case.telling = Telling::Command;
        self.play(case)
    }

    // `rest` names the table, and then the files that are there beside each row; the first of them is the other file.
    fn run_table(&mut self, row: &str, rest: &str) -> Option<()> {
        let frames = read_frames(row, rest)?;
        let bytes = self.files.read(self.alloc, frames.table).ok()?;
        self.each_row(frames, bytes.as_slice())
    }

    fn each_row(&mut self, frames: Frames<'_>, text: &[u8]) -> Option<()> {
        let mut around = Frame {
            before: "",
            after: "",
        };
        let mut number = 0u32;
        for line in str::from_utf8(text).ok()?.lines() {
            number = number.saturating_add(1);
            if let Some(next) = frame_of(line) {
                around = next;
            } else if let Some(text) = row(self.alloc, &around, line).ok()? {
                self.one_row(frames, number, text.as_str())?;
            }
        }
        Some(())
    }

    fn one_row(&mut self, frames: Frames<'_>, number: u32, text: &str) -> Option<()> {
        let alone = files_with(self.alloc, frames, text, &mut self.files)?;
        put_row(frames.table, number, &mut self.out);
        self.files.keep_to(Some(alone));
        let mut case = Case::new(self.alloc);
        let told = self.run_script(frames, &mut case);
        drop(case);
        self.files.keep_to(None);
        told
    }

    fn run_script(&mut self, frames: Frames<'_>, case: &mut Case) -> Option<()> {
        for word in ["script", frames.config, frames.script] {
            case.take_word(self.alloc, word)?;
        }
        case.telling = Telling::Command;
        self.play(case)
    }
}

fn calls_before<'a>(line: &'a str, sign: &str, calls: &mut Vec<u64>) -> Option<&'a str> {
    let Some((before, after)) = line.split_once(sign) else {
        return Some(line);
    };
    for word in after.split(' ') {
        calls.push(word.parse::<u64>().ok()?).ok()?;
    }
    Some(before)
}

fn read_frames<'a>(row: &'a str, text: &'a str) -> Option<Frames<'a>> {
    let (table, beside) = text.split_once(' ')?;
    let other = beside.split(' ').next()?;
    let is_config = row == "config";
    Some(Frames {
        table,
        config: if is_config { row } else { other },
        script: if is_config { other } else { row },
        row,
        beside,
    })
}

fn files_with<F: Files>(
    alloc: Global,
    frames: Frames<'_>,
    text: &str,
    files: &mut F,
) -> Option<MemFiles> {
    let mut held = held_of(alloc, frames.beside, files)?;
    hold(alloc, &mut held, frames.row, unescaped(alloc, text)?)?;
    MemFiles::new(alloc, held, Vec::new(alloc)).ok()
}

fn hold(alloc: Global, held: &mut Vec<(Text, Bytes)>, name: &str, bytes: Vec<u8>) -> Option<()> {
    let name = Text::of(alloc, name).ok()?;
    held.push((name, Bytes::from_vec(bytes))).ok()
}

fn held_of<F: Files>(alloc: Global, names: &str, files: &mut F) -> Option<Vec<(Text, Bytes)>> {
    let mut held = Vec::new(alloc);
    for name in names.split(' ') {
        let bytes = files.read(alloc, name).ok()?;
        hold(alloc, &mut held, name, bytes)?;
    }
    Some(held)
}

// The bytes of a row, in which `\n` is a newline and `\r` a carriage return.
fn unescaped(alloc: Global, text: &str) -> Option<Vec<u8>> {
    let mut made = Letters::new(alloc);
    let mut is_first = true;
    for piece in text.split('\\') {
        if is_first {
            made.put(piece);
        } else {
            put_escaped(&mut made, piece);
        }
        is_first = false;
    }
    Vec::from_slice(alloc, made.into_text()?.as_bytes()).ok()
}

fn put_escaped(made: &mut Letters, piece: &str) {
    if let Some(left) = piece.strip_prefix("n") {
        made.put("\n");
        made.put(left);
    } else if let Some(left) = piece.strip_prefix("r") {
        made.put("\r");
        made.put(left);
    } else {
        made.put("\\");
        made.put(piece);
    }
}
