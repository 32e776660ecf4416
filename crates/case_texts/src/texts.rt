//! Reads the texts of styles, data, updates, filters, configurations, scripts, expiry lists, containers, saved farms and
//! paths that stand in files, and writes of each one line: its first fault, or that it is read; of a filter its tree or
//! its value, of an update the layers after it, of an expiry list its tiles, and of a container its entries. Before that
//! stand the line of the list, and of a text in a table the table and its line there. What is wanted of it was computed
//! by another program, which was written from the formats alone, and agrees with what the tables want of each text.
use crate::change_told::tell_change;
use crate::fault_told::tell_read;
use crate::filter_told::tell_filter;
use crate::lines_told::tell_lines;
use crate::meta_told::tell_meta;
use crate::path_told::tell_path;
use crate::rows::{Frame, frame_of, row};
use crate::saved_told::tell_saved;
use data_versions::Snapshot;
use farm_base::{Files, Sink};
use farm_config::read_config;
use geo_json::{read_data, read_update};
use noted_puts::{Letters, Noted};
use std::alloc::Global;
use std::str;
use style_objects::read_style;

/// Tells the texts of the file `list`; `None` where it cannot be read, or memory runs out.
pub fn run_texts<F: Files, O: Sink>(
    alloc: Global,
    list: &str,
    files: &mut F,
    out: &mut Noted<O>,
) -> Option<()> {
    let old = old_data(alloc, files)?;
    let ran = each_case(alloc, list, &old, files, out);
    drop(old);
    ran
}

fn old_data<F: Files>(alloc: Global, files: &mut F) -> Option<Snapshot> {
    let bytes = files.read(alloc, "old.data").ok()?;
    let dataset = read_data(alloc, bytes.as_slice()).ok()?;
    Snapshot::first(alloc, dataset).ok()
}

fn each_case<F: Files, O: Sink>(
    alloc: Global,
    list: &str,
    old: &Snapshot,
    files: &mut F,
    out: &mut Noted<O>,
) -> Option<()> {
    let cases = files.read(alloc, list).ok()?;
    for line in str::from_utf8(cases.as_slice()).ok()?.lines() {
        out.put("case ");
        out.put(line);
        out.put("\n");
        case(alloc, line, old, files, out)?;
    }
    Some(())
}

fn case<F: Files, O: Sink>(
    alloc: Global,
    line: &str,
    old: &Snapshot,
    files: &mut F,
    out: &mut Noted<O>,
) -> Option<()> {
    let (name, rest) = line.split_once(' ')?;
    let (form, file) = rest.split_once(' ')?;
    let bytes = files.read(alloc, file).ok()?;
    let kind = Kind { alloc, name, old };
    match form {
        "rows" => table(kind, file, bytes.as_slice(), out),
        "beginnings" => beginnings(kind, bytes.as_slice(), out),
        "changes" => changes(kind, bytes, out),
        "whole" => whole(kind, bytes.as_slice(), out),
        _ => None,
    }
}

// Which kind texts are of, and the data that updates change and filters are valued over.
#[derive(Clone, Copy)]
struct Kind<'a> {
    alloc: Global,
    name: &'a str,
    old: &'a Snapshot,
}

impl Kind<'_> {
    // What a text is told by; none where it has to be letters and is not, or memory runs out.
    fn told(self, text: &[u8]) -> Option<String> {
        let mut told = Letters::new(self.alloc);
        match self.name {
            "style" => tell_read(self.alloc, &mut told, read_style(self.alloc, text)),
            "data" => tell_read(self.alloc, &mut told, read_data(self.alloc, text)),
            "update" => tell_read(self.alloc, &mut told, read_update(self.alloc, text)),
            "config" => tell_read(self.alloc, &mut told, read_config(self.alloc, text)),
            _ => self.tell(&mut told, text),
        }
        told.into_text()
    }

    fn tell(self, told: &mut Letters, text: &[u8]) {
        match self.name {
            "change" => tell_change(self.alloc, told, self.old, text),
            "script" | "list" => tell_lines(self.alloc, told, self.name, text),
            "meta" => tell_meta(told, text),
            "saved" => tell_saved(self.alloc, told, text),
            _ => self.tell_letters(told, text),
        }
    }

    fn tell_letters(self, told: &mut Letters, text: &[u8]) {
        match str::from_utf8(text) {
            Ok(text) if self.name == "path" => tell_path(told, text),
            Ok(text) => tell_filter(self.alloc, told, self.name, text, self.old),
            Err(_) => told.cut(),
        }
    }
}

fn whole<O: Sink>(kind: Kind<'_>, bytes: &[u8], out: &mut Noted<O>) -> Option<()> {
    put(kind.told(bytes)?.as_str(), out);
    Some(())
}

fn table<O: Sink>(kind: Kind<'_>, file: &str, bytes: &[u8], out: &mut Noted<O>) -> Option<()> {
    let mut around = Frame {
        before: "",
        after: "",
    };
    let mut number = 0u32;
    for line in str::from_utf8(bytes).ok()?.lines() {
        number = number.saturating_add(1);
        if let Some(next) = frame_of(line) {
            around = next;
        } else if let Some(text) = row(kind.alloc, &around, line).ok()? {
            put_row(file, number, out);
            whole(kind, text.as_bytes(), out)?;
        }
    }
    Some(())
}

/// Puts the line that stands before the row of a table.
pub fn put_row<O: Sink>(table: &str, number: u32, out: &mut Noted<O>) {
    out.put("row ");
    out.put(table);
    out.put(":");
    out.put_number(number);
    out.put("\n");
}

// What the proper beginnings of a text are told by, once where they are told alike.
fn beginnings<O: Sink>(kind: Kind<'_>, bytes: &[u8], out: &mut Noted<O>) -> Option<()> {
    let mut last = String::new(kind.alloc);
    for length in 0..bytes.len() {
        let next = kind.told(&bytes[..length])?;
        if next.as_str() != last.as_str() {
            put(next.as_str(), out);
        }
        last = next;
    }
    Some(())
}

// What a text is told by with each value of each of its bytes in turn, once where neighbours are told alike (the last
// value of a byte and the first of the next are neighbours), behind the byte's place and its value.
fn changes<O: Sink>(kind: Kind<'_>, mut bytes: Vec<u8>, out: &mut Noted<O>) -> Option<()> {
    let mut last = String::new(kind.alloc);
    for place in 0..bytes.len() {
        last = changes_at(kind, bytes.as_mut_slice(), place, last, out)?;
    }
    Some(())
}

fn changes_at<O: Sink>(
    kind: Kind<'_>,
    text: &mut [u8],
    place: usize,
    mut last: String,
    out: &mut Noted<O>,
) -> Option<String> {
    let kept = *text.get(place)?;
    for byte in 0..=255u8 {
        *text.get_mut(place)? = byte;
        let next = kind.told(text)?;
        if next.as_str() != last.as_str() {
            out.put_number(place);
            out.put(" ");
            out.put_number(byte);
            out.put(" ");
            put(next.as_str(), out);
        }
        last = next;
    }
    *text.get_mut(place)? = kept;
    Some(last)
}

// The lines of what is told, in one line.
fn put<O: Sink>(told: &str, out: &mut Noted<O>) {
    let mut is_begun = false;
    for line in told.lines() {
        if is_begun {
            out.put("; ");
        }
        out.put(line);
        is_begun = is_begun || !line.is_empty();
    }
    out.put("\n");
}
