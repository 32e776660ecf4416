//! The real files and streams by their traits.
use farm_base::{FileFault, Files, OutSink, Sink, SinkFault, read_to_end};
use std::alloc::Global;
use std::fs::{self, File};
use std::io::{self, Write};
use std::rt;

/// A writer that takes at most so many bytes a call.
#[derive(Drop)]
struct SlowWriter {
    taken: Vec<u8>,
    most: usize,
}

impl Write for SlowWriter {
    fn write(&mut self, buf: &[u8]) -> io::Result<usize> {
        let len = buf.len().min(self.most);
        self.taken.extend_from_slice(&buf[..len])?;
        Ok(len)
    }

    fn flush(&mut self) -> io::Result<()> {
        Ok(())
    }
}

// What a put of the piece answers where the writer takes so many bytes a call, and what was taken.
fn puts(alloc: Global, most: usize, piece: &[u8]) -> (Result<(), SinkFault>, Vec<u8>) {
    let mut writer = SlowWriter {
        taken: Vec::new(alloc),
        most,
    };
    let answer = OutSink::new(&mut writer).put(piece);
    (answer, writer.taken)
}

/// A piece is taken whole or not.
pub fn a_piece_is_taken_whole_or_not(alloc: Global) -> bool {
    let (answer, taken) = puts(alloc, 1, b"one by one");
    let is_whole = answer.is_ok() && taken.as_slice() == b"one by one".as_slice();
    let (answer, taken) = puts(alloc, 0, b"none");
    is_whole && matches!(answer, Err(SinkFault::Failed)) && taken.is_empty()
}

fn is_failed(read: &Result<Vec<u8>, FileFault>) -> bool {
    matches!(read, Err(FileFault::Failed))
}

fn is_read(read: &Result<Vec<u8>, FileFault>, bytes: &[u8]) -> bool {
    matches!(read, Ok(found) if found.as_slice() == bytes)
}

fn fails<F: Files>(alloc: Global, files: &mut F, name: &str) -> bool {
    let read = files.read(alloc, name);
    is_failed(&read)
}

fn reads<F: Files>(alloc: Global, files: &mut F, name: &str, bytes: &[u8]) -> bool {
    let read = files.read(alloc, name);
    is_read(&read, bytes)
}

fn is_removed<R: rt::Files<File = File> + Alloc>(rt: &R) -> bool {
    fs::remove_dir_all(rt, "folder").is_ok()
}

fn is_made<R: rt::Files<File = File> + Alloc>(rt: &R) -> bool {
    fs::create_dir(rt, "folder").is_ok()
}

fn is_written<R: rt::Files<File = File> + Alloc>(rt: &R) -> bool {
    fs::write(rt, "folder/file", b"bytes").is_ok()
}

/// A name that is missing, a folder and a file are read.
pub fn files_are_read<R: rt::Files<File = File> + Alloc, F: Files>(
    rt: &R,
    alloc: Global,
    files: &mut F,
) -> bool {
    let _was_there = is_removed(rt);
    fails(alloc, files, "folder")
        && is_made(rt)
        && fails(alloc, files, "folder")
        && is_written(rt)
        && reads(alloc, files, "folder/file", b"bytes")
        && is_removed(rt)
}

/// A longer file is refused.
pub fn a_longer_file_is_refused(alloc: Global) -> bool {
    let four = read_to_end(alloc, b"four".as_slice(), 4);
    let five = read_to_end(alloc, b"fives".as_slice(), 4);
    is_read(&four, b"four") && is_failed(&five)
}
