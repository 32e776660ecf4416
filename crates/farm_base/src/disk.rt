//! The real files and streams as files and sinks. They do not tell what they hold; what is proved of
//! them is that they count their failures.
ghost use Rattle.std.specs.Prelude.{◌≡◌, ℕ, ◌≤◌, length, IfOk, IfSome, OnOk};
ghost use Rattle.std.specs.Io.KnownBytes.{Appends};
ghost use Rattle.std.specs.IoError.{error_kind};
ghost use Rattle.std.specs.declared.io.ErrorKind.TheVariants.{OutOfMemory};
ghost use Rattle.farm_base.specs.declared.files.FileFault.TheVariants.{NoMemory};
ghost use Rattle.farm_base.specs.Limits.{most_file_bytes};
ghost use Rattle.farm_base.specs.Outside.{Reads, Puts, untold};

use crate::files::{FileFault, Files};
use crate::limits::MOST_FILE_BYTES;
use crate::sinks::{Sink, SinkFault};
use std::alloc::Global;
use std::io::{self, Read, Write};
use std::{fs, rt};

/// The files of the system, through a runtime.
#[derive(Drop)]
pub struct DiskFiles<R> {
    rt: R,
    faults: u64,
}

impl<R> DiskFiles<R> {
    /// The files that this runtime reaches.
    pub fn new(rt: R) -> DiskFiles<R>
        ensures { result.faults ≡ 0 }
    {
        DiskFiles { rt, faults: 0 }
    }
}

impl<R: rt::Files> Files for DiskFiles<R> {
    ghost use Rattle.farm_base.specs.Outside.{untold};

    ghost state = { λ f. untold f.faults };

    ghost counted = { λ _. tt };

    /// The bytes of the file at this path. Failed where it cannot be opened or read, or has more than
    /// `2^31` bytes.
    fn read(&mut self, alloc: Global, name: &str) -> Result<Vec<u8>, FileFault>
        ensures state { Reads (untold self.old.faults) (untold self.new.faults) name.now result }
        ensures short { IfOk result (λ v. length v.items ≤ most_file_bytes) }
    {
        match whole(alloc, &self.rt, name) {
            Ok(bytes) => Ok(bytes),
            Err(FileFault::NoMemory) => Err(FileFault::NoMemory),
            Err(FileFault::Failed) => {
                self.faults = self.faults.saturating_add(1);
                Err(FileFault::Failed)
            }
        }
    }
}

fn whole<R: rt::Files>(alloc: Global, files: &R, name: &str) -> Result<Vec<u8>, FileFault>
    ensures { IfOk result (λ v. length v.items ≤ most_file_bytes) }
{
    let file = fs::open(files, name).map_err(|e| file_fault(&e))?;
    read_to_end(alloc, file, MOST_FILE_BYTES)
}

/// All that a reader gives: where its bytes are known, exactly they. Failed where it refuses, or gives
/// more than `most` bytes.
pub fn read_to_end<F: Read + Drop>(alloc: Global, from: F, most: u32) -> Result<Vec<u8>, FileFault>
    ensures short { IfOk result (λ v. length v.items ≤ most) }
    ensures whole { IfOk result (λ v. IfSome (F.remaining from) (λ bytes. v.items ≡ bytes)) }
{
    let mut bytes = Vec::new(alloc);
    // One byte more than the most shows that there are more.
    match from.take(u64::from(most) + 1).read_to_end(&mut bytes) {
        Ok(_) if bytes.len() <= most as usize => Ok(bytes),
        Ok(_) => Err(FileFault::Failed),
        Err(e) => Err(file_fault(&e)),
    }
}

/// What an error of the system means for a call on files: want of memory where the system says so, and
/// else that the call failed.
pub fn file_fault(error: &io::Error) -> FileFault
    ensures memory { error_kind error.now ≡ OutOfMemory → result ≡ NoMemory }
    ensures failed { result ≡ NoMemory → error_kind error.now ≡ OutOfMemory }
{
    match error.kind() {
        io::ErrorKind::OutOfMemory => FileFault::NoMemory,
        _ => FileFault::Failed,
    }
}

/// A stream of the system as a sink.
#[derive(Drop)]
pub struct OutSink<W> {
    inner: W,
    faults: u64,
}

impl<W> OutSink<W> {
    /// The sink over this stream.
    pub fn new(inner: W) -> OutSink<W>
        ensures { result.faults ≡ 0 }
    {
        OutSink { inner, faults: 0 }
    }
}

impl<W: Write> Sink for OutSink<W> {
    ghost use Rattle.farm_base.specs.Outside.{untold};

    ghost state = { λ s. untold s.faults };

    /// Writes the whole piece and flushes it. Where the stream's bytes are known, Ok has appended the
    /// whole piece to them. Failed where the stream refuses, or takes nothing of a piece that is not
    /// empty.
    fn put(&mut self, piece: &[u8]) -> Result<(), SinkFault>
        ensures state { Puts (untold self.old.faults) (untold self.new.faults) piece.now result }
        ensures written { OnOk result
            (Appends (W.contents self.old.inner) (W.contents self.new.inner) piece.now) }
    {
        let written = self.inner.write_all(piece).is_ok() && self.inner.flush().is_ok();
        if written {
            return Ok(());
        }
        self.faults = self.faults.saturating_add(1);
        Err(SinkFault::Failed)
    }
}
