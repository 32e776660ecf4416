//! Sinks that take bytes in pieces: the trait, its form in memory and the adapter over the real ones.
ghost use Rattle.std.specs.Prelude.{◌≡◌, ℕ, List, [], length, Option, Some, IfOk, Result, is_err};
ghost use Rattle.farm_base.specs.Outside.{Outside, Puts};
ghost use Rattle.farm_base.specs.InMemory.{SinkHeld, after_put, put_fails, sink_state};

use crate::files::is_to_fail;
use crate::memory::NoMemory;
use std::alloc::Global;
use std::marker::Model;

/// Why a sink did not take a whole piece.
#[derive(Clone, Copy, Debug, PartialEq, Eq)]
pub enum SinkFault {
    /// The put failed.
    Failed,
}

/// A sink that takes bytes in pieces. Where an object tells, contracts know the bytes that it took so
/// far; the real streams do not tell.
pub trait Sink {
    /// The bytes taken so far, where the object tells, and how many puts failed: a count that never
    /// falls, and stands still at its last value, `2^64 - 1`.
    ghost state: { Self → Outside (List ℕ) };

    /// Puts a piece. After Ok the whole piece was taken, after Failed some front of it,
    /// and Failed comes only where the count of faults rose in this call.
    fn put(&mut self, piece: &[u8]) -> Result<(), SinkFault>
        ensures { Puts (state self.old) (state self.new) piece.now result };
}

/// A sink in memory with a fixed room, and the puts that are to fail.
#[derive(Drop)]
pub struct MemSink {
    bytes: Vec<u8>,
    room: u32,
    puts: Vec<u64>,
    calls: u64,
    faults: u64,
}

impl Model for MemSink {
    ghost use Rattle.std.specs.Prelude.{◌≤◌, length, vec_capacity};
    ghost use Rattle.farm_base.specs.InMemory.{SinkHeld};

    ghost Value = { SinkHeld };

    ghost view = { λ s. record {
      bytes = s.bytes.items;
      room = s.room;
      puts = s.puts.items;
      calls = s.calls;
      faults = s.faults;
    } };

    ghost invariant = { λ s. (length s.bytes.items ≤ s.room) × (s.room ≤ vec_capacity s.bytes) };
}

impl MemSink {
    /// An empty sink with room for so many bytes. `puts` are the numbers, from 0, of the puts that are to
    /// fail. A put past the room fails too.
    pub fn new(alloc: Global, room: u32, puts: Vec<u64>) -> Result<MemSink, NoMemory>
        ensures { IfOk result (λ s. s
            ≡ record { bytes = []; room = room; puts = puts.items; calls = 0; faults = 0 }) }
    {
        Ok(MemSink {
            bytes: Vec::with_capacity(alloc, room as usize)?,
            room,
            puts,
            calls: 0,
            faults: 0,
        })
    }

    /// The bytes that the sink holds.
    pub fn bytes(&self) -> &[u8]
        ensures { result.now ≡ self.now.bytes }
    {
        self.bytes.as_slice()
    }
}

impl Sink for MemSink {
    ghost use Rattle.farm_base.specs.InMemory.{sink_state};

    ghost state = { sink_state };

    /// As the trait says, and exactly: Failed where this put is to fail or would pass the room.
    fn put(&mut self, piece: &[u8]) -> Result<(), SinkFault>
        ensures state { Puts (sink_state self.old) (sink_state self.new) piece.now result }
        ensures fails { is_err result ≡ put_fails self.old (length piece.now) }
        ensures exact { self.new ≡ after_put self.old piece.now }
    {
        let room = self.room as usize - self.bytes.len();
        let fails = is_to_fail(self.puts.as_slice(), self.calls) || room < piece.len();
        self.calls = self.calls.saturating_add(1);
        if fails {
            self.faults = self.faults.saturating_add(1);
            self.bytes
                .extend_from_slice(&piece[..room.min(piece.len() / 2)])
                .unwrap();
            return Err(SinkFault::Failed);
        }
        self.bytes.extend_from_slice(piece).unwrap();
        Ok(())
    }
}
