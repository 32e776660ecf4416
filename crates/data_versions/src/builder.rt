//! Features that are put into the segments of a layer one after another.
ghost use Rattle.std.specs.Prelude.{◌≡◌, ◌∷◌, ◌++◌, [], IfOk, OnOk};
ghost use Rattle.data_versions.specs.inner.Building.{built};
ghost use Rattle.data_versions.specs.inner.Parts.{laid};

use crate::chunk::Chunk;
use crate::segment::Segment;
use crate::shared::SharedFeature;
use crate::sieve::MOST_TOGETHER;
use farm_base::NoMemory;
use std::alloc::Global;
use std::mem;

/// A segment that has so many chunks is full. An update that changes one of its features copies the sieves of
/// them all, and each update counts all segments.
const FULL_SEGMENT: usize = 32;

/// The segments so far, the chunks that are to become the next one, and the features that are to become the next
/// chunk.
#[derive(Drop)]
pub(crate) struct Builder {
    pub(crate) segments: Vec<Segment>,
    chunks: Vec<Chunk>,
    loose: Vec<SharedFeature>,
}

impl Builder {
    /// No features yet.
    pub(crate) fn new(alloc: Global) -> Builder
        ensures { built result ≡ [] }
    {
        Builder {
            segments: Vec::new(alloc),
            chunks: Vec::new(alloc),
            loose: Vec::new(alloc),
        }
    }

    /// Makes a segment of the chunks so far.
    pub(crate) fn close_segment(&mut self, alloc: Global) -> Result<(), NoMemory>
        requires { self.old.loose.items ≡ [] }
        ensures all { OnOk result (laid self.new.segments.items ≡ built self.old) }
        ensures chunks { self.new.chunks.items ≡ [] }
        ensures loose { self.new.loose.items ≡ [] }
    {
        if self.chunks.is_empty() {
            return Ok(());
        }
        let chunks = mem::replace(&mut self.chunks, Vec::new(alloc));
        self.segments.push(Segment::of(alloc, chunks)?)?;
        Ok(())
    }

    /// Puts a chunk at the end.
    pub(crate) fn add_chunk(&mut self, alloc: Global, chunk: Chunk) -> Result<(), NoMemory>
        requires { self.old.loose.items ≡ [] }
        ensures all { OnOk result (built self.new ≡ built self.old ++ chunk) }
        ensures loose { self.new.loose.items ≡ [] }
    {
        if self.chunks.len() >= FULL_SEGMENT {
            self.close_segment(alloc)?;
        }
        if self.chunks.is_empty() {
            self.chunks.reserve(FULL_SEGMENT)?;
        }
        self.chunks.push(chunk)?;
        Ok(())
    }

    /// Makes a chunk of the features that are in none.
    pub(crate) fn close_chunk(&mut self, alloc: Global) -> Result<(), NoMemory>
        ensures all { OnOk result (built self.new ≡ built self.old) }
        ensures loose { self.new.loose.items ≡ [] }
    {
        if self.loose.is_empty() {
            return Ok(());
        }
        let features = mem::replace(&mut self.loose, Vec::new(alloc));
        let chunk = Chunk::of(alloc, features)?;
        self.add_chunk(alloc, chunk)
    }

    /// Puts a feature at the end.
    pub(crate) fn add(&mut self, alloc: Global, feature: SharedFeature) -> Result<(), NoMemory>
        ensures { OnOk result (built self.new ≡ built self.old ++ feature ∷ []) }
    {
        if self.loose.len() >= MOST_TOGETHER {
            self.close_chunk(alloc)?;
        }
        if self.loose.is_empty() {
            self.loose.reserve(MOST_TOGETHER)?;
        }
        self.loose.push(feature)?;
        Ok(())
    }

    /// The segments of all the features.
    pub(crate) fn into_segments(mut self, alloc: Global) -> Result<Vec<Segment>, NoMemory>
        ensures { IfOk result (λ segments. laid segments.items ≡ built self) }
    {
        self.close_chunk(alloc)?;
        self.close_segment(alloc)?;
        Ok(self.segments)
    }
}
