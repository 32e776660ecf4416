//! A segment of a layer: chunks that snapshots share.
ghost use Rattle.std.specs.Prelude.{◌≡◌, All, IfOk};
ghost use Rattle.data_versions.specs.inner.Extents.{IsIn};
ghost use Rattle.data_versions.specs.inner.Parts.{laid};

use crate::block::Block;
use crate::blocks::Blocks;
use crate::chunk::Chunk;
use crate::extent::{Extent, NO_EXTENT};
use crate::question::Question;
use crate::shared::SharedFeature;
use crate::sieve::Sifted;
use farm_base::NoMemory;
use std::alloc::Global;
use std::marker::Model;
use std::sync::Arc;

/// A share of some chunks, and the extent and the number of their features. Contracts see it as the list of these.
#[derive(Drop)]
pub(crate) struct Segment {
    extent: Extent,
    count: u32,
    chunks: Arc<Blocks<Chunk>>,
}

impl Model for Segment {
    ghost use Rattle.std.specs.Prelude.{◌≡◌, List, All, length};
    ghost use Rattle.plain_shapes.specs.Features.{Feature};
    ghost use Rattle.data_versions.specs.inner.Extents.{IsIn};

    ghost Value = { List Feature };

    ghost view = { λ s. s.chunks.value };

    ghost invariant = { λ s. All (IsIn s.extent) s.chunks.value
        × (s.count ≡ length s.chunks.value) };
}

fn extent_over(chunks: &[Chunk]) -> Extent
    ensures { All (IsIn result) (laid chunks.now) }
{
    let mut extent = NO_EXTENT;
    for chunk in chunks {
        extent = extent.with(chunk.extent());
    }
    extent
}

impl Segment {
    /// The segment of the chunks.
    pub(crate) fn of(alloc: Global, chunks: Vec<Chunk>) -> Result<Segment, NoMemory>
        ensures { IfOk result (λ s. s ≡ laid chunks.items) }
    {
        let extent = extent_over(chunks.as_slice());
        let blocks = Blocks::of(alloc, chunks)?;
        Ok(Segment {
            extent,
            count: blocks.len(),
            chunks: Arc::new(alloc, blocks)?,
        })
    }

    /// The same with one more share of the chunks.
    pub(crate) fn share(&self) -> Result<Segment, NoMemory>
        ensures { IfOk result (λ s. s ≡ self.now) }
    {
        Ok(Segment {
            extent: self.extent,
            count: self.count,
            chunks: Arc::try_clone(&self.chunks)?,
        })
    }

    /// The extent of the features.
    pub(crate) fn extent(&self) -> Extent {
        self.extent
    }

    /// The chunks.
    pub(crate) fn chunks(&self) -> &Blocks<Chunk>
        ensures { result.now ≡ self.now }
    {
        &self.chunks
    }
}

impl Block for Segment {
    ghost features = { λ fs. fs };

    fn len(&self) -> u32 {
        self.count
    }

    fn may_answer(&self, question: Question) -> bool {
        self.extent.may_answer(question)
    }

    fn get(&self, i: u32) -> Option<&SharedFeature> {
        self.chunks.get(i)
    }

    fn part_from(&self, from: u32, question: Question) -> (u32, &[SharedFeature], Sifted) {
        self.chunks.part_from(from, question)
    }

    fn number(&self, pairs: &mut Vec<(u64, u32)>) -> Result<(), NoMemory> {
        self.chunks.number(pairs)
    }
}
