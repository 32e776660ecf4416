//! A layer of a snapshot: its name, and its features in segments of chunks.
ghost use Rattle.std.specs.Prelude.{◌≡◌, length, slice_get, IfOk};
ghost use Rattle.std.specs.Option.{option_copied};
ghost use Rattle.std.specs.Arc.{arc_value};
ghost use Rattle.data_versions.specs.Near.{place_of};
ghost use Rattle.data_versions.specs.inner.Parts.{laid};

use crate::blocks::Blocks;
use crate::question::Question;
use crate::segment::Segment;
use farm_base::{NoMemory, Text};
use geo_model::Feature;
use std::alloc::Global;
use std::marker::Model;
use std::sync::Arc;

/// A layer whose features are in segments that are shared. Contracts see it as the layer.
#[derive(Drop)]
pub(crate) struct ChunkedLayer {
    name: Text,
    segments: Blocks<Segment>,
}

impl Model for ChunkedLayer {
    ghost use Rattle.plain_shapes.specs.Features.{Layer};

    ghost Value = { Layer };

    ghost view = { λ l. record { name = l.name; features = l.segments } };
}

impl ChunkedLayer {
    /// A first share of the layer of the name and the segments.
    pub(crate) fn shared(
        alloc: Global,
        name: Text,
        segments: Vec<Segment>,
    ) -> Result<Arc<ChunkedLayer>, NoMemory>
        ensures { IfOk result (λ l.
            arc_value l ≡ record { name = name; features = laid segments.items }) }
    {
        let segments = Blocks::of(alloc, segments)?;
        Ok(Arc::new(alloc, ChunkedLayer { name, segments })?)
    }

    /// The layer's name.
    pub(crate) fn name(&self) -> &str
        ensures { result.now ≡ self.now.name }
    {
        self.name.as_str()
    }

    /// The segments.
    pub(crate) fn segments(&self) -> &Blocks<Segment>
        ensures { result.now ≡ self.now.features }
    {
        &self.segments
    }

    /// How many features there are.
    pub(crate) fn len(&self) -> u32
        ensures { result ≡ length self.now.features }
    {
        self.segments.len()
    }

    /// The feature at the place.
    pub(crate) fn get(&self, i: u32) -> Option<&Feature>
        ensures { option_copied result ≡ slice_get self.now.features i }
    {
        Some(self.segments.get(i)?.feature())
    }

    /// The place of the feature with the id.
    pub(crate) fn place_of(&self, id: u64) -> Option<u32>
        ensures { result ≡ place_of self.now.features id }
    {
        self.segments.find(0, Question::HasId(id))
    }
}
