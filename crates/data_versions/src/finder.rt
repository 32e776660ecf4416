//! Features of a layer, found by their ids.
ghost use Rattle.std.specs.Prelude.{◌≡◌, List, slice_get, IfOk};
ghost use Rattle.std.specs.Option.{option_copied};
ghost use Rattle.std.specs.List.Sorted.{IsNonDecreasingBy, IsPermutation};
ghost use Rattle.std.specs.Str.{bytes_eq};
ghost use Rattle.plain_shapes.specs.Data.{IsLayer};
ghost use Rattle.plain_shapes.specs.Features.{Feature};
ghost use Rattle.data_versions.specs.Near.{place_of};
ghost use Rattle.data_versions.specs.inner.Ids.{IsIdTable};

use crate::chunked::ChunkedLayer;
use crate::segment::Segment;
use farm_base::NoMemory;
use geo_model::Feature;
use std::alloc::Global;
use std::marker::Model;

/// The most ids of a layer for which a table of all ids is not thought of.
const MOST_WALKS: usize = 4;

/// To come to the segment that has an id, and to its chunk, takes about as long as so many looks at a segment.
const LOOKS_OF_SEARCH: usize = 64;

/// A search among the ids of each chunk of a segment, which mostly lie in no cache, takes about as long as so many
/// looks at a segment.
const LOOKS_INTO_SEGMENT: usize = 2_048;

/// A table of all ids takes for each feature of the layer about as long as so many looks at a segment.
const LOOKS_OF_TABLE: usize = 64;

// About how many looks at a segment one id takes, where a segment whose ids do not begin after those of the
// segments before it has to be searched.
fn looks_for_one(segments: &[Segment]) -> usize {
    let mut greatest = 0;
    let mut looks = LOOKS_OF_SEARCH.saturating_add(segments.len() / 2);
    for segment in segments {
        let extent = segment.extent();
        if extent.least <= greatest {
            looks = looks.saturating_add(LOOKS_INTO_SEGMENT);
        }
        greatest = greatest.max(extent.greatest);
    }
    looks
}

/// Finds the features of a layer by their ids: by walks over its segments, or by a table of all ids, once so many
/// are to be found that the walks would take longer. Contracts see it as the layer.
#[derive(Drop)]
pub struct LayerFinder<'a> {
    layer: &'a ChunkedLayer,
    /// The ids in order, each with its place.
    table: Option<Vec<(u64, u32)>>,
    /// About how many looks one id takes; known once several ids are to be found.
    looks: Option<usize>,
    expected: usize,
}

impl<'a> Model for LayerFinder<'a> {
    ghost use Rattle.std.specs.Prelude.{IfSome};
    ghost use Rattle.plain_shapes.specs.Features.{Layer};
    ghost use Rattle.plain_shapes.specs.Data.{IsLayer};
    ghost use Rattle.data_versions.specs.inner.Ids.{IsIdTable};

    ghost Value = { Layer };

    ghost view = { λ f. f.layer.now };

    ghost invariant = { λ f. IsLayer f.layer.now
        × IfSome f.table (λ t. IsIdTable t.items f.layer.now.features) };
}

fn sort_ids(pairs: &mut Vec<(u64, u32)>)
    ensures permutation { IsPermutation pairs.old.items pairs.new.items }
    ensures sorted { IsNonDecreasingBy (λ p. p.0) pairs.new.items }
{
    pairs.sort_unstable_by_key(|pair| pair.0);
}

fn id_table(alloc: Global, layer: &ChunkedLayer) -> Result<Vec<(u64, u32)>, NoMemory>
    requires { IsLayer layer.now }
    ensures { IfOk result (λ table. IsIdTable table.items layer.now.features) }
{
    let mut pairs = Vec::with_capacity(alloc, layer.len() as usize)?;
    layer.segments().number(&mut pairs)?;
    sort_ids(&mut pairs);
    Ok(pairs)
}

fn place_in(table: &[(u64, u32)], id: u64) -> Option<u32>
    ensures { (features : List Feature) → IsIdTable table.now features
        → result ≡ place_of features id }
{
    match table.binary_search_by_key(&id, |pair| pair.0) {
        Ok(at) => Some(table[at].1),
        Err(_) => None,
    }
}

impl<'a> LayerFinder<'a> {
    /// For the layer, with no ids expected yet.
    pub(crate) fn of(layer: &'a ChunkedLayer) -> LayerFinder<'a>
        requires { IsLayer layer.now }
        ensures { result ≡ layer.now }
    {
        LayerFinder {
            layer,
            table: None,
            looks: None,
            expected: 0,
        }
    }

    /// Whether the layer has the name.
    pub fn is_named(&self, name: &str) -> bool
        ensures { result ≡ bytes_eq self.now.name name.now }
    {
        self.layer.name() == name
    }

    fn looks(&mut self) -> usize
        ensures { self.new ≡ self.old }
    {
        if let Some(looks) = self.looks {
            return looks;
        }
        let looks = looks_for_one(self.layer.segments().blocks());
        self.looks = Some(looks);
        looks
    }

    /// Makes ready for so many more ids to be found: where many are expected, of all calls together, the table
    /// is made, which takes some 16 bytes for each feature of the layer.
    pub fn expect(&mut self, alloc: Global, ids: usize) -> Result<(), NoMemory>
        ensures { self.new ≡ self.old }
    {
        self.expected = self.expected.saturating_add(ids);
        if self.table.is_some() || self.expected <= MOST_WALKS {
            return Ok(());
        }
        let walks = self.looks().saturating_mul(self.expected);
        if walks <= LOOKS_OF_TABLE.saturating_mul(self.layer.len() as usize) {
            return Ok(());
        }
        self.table = Some(id_table(alloc, self.layer)?);
        Ok(())
    }

    /// The place of the feature with the id, or none exactly where no feature has it.
    pub fn place_of(&self, id: u64) -> Option<u32>
        ensures { result ≡ place_of self.now.features id }
    {
        match &self.table {
            Some(table) => place_in(table.as_slice(), id),
            None => self.layer.place_of(id),
        }
    }

    /// The feature at the place, or none exactly where there is none.
    pub fn get(&self, i: u32) -> Option<&'a Feature>
        ensures { option_copied result ≡ slice_get self.now.features i }
    {
        self.layer.get(i)
    }
}
