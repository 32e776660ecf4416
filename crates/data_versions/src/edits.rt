//! Edits of the features of a layer by their numbers, which go down the tree of its parts once.
ghost use Rattle.std.specs.Prelude.{◌≡◌, ◌≤◌, ◌+◌, ◌∷◌, ◌++◌, ℕ, List, true, false, length, MatchOption, IfOk, OnOk};
ghost use Rattle.std.specs.BTreeMap.{IsOrdered};
ghost use Rattle.std.specs.Option.{option_copied, option_to_list};
ghost use Rattle.std.specs.Ordering.{nat_cmp};
ghost use Rattle.plain_shapes.specs.Features.{Feature};
ghost use Rattle.data_versions.specs.inner.Building.{built};
ghost use Rattle.data_versions.specs.inner.Edits.{edits_of, edited, edits_at, begins_past, standing_edits};
ghost use Rattle.data_versions.specs.inner.Parts.{laid};

use crate::block::Block;
use crate::blocks::Blocks;
use crate::builder::Builder;
use crate::chunk::Chunk;
use crate::segment::Segment;
use crate::shared::SharedFeature;
use farm_base::NoMemory;
use geo_model::Feature;
use std::alloc::Global;
use std::collections::BTreeMap;
use std::marker::Model;

/// What is left of the edits, by the numbers of the features: what stands there, or that nothing does. Contracts
/// see them as a list.
#[derive(Drop)]
pub(crate) struct Edits<'a> {
    all: Vec<(u32, Option<&'a Feature>)>,
    next: usize,
}

impl<'a> Model for Edits<'a> {
    ghost use Rattle.std.specs.Prelude.{◌≤◌, ℕ, List, Option, drop, length};
    ghost use Rattle.plain_shapes.specs.Features.{Feature};
    ghost use Rattle.data_versions.specs.inner.Edits.{edits_of};

    ghost Value = { List (ℕ × Option Feature) };

    ghost view = { λ e. edits_of (drop e.next e.all.items) };

    ghost invariant = { λ e. e.next ≤ length e.all.items };
}

impl<'a> Edits<'a> {
    /// Those that were put, in the order of their numbers.
    pub(crate) fn of(
        alloc: Global,
        put: &BTreeMap<u32, Option<&'a Feature>>,
    ) -> Result<Edits<'a>, NoMemory>
        ensures all { IfOk result (λ edits. edits ≡ edits_of put.now.entries) }
        ensures ordered { OnOk result (IsOrdered nat_cmp put.now) }
    {
        let mut all = Vec::with_capacity(alloc, put.len())?;
        for (number, edit) in put.iter() {
            all.push((*number, *edit))?;
        }
        Ok(Edits { all, next: 0 })
    }

    fn begin_past(&self, number: u32) -> bool
        ensures { result ≡ begins_past number self.now }
    {
        match self.all.get(self.next) {
            Some(edit) => edit.0 > number,
            None => true,
        }
    }

    fn left(&self) -> &[(u32, Option<&'a Feature>)]
        ensures { edits_of result.now ≡ self.now }
    {
        &self.all[self.next..]
    }

    fn take(&mut self, number: u32) -> Option<Option<&'a Feature>>
        ensures { MatchOption result ((self.new ≡ self.old) × (edits_at number self.old ≡ false))
            (λ edit. self.old ≡ (number, option_copied edit) ∷ self.new) }
    {
        match self.all.get(self.next).copied() {
            Some((n, edit)) if n == number => {
                self.next += 1;
                Some(edit)
            }
            _ => None,
        }
    }
}

fn add_edit(alloc: Global, edit: Option<&Feature>, builder: &mut Builder) -> Result<(), NoMemory>
    ensures { OnOk result
        (built builder.new ≡ built builder.old ++ option_to_list (option_copied edit.entry)) }
{
    match edit {
        Some(feature) => {
            let copy = feature.copy(alloc)?;
            builder.add(alloc, SharedFeature::of(alloc, copy)?)
        }
        None => Ok(()),
    }
}

/// A block whose features can be edited.
trait Editable: Block {
    /// Puts the features at the end; the block is shared.
    fn share_into(&self, alloc: Global, builder: &mut Builder) -> Result<(), NoMemory>
        ensures { OnOk result (built builder.new ≡ built builder.old ++ Self.features self.now) };

    /// Puts the features, of which the first has the number, at the end as they are after the edits of them.
    fn edit_into(
        &self,
        alloc: Global,
        first: u32,
        edits: &mut Edits<'_>,
        builder: &mut Builder,
    ) -> Result<(), NoMemory>
        requires { first + length (Self.features self.now) ≤ 4294967295 }
        ensures { OnOk result ((more : List Feature) → built builder.old
            ++ edited first edits.old (Self.features self.now ++ more) ≡ built builder.new
            ++ edited (first + length (Self.features self.now)) edits.new more) };
}

// Puts the features of the block, of which the first has the number, at the end as they are after the edits. The
// block is shared where no edit is of one of its numbers, or of the next one: so the last block is filled up where
// new features follow.
fn edit_block<B: Editable>(
    alloc: Global,
    block: &B,
    first: u32,
    edits: &mut Edits<'_>,
    builder: &mut Builder,
) -> Result<(), NoMemory>
    requires { first + length (B.features block.now) ≤ 4294967295 }
    ensures { OnOk result ((more : List Feature)
        → built builder.old ++ edited first edits.old (B.features block.now ++ more)
        ≡ built builder.new ++ edited (first + length (B.features block.now)) edits.new more) }
{
    if edits.begin_past(first + block.len()) {
        return block.share_into(alloc, builder);
    }
    block.edit_into(alloc, first, edits, builder)
}

// Puts the features of the blocks, of which the first has the number, at the end as they are after the edits.
fn edit_blocks<B: Editable>(
    alloc: Global,
    blocks: &Blocks<B>,
    first: u32,
    edits: &mut Edits<'_>,
    builder: &mut Builder,
) -> Result<(), NoMemory>
    requires { first + length blocks.now ≤ 4294967295 }
    ensures { OnOk result
        ((more : List Feature) → built builder.old ++ edited first edits.old (blocks.now ++ more)
        ≡ built builder.new ++ edited (first + length blocks.now) edits.new more) }
{
    let mut start = first;
    for block in blocks.blocks() {
        edit_block(alloc, block, start, edits, builder)?;
        start += block.len();
    }
    Ok(())
}

// Puts the feature of the number at the end, or what stands there by the first edit.
fn edit_feature(
    alloc: Global,
    feature: &SharedFeature,
    number: u32,
    edits: &mut Edits<'_>,
    builder: &mut Builder,
) -> Result<(), NoMemory>
    ensures { OnOk result ((more : List Feature) → built builder.old ++ edited number edits.old
        (feature.now ∷ more) ≡ built builder.new ++ edited (number + 1) edits.new more) }
{
    match edits.take(number) {
        Some(edit) => add_edit(alloc, edit, builder),
        None => builder.add(alloc, feature.share()?),
    }
}

impl Editable for Chunk {
    fn share_into(&self, alloc: Global, builder: &mut Builder) -> Result<(), NoMemory> {
        builder.close_chunk(alloc)?;
        let shared = self.share()?;
        builder.add_chunk(alloc, shared)
    }

    fn edit_into(
        &self,
        alloc: Global,
        first: u32,
        edits: &mut Edits<'_>,
        builder: &mut Builder,
    ) -> Result<(), NoMemory> {
        let mut number = first;
        for feature in self.features() {
            edit_feature(alloc, feature, number, edits, builder)?;
            number += 1;
        }
        Ok(())
    }
}

impl Editable for Segment {
    fn share_into(&self, alloc: Global, builder: &mut Builder) -> Result<(), NoMemory> {
        builder.close_chunk(alloc)?;
        builder.close_segment(alloc)?;
        builder.segments.push(self.share()?)?;
        Ok(())
    }

    fn edit_into(
        &self,
        alloc: Global,
        first: u32,
        edits: &mut Edits<'_>,
        builder: &mut Builder,
    ) -> Result<(), NoMemory> {
        edit_blocks(alloc, self.chunks(), first, edits, builder)
    }
}

fn add_rest(alloc: Global, edits: &Edits<'_>, builder: &mut Builder) -> Result<(), NoMemory>
    ensures { OnOk result (built builder.new ≡ built builder.old ++ standing_edits edits.now) }
{
    for edit in edits.left() {
        add_edit(alloc, edit.1, builder)?;
    }
    Ok(())
}

/// The segments of the features as they are after the edits; what is put past the last one stands after it. The
/// parts in which nothing changed are shared.
pub(crate) fn edited_segments(
    alloc: Global,
    segments: &Blocks<Segment>,
    mut edits: Edits<'_>,
) -> Result<Vec<Segment>, NoMemory>
    ensures { IfOk result (λ v. laid v.items ≡ edited 0 edits.entry segments.now) }
{
    // Read for what `len` ensures: a u32 counts the features.
    let _count = segments.len();
    let mut builder = Builder::new(alloc);
    edit_blocks(alloc, segments, 0, &mut edits, &mut builder)?;
    add_rest(alloc, &edits, &mut builder)?;
    builder.into_segments(alloc)
}
