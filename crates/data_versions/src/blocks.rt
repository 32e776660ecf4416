//! Blocks one after another.
ghost use Rattle.std.specs.Prelude.{◌≡◌, ◌≤◌, ◌<◌, ◌+◌, ◌++◌, length, slice_get, slice_index, IfOk, OnOk, IfSome};
ghost use Rattle.std.specs.List.{flat_map};
ghost use Rattle.std.specs.Option.{option_copied};
ghost use Rattle.data_versions.specs.inner.Ids.{numbered};
ghost use Rattle.data_versions.specs.inner.Parts.{IsLaid, IsPart, next_answer};
ghost use Rattle.data_versions.specs.inner.Questions.{answers};
ghost use Rattle.data_versions.specs.inner.Sieves.{Sifts};

use crate::block::Block;
use crate::question::{Question, first_answer};
use crate::shared::SharedFeature;
use crate::sieve::{ALL_SIFTED, Sifted};
use farm_base::NoMemory;
use std::alloc::Global;
use std::marker::Model;

/// Blocks in order, and the place of each one's first feature. Contracts see them as the list of their features.
#[derive(Drop)]
pub(crate) struct Blocks<B: Block> {
    list: Vec<B>,
    starts: Vec<u32>,
    count: u32,
}

impl<B: Block> Model for Blocks<B> {
    ghost use Rattle.std.specs.Prelude.{List};
    ghost use Rattle.std.specs.List.{flat_map};
    ghost use Rattle.plain_shapes.specs.Features.{Feature};
    ghost use Rattle.data_versions.specs.inner.Parts.{IsLaid};

    ghost Value = { List Feature };

    ghost view = { λ b. flat_map B.features b.list.items };

    ghost invariant = { λ b. IsLaid B.features b.starts.items b.count b.list.items };
}

// The place of each block's first feature, and how many features there are. More than a `u32` counts are more
// than memory holds.
fn starts_of<B: Block>(alloc: Global, blocks: &[B]) -> Result<(Vec<u32>, u32), NoMemory>
    ensures { IfOk result (λ r. IsLaid B.features r.0.items r.1 blocks.now) }
{
    let mut starts = Vec::with_capacity(alloc, blocks.len())?;
    let mut count = 0u32;
    for block in blocks {
        starts.push(count)?;
        let Some(next) = count.checked_add(block.len()) else {
            return Err(NoMemory);
        };
        count = next;
    }
    Ok((starts, count))
}

fn last_start(starts: &[u32], place: u32) -> usize
    requires some { 0 < length starts.now }
    requires first { slice_index starts.now 0 ≤ place }
    ensures bound { result < length starts.now }
    ensures begun { slice_index starts.now result ≤ place }
    ensures next { result + 1 < length starts.now → place < slice_index starts.now (result + 1) }
{
    let mut low = 0;
    let mut high = starts.len();
    while high - low > 1 {
        let middle = low + (high - low) / 2;
        if starts[middle] <= place {
            low = middle;
        } else {
            high = middle;
        }
    }
    low
}

impl<B: Block> Blocks<B> {
    /// The blocks in a list.
    pub(crate) fn of(alloc: Global, blocks: Vec<B>) -> Result<Blocks<B>, NoMemory>
        ensures { IfOk result (λ b. b ≡ flat_map B.features blocks.items) }
    {
        let (starts, count) = starts_of(alloc, blocks.as_slice())?;
        Ok(Blocks {
            list: blocks,
            starts,
            count,
        })
    }

    /// The blocks in order.
    pub(crate) fn blocks(&self) -> &[B]
        ensures { flat_map B.features result.now ≡ self.now }
    {
        self.list.as_slice()
    }

    /// How many features there are.
    pub(crate) fn len(&self) -> u32
        ensures { result ≡ length self.now }
    {
        self.count
    }

    /// The feature at the place.
    pub(crate) fn get(&self, i: u32) -> Option<&SharedFeature>
        ensures { option_copied result ≡ slice_get self.now i }
    {
        if i >= self.count {
            return None;
        }
        let at = last_start(self.starts.as_slice(), i);
        self.list[at].get(i - self.starts[at])
    }

    /// The place, from the place `from` on, before which no feature answers the question, features that stand
    /// side by side from there on, and which of them may be looked for.
    pub(crate) fn part_from(&self, from: u32, question: Question) -> (u32, &[SharedFeature], Sifted)
        ensures part { IsPart (answers question) from result.0 result.1.now self.now }
        ensures sifted { Sifts question result.2 result.1.now }
    {
        let count = self.len();
        if from >= count {
            return (from, &[], ALL_SIFTED);
        }
        for at in last_start(self.starts.as_slice(), from)..self.list.len() {
            let block = &self.list[at];
            if block.may_answer(question) {
                let start = self.starts[at];
                let (place, part, sifted) = block.part_from(from.saturating_sub(start), question);
                return (start + place, part, sifted);
            }
        }
        (count, &[], ALL_SIFTED)
    }

    /// The place of the first feature from the place `from` on that answers the question.
    pub(crate) fn find(&self, mut from: u32, question: Question) -> Option<u32>
        ensures { result ≡ next_answer (answers question) self.now from }
    {
        let count = self.len();
        while from < count {
            let (place, part, _) = self.part_from(from, question);
            if let Some(steps) = first_answer(part, question) {
                return Some(place + steps as u32);
            }
            from = place + part.len() as u32;
        }
        None
    }

    /// Adds the ids, each with its place.
    pub(crate) fn number(&self, pairs: &mut Vec<(u64, u32)>) -> Result<(), NoMemory>
        requires { length pairs.old.items + length self.now ≤ 4294967295 }
        ensures { OnOk result
            (pairs.new.items ≡ pairs.old.items ++ numbered (length pairs.old.items) self.now) }
    {
        for block in self.blocks() {
            block.number(pairs)?;
        }
        Ok(())
    }
}
