//! Lists, read item by item.
ghost use Rattle.std.specs.Prelude.{◌≡◌, ◌≤◌, ◌<◌, ◌++◌, ◌∷◌, [], ℕ, Bool, List, Result, length, IsTrue, IfOk};
ghost use Rattle.serde_json.specs.Data.{Data};
ghost use Rattle.serde_json.specs.View.{view, items_view};
ghost use Rattle.reading.specs.Steps.{Gives};
ghost use Rattle.reading.specs.Lists.{list_of};
ghost use Rattle.farm_base.specs.Earlier.{each_after};

use crate::json::ReadFault;
use serde_json::Value;
use std::alloc::Global;

/// Reads one item of a list, with the items before it.
pub trait ReadItem {
    type Item: Drop;

    type Fault: ReadFault;

    /// A list has fewer places than this, so that a place fits the number it is told by.
    ghost limit: { Self → ℕ };

    /// What an item is read as, after those before it.
    ghost reads: { Self → List Self.Item → Data → Result Self.Item Self.Fault };

    /// What holds of an item that was read, after those before it.
    ghost keeps: { Self → List Self.Item → Self.Item → Bool };

    fn read(
        &self,
        alloc: Global,
        before: &[Self::Item],
        value: &Value,
    ) -> Result<Self::Item, Self::Fault>
        requires { length before.now < limit self.now }
        ensures value { Gives Self.Fault.memory (λ x. x)
            (reads self.now before.now (view value.now)) result }
        ensures kept { IfOk result (λ x. IsTrue (keeps self.now before.now x)) };
}

/// Reads a list: the items in order, or the first fault.
#[tactic(auto, using(crate::proofs::Steps::list_more, crate::proofs::Steps::list_fails, crate::proofs::Steps::list_ends, crate::proofs::Steps::each_more))]
pub fn read_list<R: ReadItem>(
    alloc: Global,
    reader: &R,
    values: &[Value],
) -> Result<Vec<R::Item>, R::Fault>
    requires { length values.now ≤ R.limit reader.now }
    ensures value { Gives R.Fault.memory (λ v. v.items)
        (list_of (R.reads reader.now) (items_view values.now)) result }
    ensures kept { IfOk result (λ v. IsTrue (each_after (R.keeps reader.now) [] v.items)) }
    ensures count { IfOk result (λ v. length v.items ≤ length values.now) }
{
    let Ok(mut read) = Vec::with_capacity(alloc, values.len()) else {
        return Err(R::Fault::no_memory());
    };
    for value in values {
        match reader.read(alloc, read.as_slice(), value) {
            Ok(item) => match read.push(item) {
                Ok(()) => {}
                Err(_) => return Err(R::Fault::no_memory()),
            },
            Err(fault) => return Err(fault),
        }
    }
    Ok(read)
}

/// Reads one item of a list, with the items before it and something that is known of them, as a set
/// of their numbers.
pub trait ReadKnown {
    type Item: Drop;

    type Fault: ReadFault;

    type Known;

    /// A list has fewer places than this, so that a place fits the number it is told by.
    ghost limit: { Self → ℕ };

    /// What an item is read as, after those before it.
    ghost reads: { Self → List Self.Item → Data → Result Self.Item Self.Fault };

    /// What holds of an item that was read, after those before it.
    ghost keeps: { Self → List Self.Item → Self.Item → Bool };

    /// What is known of the items.
    ghost knows: { Self.Known → List Self.Item → Type 0 };

    fn read(
        &self,
        alloc: Global,
        known: &mut Self::Known,
        before: &[Self::Item],
        value: &Value,
    ) -> Result<Self::Item, Self::Fault>
        requires place { length before.now < limit self.now }
        requires known { knows known.old before.now }
        ensures value { Gives Self.Fault.memory (λ x. x)
            (reads self.now before.now (view value.now)) result }
        ensures kept { IfOk result (λ x. IsTrue (keeps self.now before.now x)) }
        ensures known { IfOk result (λ x. knows known.new (before.now ++ x ∷ [])) };
}

/// Reads a list with something that is known of the items before each: the items in order, or the
/// first fault.
#[tactic(auto, using(crate::proofs::Steps::list_more, crate::proofs::Steps::list_fails, crate::proofs::Steps::list_ends, crate::proofs::Steps::each_more))]
pub fn read_list_with<R: ReadKnown>(
    alloc: Global,
    reader: &R,
    known: &mut R::Known,
    values: &[Value],
) -> Result<Vec<R::Item>, R::Fault>
    requires place { length values.now ≤ R.limit reader.now }
    requires known { R.knows known.old [] }
    ensures value { Gives R.Fault.memory (λ v. v.items)
        (list_of (R.reads reader.now) (items_view values.now)) result }
    ensures kept { IfOk result (λ v. IsTrue (each_after (R.keeps reader.now) [] v.items)) }
    ensures count { IfOk result (λ v. length v.items ≤ length values.now) }
    ensures known { IfOk result (λ v. R.knows known.new v.items) }
{
    let Ok(mut read) = Vec::with_capacity(alloc, values.len()) else {
        return Err(R::Fault::no_memory());
    };
    for value in values {
        match reader.read(alloc, known, read.as_slice(), value) {
            Ok(item) => match read.push(item) {
                Ok(()) => {}
                Err(_) => return Err(R::Fault::no_memory()),
            },
            Err(fault) => return Err(fault),
        }
    }
    Ok(read)
}
