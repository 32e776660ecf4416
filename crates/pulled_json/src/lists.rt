//! Lists, pulled item by item.
ghost use Rattle.std.specs.Prelude.{◌≡◌, ◌<◌, ◌++◌, ◌∷◌, [], List, Result, Ok, Some, IfSome, OnSome, length};
ghost use Rattle.json.specs.Json.{value, items};
ghost use Rattle.serde_json.specs.Data.{Data, Items, array};
ghost use Rattle.serde_json.specs.Read.{of_json, of_items, converted};
ghost use Rattle.reading.specs.Lists.{list_of};

use json::{Reader, Token};
use std::alloc::Global;

/// Pulls one item of a list, with the items before it and something that is known of them.
pub trait PullItem {
    type Item: Drop;

    type Fault: Drop;

    type Known;

    /// What an item is read as, after those before it.
    ghost reads: { Self → List Self.Item → Data → Result Self.Item Self.Fault };

    /// What is known of the items.
    ghost knows: { Self.Known → List Self.Item → Type 0 };

    fn pull(
        &self,
        alloc: Global,
        known: &mut Self::Known,
        before: &[Self::Item],
        reader: &mut Reader<'_>,
        depth: usize,
    ) -> Option<Self::Item>
        requires { knows known.old before.now }
        ensures value { IfSome result (λ x. (d : Data)
            × (converted of_json (value depth reader.old) ≡ Some (d, reader.new))
            × (reads self.now before.now d ≡ Ok x)) }
        ensures shorter { OnSome result (length reader.new < length reader.old) }
        ensures known { IfSome result (λ x. knows known.new (before.now ++ x ∷ [])) };
}

fn pull_items<P: PullItem>(
    alloc: Global,
    pulls: &P,
    known: &mut P::Known,
    reader: &mut Reader<'_>,
    depth: usize,
) -> Option<Vec<P::Item>>
    requires { P.knows known.old [] }
    ensures value { IfSome result (λ v. (ds : Items)
        × (converted of_items (items (value depth) (length reader.old) reader.old)
        ≡ Some (ds, reader.new))
        × (list_of (P.reads pulls.now) ds ≡ Ok v.items)) }
    ensures shorter { OnSome result (length reader.new < length reader.old) }
    ensures known { IfSome result (λ v. P.knows known.new v.items) }
{
    let mut found = Vec::new(alloc);
    'items: while !reader.take_end_array() {
        let item = pulls.pull(alloc, known, found.as_slice(), reader, depth)?;
        if let Err(refused) = found.push(item) {
            drop(refused);
            return None;
        }
    }
    Some(found)
}

/// Pulls the next value as a list.
pub fn pull_list<P: PullItem>(
    alloc: Global,
    pulls: &P,
    known: &mut P::Known,
    reader: &mut Reader<'_>,
    depth: usize,
) -> Option<Vec<P::Item>>
    requires { P.knows known.old [] }
    ensures value { IfSome result (λ v. (ds : Items)
        × (converted of_json (value depth reader.old) ≡ Some (array ds, reader.new))
        × (list_of (P.reads pulls.now) ds ≡ Ok v.items)) }
    ensures shorter { OnSome result (length reader.new < length reader.old) }
    ensures known { IfSome result (λ v. P.knows known.new v.items) }
{
    let Some(Token::BeginArray) = reader.next() else {
        return None;
    };
    if depth == 0 {
        return None;
    }
    pull_items(alloc, pulls, known, reader, depth - 1)
}
