//! Objects, pulled member by member.
ghost use Rattle.std.specs.Prelude.{◌≡◌, ◌<◌, Some, OnSome, length};
ghost use Rattle.json.specs.Json.{value, members};
ghost use Rattle.serde_json.specs.Data.{Data, Members, no_members, put, object};
ghost use Rattle.serde_json.specs.Read.{of_json, of_members, converted};

use json::{Reader, Token};
use std::alloc::Global;

/// Pulls the members of an object, one after another, and gathers what they say.
pub trait PullMember {
    type Gathered;

    /// What was gathered is what these members say.
    ghost has: { Self → Self.Gathered → Members → Type 0 };

    /// Pulls the value at the key.
    fn pull(
        &self,
        alloc: Global,
        gathered: &mut Self::Gathered,
        key: &str,
        reader: &mut Reader<'_>,
        depth: usize,
    ) -> Option<()>
        ensures value { OnSome result
            ((before : Members) → has self.now gathered.old before → (d : Data)
            × (converted of_json (value depth reader.old) ≡ Some (d, reader.new))
            × has self.now gathered.new (put key.now d before)) }
        ensures shorter { OnSome result (length reader.new < length reader.old) };
}

fn pull_members<P: PullMember>(
    alloc: Global,
    pulls: &P,
    gathered: &mut P::Gathered,
    reader: &mut Reader<'_>,
    depth: usize,
) -> Option<()>
    requires { P.has pulls.now gathered.old no_members }
    ensures value { OnSome result ((all : Members)
        × (converted (λ ms. of_members ms no_members)
        (members (value depth) (length reader.old) reader.old)
        ≡ Some (all, reader.new))
        × P.has pulls.now gathered.new all) }
    ensures shorter { OnSome result (length reader.new < length reader.old) }
{
    'members: loop {
        let Ok(next) = reader.next_key() else {
            return None;
        };
        let Some(key) = next else {
            break 'members;
        };
        pulls.pull(alloc, gathered, key, reader, depth)?;
    }
    Some(())
}

/// Pulls the next value as an object.
pub fn pull_object<P: PullMember>(
    alloc: Global,
    pulls: &P,
    gathered: &mut P::Gathered,
    reader: &mut Reader<'_>,
    depth: usize,
) -> Option<()>
    requires { P.has pulls.now gathered.old no_members }
    ensures value { OnSome result ((all : Members)
        × (converted of_json (value depth reader.old) ≡ Some (object all, reader.new))
        × P.has pulls.now gathered.new all) }
    ensures shorter { OnSome result (length reader.new < length reader.old) }
{
    let Some(Token::BeginObject) = reader.next() else {
        return None;
    };
    if depth == 0 {
        return None;
    }
    pull_members(alloc, pulls, gathered, reader, depth - 1)
}
