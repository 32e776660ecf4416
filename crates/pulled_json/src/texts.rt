//! Whole texts.
ghost use Rattle.std.specs.Prelude.{◌≡◌, Some, OnSome};
ghost use Rattle.serde_json.specs.Data.{Members, no_members, object};
ghost use Rattle.reading.specs.Json.{json_of};

use crate::objects::{PullMember, pull_object};
use json::{Reader, Scratch};
use std::alloc::Global;
use std::str;

/// How deep the lists and objects of a text may nest, as `serde_json` reads it.
const MAX_DEPTH: usize = 127;

/// Pulls a text that is an object. The scratch is kept for a text that is pulled once more, so that no block of
/// its size is let go and taken anew.
pub fn pull_text<P: PullMember>(
    alloc: Global,
    pulls: &P,
    gathered: &mut P::Gathered,
    scratch: &mut Scratch,
    bytes: &[u8],
) -> Option<()>
    requires { P.has pulls.now gathered.old no_members }
    ensures { OnSome result ((all : Members) × (json_of bytes.now ≡ Some (object all))
        × P.has pulls.now gathered.new all) }
{
    let Ok(text) = str::from_utf8(bytes) else {
        return None;
    };
    let Ok(mut reader) = Reader::new(text, scratch) else {
        return None;
    };
    pull_object(alloc, pulls, gathered, &mut reader, MAX_DEPTH)?;
    if reader.next().is_some() {
        return None;
    }
    Some(())
}
