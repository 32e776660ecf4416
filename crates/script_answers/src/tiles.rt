//! Tiles.
ghost use Rattle.std.specs.Prelude.{◌≡◌, IfOk, Some};
ghost use Rattle.script_answers.specs.Answers as spec;
ghost use Rattle.script_answers.specs.inner.Parts as parts;

use crate::asks::numbered;
use farm_base::{Bytes, MetaFault, NoMemory, Text};
use farm_history::{Fetched, Looked};
use std::alloc::Global;

fn meta_number(fault: MetaFault) -> u64
    ensures { result ≡ spec.meta_number fault }
{
    match fault {
        MetaFault::Short(_) => 1,
        MetaFault::Magic => 2,
        MetaFault::Compressed => 3,
        MetaFault::Count(_) => 4,
        MetaFault::Place(_, _, _) => 5,
        MetaFault::Index(_) => 6,
    }
}

fn tile_head(alloc: Global, word: &str, version: u64, bytes: &Bytes) -> Result<Text, NoMemory>
    ensures { IfOk result (λ t. t ≡ parts.tile_head word.now version bytes.now) }
{
    let len = bytes.as_slice().len();
    Ok(Text::from_string(format!(in alloc; "{word}{version} {len}\n")?))
}

/// The first line of a fetch: `clean V LEN` or `dirty V LEN`, behind which the tile's bytes stand and a
/// newline, or `missing`, `unservable`, `gone`, `spoilt K` or `getfailed`, behind which nothing stands.
pub fn fetch_head(alloc: Global, answer: &Fetched) -> Result<Text, NoMemory>
    ensures { IfOk result (λ t. parts.fetch_head answer.now ≡ Some t) }
{
    match answer {
        Fetched::Clean(version, bytes) => tile_head(alloc, "clean ", *version, bytes),
        Fetched::Dirty(version, bytes) => tile_head(alloc, "dirty ", *version, bytes),
        Fetched::Missing => Text::of(alloc, "missing\n"),
        Fetched::Unservable => Text::of(alloc, "unservable\n"),
        Fetched::Gone => Text::of(alloc, "gone\n"),
        Fetched::Spoilt(fault) => numbered(alloc, "spoilt ", meta_number(*fault)),
        Fetched::GetFailed => Text::of(alloc, "getfailed\n"),
        Fetched::NoMemory => Err(NoMemory),
    }
}

/// The line of a look: `clean V`, `dirty V`, `missing` or `unservable`.
pub fn look_line(alloc: Global, answer: Looked) -> Result<Text, NoMemory>
    ensures { IfOk result (λ t. t ≡ spec.look_line answer) }
{
    match answer {
        Looked::Clean(version) => numbered(alloc, "clean ", version),
        Looked::Dirty(version) => numbered(alloc, "dirty ", version),
        Looked::Missing => Text::of(alloc, "missing\n"),
        Looked::Unservable => Text::of(alloc, "unservable\n"),
    }
}
