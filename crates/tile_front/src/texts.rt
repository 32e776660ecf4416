//! The heads of answers.
ghost use Rattle.std.specs.Prelude.{◌≡◌, ◌++◌, OnOk, IfOk, string_bytes};
ghost use Rattle.tile_front.specs.Answers as spec;

use farm_base::{Bytes, NoMemory};
use std::alloc::Global;

// The head of an answer of this status, with more lines that may be none, before a body of so many bytes.
#[tactic(auto, unfolding(crate::specs::Answers::response_head))]
fn answer_head(
    alloc: Global,
    status: &str,
    kind: &str,
    more: &str,
    len: usize,
) -> Result<String, NoMemory>
    ensures { IfOk result
        (λ t. string_bytes t ≡ spec.response_head status.now kind.now len more.now) }
{
    Ok(format!(in alloc;
        "HTTP/1.1 {status}\r\nContent-Type: {kind}\r\nContent-Length: {len}\r\n{more}Connection: close\r\n\r\n"
    )?)
}

/// An answer of this status, whose body is a text.
#[tactic(auto, unfolding(crate::specs::Answers::text_answer))]
pub(crate) fn put_text(
    alloc: Global,
    status: &str,
    body: &str,
    response: &mut Vec<u8>,
) -> Result<(), NoMemory>
    ensures { OnOk result
        (response.new.items ≡ response.old.items ++ spec.text_answer status.now body.now) }
{
    let head = answer_head(alloc, status, "text/plain", "", body.len())?;
    response.extend_from_slice(head.as_str().as_bytes())?;
    response.extend_from_slice(body.as_bytes())?;
    Ok(())
}

/// An answer with a picture, `clean` or `dirty`, of a data version. Where its head is as long as the room that a fetch leaves
/// before the picture (`farm_core`), the picture is not copied.
pub(crate) fn put_picture(
    alloc: Global,
    word: &str,
    version: u64,
    picture: Bytes,
    response: &mut Vec<u8>,
) -> Result<(), NoMemory>
    ensures { OnOk result (response.new.items
        ≡ response.old.items ++ spec.picture_answer word.now version picture) }
{
    let (status, kind) = ("200 OK", "image/x-portable-pixmap");
    let len = picture.as_slice().len();
    let more = format!(in alloc; "X-Tile: {word}\r\nX-Version: {version}\r\n")?;
    let head = format!(in alloc;
        "HTTP/1.1 {status}\r\nContent-Type: {kind}\r\nContent-Length: {len}\r\n{more}Connection: close\r\n\r\n"
    )?;
    picture.put_with_head(head.as_str().as_bytes(), response)
}
