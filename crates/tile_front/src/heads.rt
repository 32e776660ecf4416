//! The heads of requests, as `httparse` reads them.
ghost use Rattle.std.specs.Prelude.{◌≡◌, ◌≤◌, ℕ, List, length};
ghost use Rattle.farm_base.specs.Limits.{most_head_bytes};
ghost use Rattle.tile_front.specs.Heads.{IsOpen, IsBad, ReadsHead};
ghost use Rattle.tile_front.specs.Heads as spec;

use farm_base::{MOST_HEAD_BYTES, MOST_HEAD_FIELDS};
use httparse::spans::{EMPTY_HEADER_SPAN, parse_request};
use httparse::{Error, Status};

/// A head as far as it came.
#[derive(Clone, Copy)]
pub enum Head<'a> {
    /// More bytes are waited for.
    Open,
    /// No head of at most 32 headers will come.
    Bad,
    /// The method and the target of a whole head.
    Whole(&'a [u8], &'a [u8]),
}

/// The head that the bytes begin with.
pub fn read_head(bytes: &[u8]) -> Head<'_>
    requires { length bytes.now ≤ most_head_bytes }
    ensures { ReadsHead bytes.entry.now result }
{
    let mut headers = [EMPTY_HEADER_SPAN; MOST_HEAD_FIELDS];
    let is_all = bytes.len() == MOST_HEAD_BYTES;
    match parse_request(bytes, &mut headers) {
        Ok(Status::Complete(head)) => Head::Whole(head.method.of(bytes), head.path.of(bytes)),
        Ok(Status::Partial) => open_unless(is_all),
        Err(Error::TooManyHeaders) => open_unless(is_all || has_empty_line(bytes)),
        Err(_) => Head::Bad,
    }
}

fn open_unless<'a>(ended: bool) -> Head<'a>
    ensures { result ≡ spec.open_unless ended }
{
    if ended { Head::Bad } else { Head::Open }
}

// Whether two newlines stand in the bytes with nothing or one carriage return between them.
fn has_empty_line(bytes: &[u8]) -> bool
    ensures { result ≡ spec.has_empty_line bytes.now }
{
    let mut rest = bytes;
    while let [first, behind @ ..] = rest {
        if *first == b'\n' && ends_line(behind) {
            return true;
        }
        rest = behind;
    }
    false
}

fn ends_line(bytes: &[u8]) -> bool
    ensures { result ≡ spec.ends_line bytes.now }
{
    match bytes {
        [b'\n', ..] => true,
        [b'\r', b'\n', ..] => true,
        _ => false,
    }
}
