//! What a connection's bytes ask for.
ghost use Rattle.std.specs.Prelude.{◌≤◌, length};
ghost use Rattle.farm_base.specs.Limits.{most_head_bytes};
ghost use Rattle.tile_front.specs.Requests.{Reads};

use crate::heads::{Head, read_head};
use crate::targets::{Target, read_target};
use std::str::from_utf8;

/// What the bytes of a connection ask for.
#[derive(Clone, Copy)]
pub enum Request<'a> {
    /// More bytes are waited for.
    Open,
    /// No head of at most 32 headers will come.
    Bad,
    /// The method is not `GET`.
    NotGet,
    /// The target is that of no tile.
    NoTarget,
    /// The target is got.
    Get(Target<'a>),
}

/// What the bytes of a connection ask for, of which 8,192 are read at most: by the head that they begin
/// with, as `httparse` reads it in its default form, with room for 32 headers. A request is refused
/// where no bytes can follow that make a head, where all 8,192 bytes are there and no head of at most 32
/// headers, and where there are more headers and an empty line. What stands behind the head is not read.
pub fn read_request(bytes: &[u8]) -> Request<'_>
    requires { length bytes.now ≤ most_head_bytes }
    ensures { Reads bytes.entry.now result }
{
    match read_head(bytes) {
        Head::Open => Request::Open,
        Head::Bad => Request::Bad,
        Head::Whole(method, target) => {
            if method != b"GET".as_slice() {
                return Request::NotGet;
            }
            let Ok(text) = from_utf8(target) else {
                return Request::NoTarget;
            };
            match read_target(text) {
                Some(target) => Request::Get(target),
                None => Request::NoTarget,
            }
        }
    }
}
