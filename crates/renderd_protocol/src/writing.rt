//! From messages to bytes.
ghost use Rattle.std.specs.Prelude.{◌≡◌, ◌+◌, ◌-◌, ◌≤◌, ◌<◌, ◌++◌, length, replicate, IsTrue};
ghost use Rattle.arrayvec.specs.ArrayVec.{array_vec_len};
ghost use Rattle.byteorder.specs.Endian.{little_bytes};
ghost use Rattle.renderd_protocol.specs.Messages.{is_version, field_of, wire_of};

use crate::messages::{MESSAGE_BYTES, Request, TEXT_BYTES};
use arrayvec::ArrayVec;
use byteorder::{ByteOrder, LittleEndian};

/// The message of a request with this command in place of its own: an answer repeats the request.
/// Texts that the request's version has no place for are left out.
#[tactic(auto, unfolding(crate::specs::Messages::wire_of))]
pub fn write(r: &Request, cmd: u32) -> ArrayVec<u8, MESSAGE_BYTES>
    requires { IsTrue (is_version r.now.ver) }
    ensures { result.items ≡ wire_of r.now cmd }
{
    let mut out = ArrayVec::new();
    put_number(&mut out, r.ver);
    put_number(&mut out, cmd);
    put_number(&mut out, r.x);
    put_number(&mut out, r.y);
    put_number(&mut out, r.z);
    if r.ver == 2 {
        put_text(&mut out, &r.name);
        put_zeros(&mut out, 3);
    } else if r.ver == 3 {
        put_text(&mut out, &r.name);
        put_text(&mut out, &r.mime);
        put_text(&mut out, &r.options);
        put_zeros(&mut out, 1);
    }
    out
}

fn put_number(out: &mut ArrayVec<u8, MESSAGE_BYTES>, number: u32)
    requires { array_vec_len out.old + 4 ≤ MESSAGE_BYTES }
    ensures items { out.new.items ≡ out.old.items ++ little_bytes 4 number }
    ensures len { array_vec_len out.new ≡ array_vec_len out.old + 4 }
{
    let mut bytes = [0u8; 4];
    LittleEndian::write_u32(&mut bytes, number);
    out.try_extend_from_slice(&bytes).unwrap();
}

fn put_zeros(out: &mut ArrayVec<u8, MESSAGE_BYTES>, count: usize)
    requires { array_vec_len out.old + count ≤ MESSAGE_BYTES }
    ensures items { out.new.items ≡ out.old.items ++ replicate count 0 }
    ensures len { array_vec_len out.new ≡ array_vec_len out.old + count }
{
    for _ in 0..count {
        out.push(0);
    }
}

fn put_text(out: &mut ArrayVec<u8, MESSAGE_BYTES>, text: &ArrayVec<u8, TEXT_BYTES>)
    requires { array_vec_len out.old + 41 ≤ MESSAGE_BYTES }
    ensures items { out.new.items ≡ out.old.items ++ field_of text.now.items }
    ensures len { array_vec_len out.new ≡ array_vec_len out.old + 41 }
{
    let text = text.as_slice();
    out.try_extend_from_slice(text).unwrap();
    put_zeros(out, TEXT_BYTES + 1 - text.len());
}
