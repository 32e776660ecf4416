//! From bytes to messages.
ghost use Rattle.std.specs.Prelude.{◌≡◌, ◌+◌, ◌≤◌, ◌<◌, length, IsTrue};
ghost use Rattle.renderd_protocol.specs.Messages.{is_version, message_len, number_at, text_field, text_at, text_from, request_in, found_in};

use crate::messages::{Found, Request, TEXT_BYTES};
use arrayvec::ArrayVec;
use byteorder::{ByteOrder, LittleEndian};

/// The message at the head of the bytes. Takes no memory, and depends on the bytes of the message
/// alone: what follows it counts for nothing.
#[tactic(auto, unfolding(crate::specs::Messages::found_in))]
pub fn next(bytes: &[u8]) -> Found
    ensures { result ≡ found_in bytes.now }
{
    if bytes.len() < 4 {
        return Found::NeedMore;
    }
    let ver = read_number(bytes, 0);
    if !is_known(ver) {
        return Found::BadVersion(ver);
    }
    let len = length_of(ver);
    if bytes.len() < len {
        return Found::NeedMore;
    }
    Found::Message(read_request(bytes, ver), len)
}

fn is_known(ver: u32) -> bool
    ensures { result ≡ is_version ver }
{
    ver == 1 || ver == 2 || ver == 3
}

fn length_of(ver: u32) -> usize
    ensures { result ≡ message_len ver }
{
    match ver {
        1 => 20,
        2 => 64,
        _ => 144,
    }
}

fn read_number(bytes: &[u8], place: usize) -> u32
    requires { place + 4 ≤ length bytes.now }
    ensures { result ≡ number_at place bytes.now }
{
    LittleEndian::read_u32(&bytes[place..])
}

#[tactic(auto, using(crate::proofs::Texts::text_more, crate::proofs::Texts::text_ends))]
fn text_of(field: &[u8]) -> ArrayVec<u8, TEXT_BYTES>
    requires { length field.now ≤ TEXT_BYTES }
    ensures { result.items ≡ text_field field.now }
{
    let mut text = ArrayVec::new();
    for byte in field {
        if *byte == 0 {
            break;
        }
        text.push(*byte);
    }
    text
}

fn read_text(bytes: &[u8], place: usize) -> ArrayVec<u8, TEXT_BYTES>
    requires { place + TEXT_BYTES ≤ length bytes.now }
    ensures { result.items ≡ text_at place bytes.now }
{
    text_of(&bytes[place..place + TEXT_BYTES])
}

fn read_text_from(bytes: &[u8], ver: u32, least: u32, place: usize) -> ArrayVec<u8, TEXT_BYTES>
    requires version { ver ≡ number_at 0 bytes.now }
    requires whole { least ≤ ver → place + TEXT_BYTES ≤ length bytes.now }
    ensures { result.items ≡ text_from least place bytes.now }
{
    if ver < least {
        return ArrayVec::new();
    }
    read_text(bytes, place)
}

fn read_request(bytes: &[u8], ver: u32) -> Request
    requires version { ver ≡ number_at 0 bytes.now }
    requires known { IsTrue (is_version ver) }
    requires whole { message_len ver ≤ length bytes.now }
    ensures { result ≡ request_in bytes.now }
{
    Request {
        ver,
        cmd: read_number(bytes, 4),
        x: read_number(bytes, 8),
        y: read_number(bytes, 12),
        z: read_number(bytes, 16),
        name: read_text_from(bytes, ver, 2, 20),
        mime: read_text_from(bytes, ver, 3, 61),
        options: read_text_from(bytes, ver, 3, 102),
    }
}
