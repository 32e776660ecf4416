//! A text and a list of bytes: plain wrappers that contracts see as lists of bytes.
ghost use Rattle.std.specs.Prelude.{◌≡◌, ◌≤◌, ◌++◌, IfOk, OnOk, length, drop, string_bytes};

use crate::memory::NoMemory;
use arrayvec::ArrayString;
use std::alloc::Global;
use std::marker::Model;

/// Where a text is kept: one of at most 16 bytes in itself, so that it takes no block of memory.
#[derive(Drop)]
pub enum Kept {
    Here(ArrayString<16>),
    Apart(String),
}

/// A text, which contracts see as its UTF-8 bytes.
#[derive(Drop)]
pub struct Text {
    kept: Kept,
}

impl Model for Text {
    ghost use Rattle.std.specs.Prelude.{List, ℕ};
    ghost use Rattle.farm_base.specs.Texts.{bytes_kept};

    ghost Value = { List ℕ };

    ghost view = { λ t. bytes_kept t.kept };
}

impl Text {
    /// A copy of the text.
    pub fn of(alloc: Global, text: &str) -> Result<Text, NoMemory>
        ensures { IfOk result (λ t. t ≡ text.now) }
    {
        let kept = match ArrayString::from(text) {
            Ok(short) => Kept::Here(short),
            Err(_) => Kept::Apart(String::from_str(alloc, text)?),
        };
        Ok(Text { kept })
    }

    /// The text of a string, which is moved in.
    pub fn from_string(text: String) -> Text
        ensures { result ≡ string_bytes text }
    {
        Text {
            kept: Kept::Apart(text),
        }
    }

    /// The text itself.
    pub fn as_str(&self) -> &str
        ensures { result.now ≡ self.now }
    {
        match &self.kept {
            Kept::Here(text) => text.as_str(),
            Kept::Apart(text) => text.as_str(),
        }
    }
}

/// A list of bytes, which contracts see as that list. The first `start` bytes of the vector are no part of it: a head that
/// is as long can be put there, so that what follows it is not copied.
#[derive(Drop)]
pub struct Bytes {
    inner: Vec<u8>,
    start: usize,
}

impl Model for Bytes {
    ghost use Rattle.std.specs.Prelude.{List, ℕ, ◌≤◌, length, drop};

    ghost Value = { List ℕ };

    ghost view = { λ b. drop b.start b.inner.items };

    ghost invariant = { λ b. b.start ≤ length b.inner.items };
}

/// Copies bytes over as many at a vector's front.
pub fn put_front(bytes: &mut Vec<u8>, front: &[u8])
    requires { length front.now ≤ length bytes.old.items }
    ensures { bytes.new.items ≡ front.now ++ drop (length front.now) bytes.old.items }
{
    bytes[0..front.len()].copy_from_slice(front);
}

impl Bytes {
    /// A copy of the bytes.
    pub fn of(alloc: Global, bytes: &[u8]) -> Result<Bytes, NoMemory>
        ensures { IfOk result (λ b. b ≡ bytes.now) }
    {
        Ok(Bytes::from_vec(Vec::from_slice(alloc, bytes)?))
    }

    /// The bytes of a vector, which is moved in.
    pub fn from_vec(bytes: Vec<u8>) -> Bytes
        ensures { result ≡ bytes.items }
    {
        Bytes::behind_room(bytes, 0)
    }

    /// The bytes of a vector behind its first `room` ones, which stay as room for a head.
    pub fn behind_room(bytes: Vec<u8>, room: usize) -> Bytes
        requires { room ≤ length bytes.items }
        ensures { result ≡ drop room bytes.items }
    {
        Bytes {
            inner: bytes,
            start: room,
        }
    }

    /// The bytes themselves.
    pub fn as_slice(&self) -> &[u8]
        ensures { result.now ≡ self.now }
    {
        &self.inner[self.start..]
    }

    /// Puts a head and then the bytes behind those of a vector. Where that has none, and the head is as long as the room
    /// before the bytes, it becomes their own vector, and the bytes are not copied.
    pub fn put_with_head(self, head: &[u8], into: &mut Vec<u8>) -> Result<(), NoMemory>
        ensures { OnOk result (into.new.items ≡ into.old.items ++ head.now ++ self) }
    {
        let Bytes { mut inner, start } = self;
        if into.is_empty() && start == head.len() {
            put_front(&mut inner, head);
            *into = inner;
            return Ok(());
        }
        into.reserve(head.len() + (inner.len() - start))?;
        into.extend_from_slice(head)?;
        into.extend_from_slice(&inner[start..])?;
        Ok(())
    }
}
