//! The marks of attributes, as the bits of a number.
ghost use Rattle.std.specs.Prelude.{◌≡◌, ◌<◌, true, false};
ghost use Rattle.farm_base.specs.declared.Value.TheVariants.{Truth, Whole, Text};
ghost use Rattle.attribute_marks.specs.Marks.{mixed, mark_of, HasMarks, Shares};

use farm_base::{Attr, Value};

fn mixed(bytes: &[u8]) -> u32
    ensures { result ≡ mixed bytes.now }
{
    bytes.iter().fold(
        0u32,
        |mixture, byte| mixture.wrapping_mul(31).wrapping_add(u32::from(*byte)),
    )
}

/// The mark of an attribute of this name that is this text.
pub fn mark_of_text(name: &str, text: &str) -> u32
    ensures value { result ≡ mark_of name.now (Text text.now) }
    ensures few { result < 64 }
{
    mixed(name.as_bytes()).wrapping_add(mixed(text.as_bytes())) % 64
}

/// The mark of an attribute of this name that is this whole number.
pub fn mark_of_whole(name: &str, whole: i64) -> u32
    ensures value { result ≡ mark_of name.now (Whole whole) }
    ensures few { result < 64 }
{
    let last = (whole.unsigned_abs() % 64) as u32;
    mixed(name.as_bytes()).wrapping_add(last) % 64
}

/// The mark of an attribute of this name that is this truth value: that of its name.
pub fn mark_of_truth(name: &str, truth: bool) -> u32
    ensures value { result ≡ mark_of name.now (Truth truth) }
    ensures few { result < 64 }
{
    let _ = truth;
    mixed(name.as_bytes()) % 64
}

fn mark_of(attr: &Attr) -> u32
    ensures value { result ≡ mark_of attr.now.name attr.now.value }
    ensures few { result < 64 }
{
    let name = attr.name.as_str();
    match &attr.value {
        Value::Null => mixed(name.as_bytes()) % 64,
        Value::Truth(truth) => mark_of_truth(name, *truth),
        Value::Whole(whole) => mark_of_whole(name, *whole),
        Value::Text(text) => mark_of_text(name, text.as_str()),
    }
}

/// The marks of attributes: a number in which the bit of each one's mark is set.
pub fn marks_of(attrs: &[Attr]) -> u64
    ensures { HasMarks result attrs.now }
{
    let mut marks = 0u64;
    for attr in attrs {
        marks |= 1 << mark_of(attr);
    }
    marks
}

/// Whether marks and those that are asked for have one in common.
pub fn shares(marks: u64, asked: u64) -> bool
    ensures some { result ≡ true → Shares marks asked }
    ensures none { result ≡ false → Shares marks asked → ⊥ }
{
    marks & asked != 0
}
