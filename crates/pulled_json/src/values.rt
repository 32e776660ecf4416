//! One JSON value, pulled from the tokens of a text.

ghost use Rattle.std.specs.Prelude.{ℕ, ◌≡◌, ◌<◌, ◌==◌, Some, true, false, IfSome, OnSome, length, slice_index};
ghost use Rattle.fast_float.specs.Text.{minus};
ghost use Rattle.json.specs.Json.{value, items, members};
ghost use Rattle.serde_json.specs.Data.{no_members, string};
ghost use Rattle.serde_json.specs.Read.{number_of, number_from, float_of, of_json, of_items, of_members, converted};
ghost use Rattle.serde_json.specs.View.{view, number_view, items_view, members_view};

use fast_float::Numeral;
use json::{Reader, Token};
use serde_json::{Map, Number, Value};
use std::alloc::Global;

fn has_minus(bytes: &[u8]) -> bool
    ensures { result ≡ (slice_index bytes.now 0 == minus) }
{
    bytes.first() == Some(&b'-')
}

fn nearest(is_negative: bool, numeral: &Numeral<'_>) -> Option<Number>
    ensures { IfSome result (λ n. float_of is_negative numeral.now ≡ Some (number_view n)) }
{
    Number::from_f64(numeral.to_float::<f64>(is_negative))
}

fn without_sign(numeral: &Numeral<'_>) -> Option<Number>
    ensures { IfSome result (λ n. number_from false numeral.now ≡ Some (number_view n)) }
{
    match numeral.to_u64() {
        Some(n) => Some(Number::from(n)),
        None => nearest(false, numeral),
    }
}

fn with_sign(numeral: &Numeral<'_>) -> Option<Number>
    ensures { IfSome result (λ n. number_from true numeral.now ≡ Some (number_view n)) }
{
    match numeral.to_i64(true) {
        Some(n) => if n < 0 {
            Some(Number::from(n))
        } else {
            nearest(true, numeral)
        },
        None => nearest(true, numeral),
    }
}

#[tactic(auto, unfolding(serde_json::specs::Read::number_of))]
fn number_at(text: &str) -> Option<Number>
    ensures { IfSome result (λ n. number_of text.now ≡ Some (number_view n)) }
{
    let bytes = text.as_bytes();
    if has_minus(bytes) {
        match bytes.get(1..) {
            Some(digits) => with_sign(&Numeral::scan(digits)),
            None => None,
        }
    } else {
        without_sign(&Numeral::scan(bytes))
    }
}

/// The next value. None says that there is none, that it nests deeper, that a number is out of range,
/// or that memory ran out.
#[cycle(pulls)]
pub fn value_from(alloc: Global, reader: &mut Reader<'_>, depth: usize) -> Option<Value>
    ensures value { IfSome result
        (λ v. converted of_json (value depth reader.old) ≡ Some (view v, reader.new)) }
    ensures shorter { OnSome result (length reader.new < length reader.old) }
{
    match reader.next()? {
        Token::String(text) => match String::from_str(alloc, text) {
            Ok(text) => Some(Value::String(text)),
            Err(_) => None,
        },
        Token::Number(text) => Some(Value::Number(number_at(text)?)),
        Token::Bool(b) => Some(Value::Bool(b)),
        Token::Null => Some(Value::Null),
        Token::BeginArray => {
            if depth == 0 {
                return None;
            }
            Some(Value::Array(list_from(alloc, reader, depth - 1)?))
        }
        Token::BeginObject => {
            if depth == 0 {
                return None;
            }
            Some(Value::Object(object_from(alloc, reader, depth - 1)?))
        }
        _ => None,
    }
}

#[cycle(pulls)]
fn list_from(alloc: Global, reader: &mut Reader<'_>, depth: usize) -> Option<Vec<Value>>
    ensures value { IfSome result
        (λ v. converted of_items (items (value depth) (length reader.old) reader.old)
        ≡ Some (items_view v.items, reader.new)) }
    ensures shorter { OnSome result (length reader.new < length reader.old) }
{
    let mut found = Vec::new(alloc);
    'items: while !reader.take_end_array() {
        let item = value_from(alloc, reader, depth)?;
        if found.push(item).is_err() {
            return None;
        }
    }
    Some(found)
}

#[cycle(pulls)]
fn object_from(alloc: Global, reader: &mut Reader<'_>, depth: usize) -> Option<Map<String, Value>>
    ensures value { IfSome result (λ m. converted (λ ms. of_members ms no_members)
        (members (value depth) (length reader.old) reader.old)
        ≡ Some (members_view m.entries, reader.new)) }
    ensures shorter { OnSome result (length reader.new < length reader.old) }
{
    let mut found = Map::new(alloc);
    'members: loop {
        let Ok(next) = reader.next_key() else {
            return None;
        };
        let Some(name) = next else {
            break 'members;
        };
        let Ok(key) = String::from_str(alloc, name) else {
            return None;
        };
        let member = value_from(alloc, reader, depth)?;
        let Ok(earlier) = found.insert(key, member) else {
            return None;
        };
        drop(earlier);
    }
    Some(found)
}

/// The next value, which has to be a text.
pub fn str_from<'a>(reader: &mut Reader<'a>) -> Option<&'a str>
    ensures value { IfSome result (λ s. (depth : ℕ)
        → converted of_json (value depth reader.old) ≡ Some (string s.now, reader.new)) }
    ensures shorter { OnSome result (length reader.new < length reader.old) }
{
    match reader.next()? {
        Token::String(text) => Some(text),
        _ => None,
    }
}
