//! Decimal numbers.
ghost use Rattle.std.specs.Prelude.{◌≡◌, ◌≤◌, ◌<◌, ◌^◌, ◌↔◌, ℕ, Some, length, true};
ghost use Rattle.std.specs.List.{list_all};
ghost use Rattle.farm_base.specs.Digits.{is_digit};
ghost use Rattle.paint_texts.specs.Decimals as spec;

use crate::digits::{are_digits, front_len, number};

/// A decimal number in hundredths: up to 12 digits, then maybe `.` and 1 or 2 digits; the whole part may
/// be missing where a fraction stands. `None` exactly where the text is none.
pub fn hundredths(text: &str) -> Option<u64>
    ensures value { result ≡ spec.hundredths_of text.now }
    ensures exact { (n : ℕ) → (result ≡ Some n) ↔ spec.IsDecimal 2 text.now n }
{
    decimal(text, 2)
}

/// A decimal number in thousandths: up to 12 digits, then maybe `.` and 1 to 3 digits, of at most 1.
/// `None` exactly where the text is none.
pub fn thousandths(text: &str) -> Option<u32>
    ensures value { result ≡ spec.thousandths_of text.now }
    ensures exact { (n : ℕ) → (result ≡ Some n) ↔ (spec.IsDecimal 3 text.now n × (n ≤ 1000)) }
{
    at_most_one(decimal(text, 3))
}

fn at_most_one(n: Option<u64>) -> Option<u32>
    ensures { result ≡ spec.at_most_one n }
{
    match n {
        Some(n) => { if n <= 1000 { Some(n as u32) } else { None } }
        None => None,
    }
}

#[tactic(auto, using(crate::proofs::Runs::front_digits), unfolding(crate::specs::Decimals::decimal_of))]
fn decimal(text: &str, places: u32) -> Option<u64>
    requires { places ≤ 3 }
    ensures { result ≡ spec.decimal_of places text.now }
{
    let bytes = text.as_bytes();
    let len = front_len(bytes);
    ended(&bytes[..len], &bytes[len..], places)
}

fn ended(whole: &[u8], rest: &[u8], places: u32) -> Option<u64>
    requires few { places ≤ 3 }
    requires digits { list_all is_digit whole.now ≡ true }
    ensures { result ≡ spec.fixed_point_in places whole.now rest.now }
{
    if rest.is_empty() {
        if 1 <= whole.len() && whole.len() <= 12 {
            return Some(scaled(whole, rest, places));
        }
        return None;
    }
    let fraction = &rest[1..];
    let fits = rest[0] == b'.'
        && whole.len() <= 12
        && are_digits(fraction)
        && 1 <= fraction.len()
        && fraction.len() <= places as usize;
    if fits {
        Some(scaled(whole, fraction, places))
    } else {
        None
    }
}

#[tactic(auto, unfolding(crate::specs::Decimals::fixed_point))]
fn scaled(whole: &[u8], fraction: &[u8], places: u32) -> u64
    requires places { places ≤ 3 }
    requires whole_digits { list_all is_digit whole.now ≡ true }
    requires whole_few { length whole.now ≤ 12 }
    requires digits { list_all is_digit fraction.now ≡ true }
    requires few { length fraction.now ≤ places }
    ensures { result ≡ spec.fixed_point places whole.now fraction.now }
{
    number(whole) * ten_to(places) + number(fraction) * ten_to(places - fraction.len() as u32)
}

fn ten_to(n: u32) -> u64
    requires { n ≤ 3 }
    ensures { result ≡ 10 ^ n }
{
    match n {
        0 => 1,
        1 => 10,
        2 => 100,
        _ => 1000,
    }
}
