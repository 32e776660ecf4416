//! Numbers in decimal.
ghost use Rattle.std.specs.Prelude.{◌≡◌, ◌<◌, ◌^◌, IfSome};
ghost use Rattle.farm_base.specs.Numbers.{decimal_below};

use itoa::Buffer;

/// The number of 64 bits that the text is in decimal, without sign or leading zeros; `None` exactly
/// where it is none.
pub fn number(text: &str) -> Option<u64>
    ensures { result ≡ decimal_below (2 ^ 64) text.now }
{
    let Ok(number) = text.parse::<u64>() else {
        return None;
    };
    let mut digits = Buffer::new();
    if digits.format(number) != text {
        return None;
    }
    Some(number)
}

/// The same for numbers of 32 bits.
pub fn small_number(text: &str) -> Option<u32>
    ensures value { result ≡ decimal_below (2 ^ 32) text.now }
    ensures small { IfSome result (λ n. n < 2 ^ 32) }
{
    match number(text) {
        Some(number) if number < 1 << 32 => Some(number as u32),
        _ => None,
    }
}

/// The same for numbers below a bound.
pub fn number_below(text: &str, bound: u32) -> Option<u32>
    ensures value { result ≡ decimal_below bound text.now }
    ensures below { IfSome result (λ n. n < bound) }
{
    match small_number(text) {
        Some(number) if number < bound => Some(number),
        _ => None,
    }
}
