//! Runs of decimal digits.
ghost use Rattle.std.specs.Prelude.{◌≡◌, ◌≤◌, ◌<◌, ◌^◌, true, length, drop};
ghost use Rattle.std.specs.List.{list_all, prefix_len};
ghost use Rattle.farm_base.specs.Digits.{is_digit};
ghost use Rattle.paint_texts.specs.Decimals as spec;

pub fn is_digit(c: u8) -> bool
    ensures { result ≡ is_digit c }
{
    b'0' <= c && c <= b'9'
}

/// How many digits stand at the front.
pub fn front_len(bytes: &[u8]) -> usize
    ensures value { result ≡ prefix_len is_digit bytes.now }
    ensures bound { result ≤ length bytes.now }
{
    bytes.iter().take_while(|c| is_digit(**c)).count()
}

/// Whether there is nothing but digits.
pub fn are_digits(bytes: &[u8]) -> bool
    ensures { result ≡ list_all is_digit bytes.now }
{
    bytes.iter().all(|c| is_digit(*c))
}

/// The number that up to 12 digits spell.
pub fn number(digits: &[u8]) -> u64
    requires digits { list_all is_digit digits.now ≡ true }
    requires few { length digits.now ≤ 12 }
    ensures value { result ≡ spec.number digits.now }
    ensures bound { result < 10 ^ length digits.now }
{
    let mut n = 0;
    for digit in digits {
        n = 10 * n + u64::from(*digit - b'0');
    }
    n
}
