//! The parts of a PPM text, each read from an offset of the text on.
ghost use Rattle.std.specs.Prelude.{◌≡◌, ℕ, ◌+◌, ◌*◌, ◌≤◌, ◌<◌, length, drop, IfOk, Ok, Err};
ghost use Rattle.farm_base.specs.Digits.{is_digit};
ghost use Rattle.plain_image.specs.PpmText.{is_whitespace, one_byte, one_blank, gap, gap_end, after_in_gap, digits, side, gap_side, magic, greatest, head};
ghost use Rattle.plain_shapes.specs.Images.{IsSides};
ghost use Rattle.plain_image.specs.declared.reading.Gap.TheVariants.{Bare};
ghost use Rattle.plain_world.specs.Limits.{most_side};

use crate::reading::{Gap, Head, PpmFault, Side};
use plain_world::MOST_SIDE;

fn is_whitespace(b: u8) -> bool
    ensures { result ≡ is_whitespace b }
{
    b == b' ' || b == b'\t' || b == b'\r' || b == b'\n'
}

fn is_digit(b: u8) -> bool
    ensures { result ≡ is_digit b }
{
    b >= b'0' && b <= b'9'
}

fn one_byte(bytes: &[u8], at: usize, c: u8) -> Result<usize, PpmFault>
    requires { at ≤ length bytes.now }
    ensures value { result ≡ one_byte c at (drop at bytes.now) }
    ensures within { IfOk result (λ n. n ≤ length bytes.now) }
{
    if at < bytes.len() && bytes[at] == c {
        Ok(at + 1)
    } else {
        Err(PpmFault::Bad(at as u64))
    }
}

fn one_blank(bytes: &[u8], at: usize) -> Result<usize, PpmFault>
    requires { at ≤ length bytes.now }
    ensures value { result ≡ one_blank at (drop at bytes.now) }
    ensures within { IfOk result (λ n. n ≤ length bytes.now) }
{
    if at < bytes.len() && is_whitespace(bytes[at]) {
        Ok(at + 1)
    } else {
        Err(PpmFault::Bad(at as u64))
    }
}

// The place in a gap after a byte of it, or none where the byte belongs to what follows.
fn after_in_gap(place: Gap, b: u8) -> Option<Gap>
    ensures { result ≡ after_in_gap place b }
{
    match place {
        Gap::Comment => {
            if b == b'\n' {
                Some(Gap::Blank)
            } else {
                Some(Gap::Comment)
            }
        }
        Gap::Bare => after_no_comment(b),
        Gap::Blank => after_no_comment(b),
    }
}

fn after_no_comment(b: u8) -> Option<Gap>
    ensures { result ≡ after_in_gap Bare b }
{
    if is_whitespace(b) {
        Some(Gap::Blank)
    } else if b == b'#' {
        Some(Gap::Comment)
    } else {
        None
    }
}

fn gap_end(place: Gap, at: usize) -> Result<usize, PpmFault>
    ensures value { result ≡ gap_end place at }
    ensures within { IfOk result (λ n. n ≡ at) }
{
    match place {
        Gap::Blank => Ok(at),
        Gap::Bare => Err(PpmFault::Bad(at as u64)),
        Gap::Comment => Err(PpmFault::Bad(at as u64)),
    }
}

fn gap(bytes: &[u8], at: usize) -> Result<usize, PpmFault>
    requires { at ≤ length bytes.now }
    ensures value { result ≡ gap Bare at (drop at bytes.now) }
    ensures within { IfOk result (λ n. n ≤ length bytes.now) }
{
    let mut place = Gap::Bare;
    for i in at..bytes.len() {
        match after_in_gap(place, bytes[i]) {
            Some(next) => place = next,
            None => return gap_end(place, i),
        }
    }
    Err(PpmFault::Bad(bytes.len() as u64))
}

// A side: digits without a leading zero.
fn side(bytes: &[u8], at: usize) -> Result<Side, PpmFault>
    requires { at ≤ length bytes.now }
    ensures value { result ≡ side at (drop at bytes.now) }
    ensures next { IfOk result (λ s. s.next ≤ length bytes.now) }
    ensures some { IfOk result (λ s. 1 ≤ s.value) }
    ensures few { IfOk result (λ s. s.value ≤ most_side) }
{
    if at < bytes.len() && bytes[at] >= b'1' && bytes[at] <= b'9' {
        digits(bytes, at + 1, u32::from(bytes[at] - b'0'))
    } else {
        Err(PpmFault::Bad(at as u64))
    }
}

fn digits(bytes: &[u8], at: usize, first: u32) -> Result<Side, PpmFault>
    requires inside { at ≤ length bytes.now }
    requires some { 1 ≤ first }
    requires few { first ≤ most_side }
    ensures value { result ≡ digits first at (drop at bytes.now) }
    ensures next { IfOk result (λ s. s.next ≤ length bytes.now) }
    ensures some { IfOk result (λ s. 1 ≤ s.value) }
    ensures few { IfOk result (λ s. s.value ≤ most_side) }
{
    let mut value = first;
    for i in at..bytes.len() {
        let b = bytes[i];
        if !is_digit(b) {
            return Ok(Side { value, next: i });
        }
        value = value * 10 + u32::from(b - b'0');
        if value > MOST_SIDE {
            return Err(PpmFault::TooLarge);
        }
    }
    Ok(Side {
        value,
        next: bytes.len(),
    })
}

fn gap_side(bytes: &[u8], at: usize) -> Result<Side, PpmFault>
    requires { at ≤ length bytes.now }
    ensures value { result ≡ gap_side bytes.now at }
    ensures next { IfOk result (λ s. s.next ≤ length bytes.now) }
    ensures some { IfOk result (λ s. 1 ≤ s.value) }
    ensures few { IfOk result (λ s. s.value ≤ most_side) }
{
    let start = gap(bytes, at)?;
    side(bytes, start)
}

fn magic(bytes: &[u8]) -> Result<usize, PpmFault>
    ensures value { result ≡ magic bytes.now }
    ensures within { IfOk result (λ n. n ≤ length bytes.now) }
{
    let six = one_byte(bytes, 0, b'P')?;
    one_byte(bytes, six, b'6')
}

fn greatest(bytes: &[u8], at: usize) -> Result<usize, PpmFault>
    requires { at ≤ length bytes.now }
    ensures value { result ≡ greatest bytes.now at }
    ensures within { IfOk result (λ n. n ≤ length bytes.now) }
{
    let two = gap(bytes, at)?;
    let five = one_byte(bytes, two, b'2')?;
    let last = one_byte(bytes, five, b'5')?;
    let blank = one_byte(bytes, last, b'5')?;
    one_blank(bytes, blank)
}

/// The head of a text: its sides, and where its pixels begin.
pub fn head(bytes: &[u8]) -> Result<Head, PpmFault>
    ensures value { result ≡ head bytes.now }
    ensures start { IfOk result (λ h. h.start ≤ length bytes.now) }
    ensures sides { IfOk result (λ h. IsSides h.cols h.rows) }
{
    let behind = magic(bytes)?;
    let cols = gap_side(bytes, behind)?;
    let rows = gap_side(bytes, cols.next)?;
    let start = greatest(bytes, rows.next)?;
    Ok(Head {
        cols: cols.value,
        rows: rows.value,
        start,
    })
}
