//! Whole numbers: distances and roots.
ghost use Rattle.std.specs.Prelude.{◌≡◌, ℕ, ◌+◌, ◌-◌, ◌*◌, ◌/◌, ◌%◌, ◌^◌, ◌<◌, ◌≤◌, max, min, true, nat_le};

use std::num::{f64_to_bits_with_nan, saturating_f64_to_u64};

/// How far two numbers are apart.
pub fn apart(m: u64, n: u64) -> u64
    ensures { result ≡ m - n + (n - m) }
{
    if m < n { n - m } else { m - n }
}

/// The root of a number, rounded down: the numbers up to it are those whose square is at most `n`.
///
/// A float's root is it, but for a number that is long or next to a square: then a step of Newton's is taken from there.
/// Each guess is tested in whole numbers, so nothing rests on floats.
#[tactic(auto, using(crate::proofs::Roots::root_is))]
pub fn root(n: u128) -> u64
    ensures low { result * result ≤ n }
    ensures is { (d : ℕ) → nat_le d result ≡ nat_le (d * d) n }
{
    let guess = float_root(n);
    if is_root(guess, n) {
        return guess;
    }
    let nearer = halfway(guess, quotient(n, guess));
    if is_root(nearer, n) {
        return nearer;
    }
    n.isqrt() as u64
}

/// The root of a number that is not long, rounded down: it takes less than half the time.
#[tactic(auto, using(crate::proofs::Roots::root_is))]
pub fn short_root(n: u64) -> u64
    requires { n ≤ 2 ^ 62 }
    ensures low { result * result ≤ n }
    ensures is { (d : ℕ) → nat_le d result ≡ nat_le (d * d) n }
{
    let guess = halves(float_of(n).sqrt()) / 2;
    if is_short_root(guess, n) {
        return guess;
    }
    root(u128::from(n))
}

// How many halves a float below 2^50 has, rounded to the nearest after a quarter is taken away, so that half of it is the
// float rounded down: those are the last digits of its sum with 2^51, and found sooner than by taking the float apart.
fn halves(x: f64) -> u64 {
    f64_to_bits_with_nan(x + 2_251_799_813_685_247.75) % (1 << 52)
}

fn is_short_root(guess: u64, n: u64) -> bool
    ensures low { result ≡ true → guess * guess ≤ n }
    ensures high { result ≡ true → n < (guess + 1) * (guess + 1) }
{
    if guess >= 1 << 32 {
        return false;
    }
    let square = guess * guess;
    square <= n && n - square <= 2 * guess
}

fn halfway(m: u64, n: u64) -> u64 {
    m.min(n) + apart(m, n) / 2
}

// At most the greatest number that is short.
fn quotient(n: u128, divisor: u64) -> u64 {
    (n / u128::from(divisor.max(1))).min(u128::from(u64::MAX)) as u64
}

fn float_root(n: u128) -> u64 {
    let low = float_of((n % (1 << 64)) as u64);
    if n < 1 << 64 {
        return saturating_f64_to_u64(low.sqrt());
    }
    let high = float_of((n >> 64) as u64);
    saturating_f64_to_u64((high * 18_446_744_073_709_551_616.0 + low).sqrt())
}

fn float_of(n: u64) -> f64 {
    f64::from((n >> 32) as u32) * 4_294_967_296.0 + f64::from((n % (1 << 32)) as u32)
}

fn is_root(guess: u64, n: u128) -> bool
    ensures low { result ≡ true → guess * guess ≤ n }
    ensures high { result ≡ true → n < (guess + 1) * (guess + 1) }
{
    let square = u128::from(guess) * u128::from(guess);
    square <= n && n - square <= 2 * u128::from(guess)
}

/// `2^64` over a number, rounded down, or hardly less: by it a product stands for a division by that number, which
/// takes many times as long.
pub fn inverse(divisor: u64) -> u64
    ensures { result ≡ (2 ^ 64 - 1) / max divisor 1 }
{
    u64::MAX / divisor.max(1)
}

/// A quotient, rounded down. Where `inverse` is that of the divisor it is mostly found by it; it is right whatever
/// that number is.
pub fn quotient_down(n: u64, divisor: u64, inverse: u64) -> u64
    requires { 1 ≤ divisor }
    ensures { result ≡ n / divisor }
{
    let guess = guessed(n, inverse);
    if is_down(guess, n, divisor) {
        guess
    } else {
        n / divisor
    }
}

/// A quotient, rounded up, found in the same way.
pub fn quotient_up(n: u64, divisor: u64, inverse: u64) -> u64
    requires { 1 ≤ divisor }
    ensures { result ≡ n / divisor + min 1 (n % divisor) }
{
    let guess = guessed(n, inverse).wrapping_add(1);
    if is_up(guess, n, divisor) {
        guess
    } else {
        n.div_ceil(divisor)
    }
}

// A number over another one, rounded down, or one less, where the second one has this inverse.
fn guessed(n: u64, inverse: u64) -> u64 {
    ((u128::from(n) * u128::from(inverse)) >> 64) as u64
}

#[tactic(auto, using(crate::proofs::Quotients::down_is))]
fn is_down(guess: u64, n: u64, divisor: u64) -> bool
    requires { 1 ≤ divisor }
    ensures { result ≡ true → guess ≡ n / divisor }
{
    let product = u128::from(guess) * u128::from(divisor);
    product <= u128::from(n) && u128::from(n) - product < u128::from(divisor)
}

#[tactic(auto, using(crate::proofs::Quotients::up_is))]
fn is_up(guess: u64, n: u64, divisor: u64) -> bool
    requires { 1 ≤ divisor }
    ensures { result ≡ true → guess ≡ n / divisor + min 1 (n % divisor) }
{
    let product = u128::from(guess) * u128::from(divisor);
    u128::from(n) <= product && product - u128::from(n) < u128::from(divisor)
}
