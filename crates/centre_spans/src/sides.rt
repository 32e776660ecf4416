//! The centres along one side of a window.
ghost use Rattle.std.specs.Prelude.{◌≡◌, ℕ, ◌+◌, ◌*◌, ◌/◌, ◌<◌, ◌≤◌, nat_le};

// A quotient: by a shift where the divisor is a power of two, as the units of a pixel mostly are.
fn quotient(n: u64, divisor: u32) -> u64
    requires { 1 ≤ divisor }
    ensures { result ≡ n / divisor }
{
    let digits = divisor.trailing_zeros();
    if digits < 32 && 1 << digits == divisor {
        n >> digits
    } else {
        n / u64::from(divisor)
    }
}

/// Of the centres along a side of a window, which begins at `start` and has `count` pixels of `pixel`
/// units, the first that lies at `v` or past it: its column or row, or `count` where none does.
pub fn first_at(start: u32, pixel: u32, count: u32, v: u64) -> u32
    requires { 1 ≤ pixel }
    ensures within { result ≤ count }
    ensures splits { (i : ℕ) → i < count
        → nat_le result i ≡ nat_le v (start + i * pixel + pixel / 2) }
{
    let middle = u64::from(start) + u64::from(pixel / 2);
    if v <= middle {
        return 0;
    }
    let steps = quotient(v - middle - 1, pixel);
    if steps < u64::from(count) {
        steps as u32 + 1
    } else {
        count
    }
}
