//! The addresses at which a farm listens.
ghost use Rattle.std.specs.Prelude.{◌≡◌, ◌<◌, if◌then◌else◌, Some, None, is_some, option_map, option_and_then};
ghost use Rattle.farm_base.specs.Cuts.{cut_at};
ghost use Rattle.farm_base.specs.Numbers.{decimal_below};
ghost use Rattle.farm_config.specs.Addresses as spec;

use crate::limits::MOST_PATH_BYTES;
use farm_base::{cut, number_below};

fn after_number(text: &str, end: char, bound: u32) -> Option<&str>
    requires { end < 128 }
    ensures { option_map (λ s. s.now) result
        ≡ option_and_then (λ p. if is_some (decimal_below bound p.0) then Some p.1 else None)
        (cut_at end text.entry.now) }
{
    match cut(text, end) {
        Some((number, rest)) if number_below(number, bound).is_some() => Some(rest),
        _ => None,
    }
}

fn after_octet(text: &str, end: char) -> Option<&str>
    requires { end < 128 }
    ensures { option_map (λ s. s.now) result ≡ spec.after_octet end text.entry.now }
{
    after_number(text, end, 256)
}

#[tactic(auto, unfolding(crate::specs::Addresses::port_of))]
fn port(endpoint: &str) -> Option<u32>
    ensures { result ≡ spec.port_of endpoint.now }
{
    let rest = after_octet(endpoint, '.')?;
    let rest = after_octet(rest, '.')?;
    let rest = after_octet(rest, '.')?;
    let port = after_octet(rest, ':')?;
    number_below(port, 65536)
}

fn is_address_of(kind: &str, rest: &str) -> bool
    ensures { result ≡ spec.is_address_of kind.now rest.now }
{
    match kind {
        "tcp" => port(rest).is_some(),
        "unix" => 1 <= rest.len() && rest.len() <= MOST_PATH_BYTES,
        _ => false,
    }
}

/// Whether the text is an address: `tcp:a.b.c.d:port`, or `unix:` and a path of 1 to 100 bytes.
#[tactic(auto, unfolding(crate::specs::Addresses::is_address))]
pub fn is_address(text: &str) -> bool
    ensures { result ≡ spec.is_address text.now }
{
    match cut(text, ':') {
        Some((kind, rest)) => is_address_of(kind, rest),
        None => false,
    }
}
