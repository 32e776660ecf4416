//! The names of maps.
ghost use Rattle.std.specs.Prelude.{◌≡◌};
ghost use Rattle.tile_paths.specs.Paths as spec;

/// Whether the text may be a map's name: 1 to 40 bytes of `a` to `z`, `0` to `9`, `_` and `-`.
pub fn is_name(text: &str) -> bool
    ensures { result ≡ spec.is_map_name text.now }
{
    let len = text.len();
    if len < 1 || len > 40 {
        return false;
    }
    text.as_bytes()
        .iter()
        .all(|b| matches!(*b, b'a'..=b'z' | b'0'..=b'9' | b'_' | b'-'))
}
