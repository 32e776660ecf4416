//! From a metatile to its path.
ghost use Rattle.std.specs.Prelude.{◌≡◌, ◌≤◌, ◌<◌, ◌+◌, ◌++◌, ◌∷◌, length};
ghost use Rattle.std.specs.Fmt.{decimal};
ghost use Rattle.arrayvec.specs.ArrayString.{array_string_len};
ghost use Rattle.plain_world.specs.World.{IsMeta};
ghost use Rattle.tile_paths.specs.Paths.{IsName, path_of};
ghost use Rattle.tile_paths.specs.Paths as spec;

use arrayvec::ArrayString;
use itoa::Buffer;
use plain_world::Meta;

/// The path under which a map's metatile is stored: `name/z/h4/h3/h2/h1/h0.meta`, where `h0` has the
/// lowest four bits of x and y, `h1` the next four, and so on (mod_tile's `xyz_to_meta`). The name has
/// 1 to 40 bytes of `a` to `z`, `0` to `9`, `_` and `-`.
#[tactic(auto, unfolding(crate::specs::Paths::path_of))]
pub fn path(name: &str, m: Meta) -> ArrayString<80>
    requires name { IsName name.now }
    requires meta { IsMeta m }
    ensures { result.bytes ≡ path_of name.now m }
{
    let (x1, y1) = (m.x / 16, m.y / 16);
    let (x2, y2) = (x1 / 16, y1 / 16);
    let (x3, y3) = (x2 / 16, y2 / 16);
    let mut out = ArrayString::new();
    out.push_str(name);
    put_number(&mut out, m.z);
    put_number(&mut out, beside(x3 / 16, y3 / 16));
    put_number(&mut out, beside(x3, y3));
    put_number(&mut out, beside(x2, y2));
    put_number(&mut out, beside(x1, y1));
    put_number(&mut out, beside(m.x, m.y));
    out.push_str(".meta");
    out
}

fn beside(x: u32, y: u32) -> u32
    ensures value { result ≡ spec.nibbles x y }
    ensures small { result < 256 }
{
    x % 16 * 16 + y % 16
}

// Appends a slash and a number of at most three digits.
#[tactic(auto, using(crate::proofs::Numbers::decimal_short))]
fn put_number(out: &mut ArrayString<80>, n: u32)
    requires small { n < 256 }
    requires room { array_string_len out.old + 4 ≤ 80 }
    ensures bytes { out.new.bytes ≡ out.old.bytes ++ 47 ∷ decimal n }
    ensures len { array_string_len out.new ≤ array_string_len out.old + 4 }
{
    let mut digits = Buffer::new();
    out.push_str("/");
    out.push_str(digits.format(n));
}
