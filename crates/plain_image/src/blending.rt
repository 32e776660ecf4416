//! The arithmetic of painting, over colours that are kept as bytes: three for each, one behind another.
ghost use Rattle.std.specs.Prelude.{◌≡◌, ℕ, ◌-◌, ◌*◌, ◌≤◌, ◌<◌, length, flat_map, slice_get, slice_set, Some};
ghost use Rattle.plain_shapes.specs.declared.colour.Colour.{Colour};
ghost use Rattle.plain_shapes.specs.Ppm.{pixel_bytes};
ghost use Rattle.plain_shapes.specs.Blending.{blend_channel, blend};
ghost use Rattle.plain_image.specs.PpmText.{colours};
ghost use Rattle.plain_image.specs.Runs.{run_changed};
ghost use Rattle.plain_world.specs.Limits.{most_side};

use plain_shapes::Colour;

fn channel(s: u8, opacity: u32, d: u8) -> u8
    requires { opacity ≤ 1000 }
    ensures { result ≡ blend_channel opacity s d }
{
    ((u32::from(s) * opacity + u32::from(d) * (1000 - opacity) + 500) / 1000) as u8
}

/// The colour `s` painted over the colour `d`.
pub fn over(s: Colour, opacity: u32, d: Colour) -> Colour
    requires { opacity ≤ 1000 }
    ensures { result ≡ blend s opacity d }
{
    if opacity == 1000 {
        return s;
    }
    Colour {
        r: channel(s.r, opacity, d.r),
        g: channel(s.g, opacity, d.g),
        b: channel(s.b, opacity, d.b),
    }
}

fn colour_at(bytes: &[u8], k: usize) -> Colour
    requires kept { flat_map pixel_bytes (colours bytes.now) ≡ bytes.now }
    requires inside { k < length (colours bytes.now) }
    requires few { length (colours bytes.now) ≤ most_side * most_side }
    ensures { slice_get (colours bytes.now) k ≡ Some result }
{
    Colour {
        r: bytes[k * 3],
        g: bytes[k * 3 + 1],
        b: bytes[k * 3 + 2],
    }
}

fn put_colour(bytes: &mut [u8], k: usize, c: Colour)
    requires kept { flat_map pixel_bytes (colours bytes.old) ≡ bytes.old }
    requires inside { k < length (colours bytes.old) }
    requires few { length (colours bytes.old) ≤ most_side * most_side }
    ensures { bytes.new ≡ flat_map pixel_bytes (slice_set (colours bytes.old) k c) }
{
    bytes[k * 3] = c.r;
    bytes[k * 3 + 1] = c.g;
    bytes[k * 3 + 2] = c.b;
}

/// Paints the colours from the place `start` on and before the place `end` over with the colour `s`.
/// The bytes are a slice that is taken once: a compiler must fear that a byte stored through a list
/// changes the list's own fields, and would read these again after each.
pub fn paint_run(s: Colour, opacity: u32, start: usize, end: usize, bytes: &mut [u8])
    requires opacity { opacity ≤ 1000 }
    requires kept { flat_map pixel_bytes (colours bytes.old) ≡ bytes.old }
    requires order { start ≤ end }
    requires inside { end ≤ length (colours bytes.old) }
    requires few { length (colours bytes.old) ≤ most_side * most_side }
    ensures { bytes.new ≡ flat_map pixel_bytes
        (run_changed (blend s opacity) start (end - start) (colours bytes.old)) }
{
    for k in start..end {
        let d = colour_at(bytes, k);
        put_colour(bytes, k, over(s, opacity, d));
    }
}
