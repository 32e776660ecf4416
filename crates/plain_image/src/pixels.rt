//! Pixels painted where bits cover them, and as the bytes behind a text.
ghost use Rattle.std.specs.Prelude.{◌≡◌, ◌*◌, ◌≤◌, ◌++◌, length, IfOk, flat_map};
ghost use Rattle.plain_shapes.specs.inner.Canvas.{painted};
ghost use Rattle.plain_shapes.specs.Ppm.{pixel_bytes};
ghost use Rattle.plain_world.specs.Limits.{most_side};

use crate::blending::over;
use crate::colours::Colours;
use farm_base::NoMemory;
use plain_shapes::Colour;
use std::alloc::Global;

/// Paints the covered pixels.
pub fn paint(covered: &[bool], s: Colour, opacity: u32, pixels: &mut Colours)
    requires opacity { opacity ≤ 1000 }
    requires len { length covered.now ≡ length pixels.old }
    requires few { length pixels.old ≤ most_side * most_side }
    ensures painted { pixels.new ≡ painted s opacity covered.now pixels.old }
    ensures len { length pixels.new ≡ length pixels.old }
{
    for (k, is_covered) in covered.iter().enumerate() {
        if *is_covered {
            let d = pixels.at(k);
            pixels.put(k, over(s, opacity, d));
        }
    }
}

/// A text and then the three bytes of each pixel.
pub fn bytes_after(alloc: Global, head: &str, pixels: &Colours) -> Result<Vec<u8>, NoMemory>
    requires few { length pixels.now ≤ most_side * most_side }
    ensures { IfOk result (λ v. v.items ≡ head.now ++ flat_map pixel_bytes pixels.now) }
{
    let mut out = Vec::with_capacity(alloc, head.len() + 3 * pixels.len())?;
    out.extend_from_slice(head.as_bytes())?;
    pixels.write_part(0, pixels.len(), &mut out)?;
    Ok(out)
}
