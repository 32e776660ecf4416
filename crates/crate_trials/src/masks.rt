//! Which pixels a mask covers, an image under it, and one that is kept as the texts of its tiles.
ghost use Rattle.std.specs.Prelude.{◌≡◌, IfOk, IfSome, All};
ghost use Rattle.plain_world.specs.World.{InWorld};

use crate::drawings::is_boxed;
use farm_base::NoMemory;
use plain_image::{Image, Mask};
use plain_shapes::{Colour, Path};
use plain_world::{Point, Window};
use raster_core::fill_mask;
use std::alloc::Global;
use tiled_image::TiledImage;

const WHITE: Colour = Colour {
    r: 255,
    g: 255,
    b: 255,
};

const RED: Colour = Colour { r: 255, g: 0, b: 0 };

fn square(alloc: Global) -> Result<Vec<Path>, NoMemory>
    ensures { IfOk result (λ v. All (All InWorld) v.items) }
{
    let points = vec![in alloc;
        Point { x: 2, y: 2 },
        Point { x: 10, y: 2 },
        Point { x: 10, y: 10 },
        Point { x: 2, y: 10 },
    ]?;
    Ok(vec![in alloc; Path { points }]?)
}

// Sets the bits of the square's pixels.
fn fill_square(alloc: Global, mask: &mut Mask) -> Result<(), NoMemory>
    requires cols { mask.old.cols ≡ 4 }
    requires rows { mask.old.rows ≡ 3 }
    ensures cols { mask.new.cols ≡ 4 }
    ensures rows { mask.new.rows ≡ 3 }
{
    let window = Window {
        west: 0,
        north: 0,
        pixel: 4,
        cols: 4,
        rows: 3,
    };
    let square = square(alloc)?;
    let filled = fill_mask(alloc, square.as_slice(), window, mask);
    drop(square);
    filled
}

fn are_set(mask: &Mask) -> bool {
    let wanted = [
        true, true, false, false, true, true, false, false, false, false, false, false,
    ];
    mask.bits() == wanted.as_slice()
}

// Whether a white image is red under the mask.
fn is_painted(alloc: Global, mask: &Mask) -> Option<bool>
    requires cols { mask.now.cols ≡ 4 }
    requires rows { mask.now.rows ≡ 3 }
{
    let mut image = Image::new(alloc, 4, 3, WHITE).ok()?;
    image.paint(mask, RED, 1000);
    Some(image.pixel(1, 1) == RED && image.pixel(2, 1) == WHITE)
}

/// The pixels are 4 units wide and high, so their centres lie at 2, 6, 10 and 14: the square's west and north edges pass
/// through the first ones, which it has, and its east and south edges through the third ones, which it has not.
pub fn a_square_with_centres_on_its_edges(alloc: Global) -> Option<[bool; 2]> {
    let mut mask = Mask::new(alloc, 4, 3).ok()?;
    let filled = fill_square(alloc, &mut mask);
    let is_painted = is_painted(alloc, &mask);
    let are_set = are_set(&mask);
    drop(mask);
    filled.ok()?;
    Some([is_painted?, are_set])
}

fn is_text(alloc: Global, image: &Image, wanted: &[u8]) -> bool {
    match image.write_ppm(alloc) {
        Ok(text) => text.as_slice() == wanted,
        Err(_) => false,
    }
}

/// The text of an image.
pub fn the_text_of_an_image(alloc: Global) -> Option<[bool; 1]> {
    let Ok(mut image) = Image::new(alloc, 2, 1, WHITE) else {
        return None;
    };
    image.blend(1, 0, RED, 1000);
    let is_text = is_text(alloc, &image, b"P6\n2 1\n255\n\xff\xff\xff\xff\x00\x00");
    drop(image);
    Some([is_text])
}

fn put_parts(image: &TiledImage, out: &mut Vec<u8>) -> Result<(), NoMemory>
    requires cols { image.now.cols ≡ 32 }
    requires rows { image.now.rows ≡ 32 }
{
    image.put_part(0, 0, 16, 16, out)?;
    image.put_part(0, 16, 16, 16, out)?;
    image.put_part(16, 0, 16, 16, out)?;
    image.put_part(16, 16, 16, 16, out)
}

// The run lies in two tiles: the columns 14 and 15 of the western one, and 0 to 3 of the eastern one.
fn image_of_four_tiles(alloc: Global) -> Option<TiledImage>
    ensures cols { IfSome result (λ image. image.cols ≡ 32) }
    ensures rows { IfSome result (λ image. image.rows ≡ 32) }
{
    let Ok(mut image) = TiledImage::over(alloc, 4, 16, 2, WHITE) else {
        return None;
    };
    image.blend_run(3, 14, 20, RED, 1000);
    Some(image)
}

fn has_eastern_part(alloc: Global, image: &TiledImage) -> bool
    requires cols { image.now.cols ≡ 32 }
    requires rows { image.now.rows ≡ 32 }
{
    let mut part = Vec::new(alloc);
    image.put_part(16, 0, 16, 16, &mut part).is_ok()
        && is_boxed(part.as_slice(), b"P6\n16 16\n255\n", 16, [0, 3, 4, 4])
}

// The texts of its tiles behind a head, where they are the same, and are handed out only as what they are.
fn has_texts(image: TiledImage, wanted: &[u8]) -> bool {
    // No bytes stood before the texts.
    let Err(image) = image.into_texts(b"", 16, 2) else {
        return false;
    };
    // It is not one tile.
    let Err(image) = image.into_texts(b"head", 32, 1) else {
        return false;
    };
    match image.into_texts(b"head", 16, 2) {
        Ok(texts) => texts.as_slice() == wanted,
        Err(_) => false,
    }
}

/// An image that is kept as the texts of its four tiles.
pub fn an_image_of_four_tiles(alloc: Global) -> Option<[bool; 3]> {
    let image = image_of_four_tiles(alloc)?;
    let mut wanted = Vec::new(alloc);
    let is_put = wanted.extend_from_slice(b"head").is_ok()
        && put_parts(&image, &mut wanted).is_ok();
    let has_part = has_eastern_part(alloc, &image);
    Some([is_put, has_part, has_texts(image, wanted.as_slice())])
}
