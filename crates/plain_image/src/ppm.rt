//! Images from PPM texts.
ghost use Rattle.plain_image.specs.PpmText.{ppm_of, ReadsPpm};

use crate::Image;
use crate::colours::Colours;
use crate::parts::head;
use crate::reading::PpmFault;
use std::alloc::Global;

/// The image that a binary PPM text says (Netpbm's P6). Between `P6` and the numbers stand runs of
/// blanks (space, tab, carriage return, newline) and comments from `#` to before the line's end, with at
/// least one blank before each number; behind 255 stands one blank, and then three bytes for each pixel.
///
/// `Bad` names the first byte that may not stand where it stands, or the length where bytes are missing:
/// a side of 0, another greatest value than 255 and bytes behind the pixels are bad. `TooLarge` comes as
/// soon as the digits of a side pass 4,096.
#[tactic(auto, unfolding(crate::specs::PpmText::ppm_of))]
pub fn read_ppm(alloc: Global, bytes: &[u8]) -> Result<Image, PpmFault>
    ensures { ReadsPpm (ppm_of bytes.now) result }
{
    let head = head(bytes)?;
    let count = head.rows as usize * head.cols as usize;
    let there = bytes.len() - head.start;
    if there < count * 3 {
        return Err(PpmFault::Bad(bytes.len() as u64));
    }
    if there > count * 3 {
        return Err(PpmFault::Bad((head.start + count * 3) as u64));
    }
    let read = Colours::of_bytes(alloc, &bytes[head.start..], count)?;
    Ok(Image::of_pixels(head.cols, head.rows, read))
}
