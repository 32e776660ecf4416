//! The laws of PPM texts. Each function has an empty body; its contract is a law of the definitions.
ghost use Rattle.plain_image.specs.Laws.{SaysImages, SaysBad, SaysTooLarge, SaysNothingElse};

/// A text says an image exactly where it is a PPM text of that image: `P6`, a gap, the columns, a gap, the
/// rows, a gap, `255`, one blank, and three bytes for each pixel. A gap is one blank or comment or more.
pub fn law_ppm_images()
    ensures { SaysImages }
{}

/// A text that says no image has one of two faults. It is too large exactly where it begins as a PPM text
/// up to a side, and the digits there pass 4,096. Else it is bad at an offset n: some PPM text begins with
/// its first n bytes, and none begins with its first n + 1, or it ends there.
pub fn law_ppm_faults()
    ensures bad { SaysBad }
    ensures too_large { SaysTooLarge }
    ensures nothing_else { SaysNothingElse }
{}
