//! Masks and images by rows, and images as PPM texts.
//!
//! `read_ppm` answers what `ppm_of` says of a text, and `ppm_of` goes over the bytes one after another. The laws say
//! which texts it reads, and which fault it finds where, in words of whole texts: what a binary PPM text is, as a grammar.
//!
//! What is proved: Masks and images by place; `paint` and `blend`, in whole numbers; `cut`; `into_bytes`; `write_ppm`;
//! `read_ppm` with exact offsets; what `write_ppm` writes is read back as the image. `paint_run` paints a run of pixels
//! over bytes that another keeps, and `ReadyLine` keeps a line of one colour ready, from which opaque runs are copied.
//! `Surface` is the trait of what pixels are covered on, run by run: a mask, or a thing of your own that says what it
//! shows. What `ppm_of`, which `read_ppm` answers, says of a text: an image exactly where the text is a PPM text of it
//! by the grammar (`IsPpm`, `law_ppm_images`); `TooLarge` exactly where the digits of a side pass 4,096; else `Bad` at
//! n exactly where some PPM text begins with the first n bytes, and none with the first n + 1, or the text ends there
//! (`law_ppm_faults`).
#![tactic(auto)]

mod blending;
mod colours;
mod heads;
mod image;
mod laws;
mod mask;
mod parts;
mod pixels;
mod ppm;
mod reading;
mod ready_line;
mod surfaces;

pub use blending::paint_run;
pub use heads::{text_head, text_len};
pub use image::Image;
pub use laws::{law_ppm_faults, law_ppm_images};
pub use mask::Mask;
pub use ppm::read_ppm;
pub use reading::PpmFault;
pub use ready_line::ReadyLine;
pub use surfaces::Surface;
