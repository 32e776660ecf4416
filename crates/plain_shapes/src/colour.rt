//! Colours.

/// A colour by its red, green and blue channels.
#[derive(Clone, Copy, PartialEq, Eq)]
pub struct Colour {
    pub r: u8,
    pub g: u8,
    pub b: u8,
}
