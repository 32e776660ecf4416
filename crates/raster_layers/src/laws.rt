//! The law of a grid at a window's own scale.
ghost use Rattle.raster_layers.specs.Scales.{LawSameScale};

/// Where a grid's pixels are as large as a window's, and its edges differ from the window's by whole
/// pixels, each centre of the window that the grid holds has the grid's pixel of the same place: the
/// nearest sampling draws the picture as it is. A law of the definitions; it does nothing when called.
pub fn law_same_scale()
    ensures { LawSameScale }
{}
