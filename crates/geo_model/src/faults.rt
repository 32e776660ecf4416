//! Why parts do not make a feature.

/// The first fault of a feature's parts, in the order in which they are looked for. The numbers are those
/// of printed texts.
#[derive(Clone, Copy)]
pub enum GeoFault {
    /// No part, no point, a line of fewer than 2 or a ring of fewer than 3 points.
    TooFewPoints = 1,
    /// A coordinate is over `2^30`.
    OutOfWorld = 2,
    /// More than 65,536 points in all.
    TooManyPoints = 3,
    /// More than 64 attributes.
    TooManyAttrs = 4,
    /// Two attributes have one name.
    DoubleName = 5,
    /// Want of memory.
    NoMemory = 6,
}
