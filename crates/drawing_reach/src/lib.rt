//! What a feature reaches: laws over the definitions of the drawing alone, for all features.
//!
//! Each function here has an empty body. Its contract is the law, and the check proves it.
//!
//! What is proved: What a symbolizer within its ranges covers lies within 64 pixels of the box of its points
//! (`law_covers_within_reach`); the test on a square's edges says whether a feature reaches it (`law_reach_by_edges`);
//! a feature that does not reach a tile changes no pixel of it, in a style whose symbolizers keep their ranges
//! (`law_unreached_unchanged`).
#![tactic(auto)]

ghost use Rattle.drawing_reach.specs.Laws.{LawByEdges, LawWithin, LawUnreached};

/// What a symbolizer within its ranges covers of a shape lies in the shape's reach: the bounding box of its
/// points, widened by 64 pixels on each side.
pub fn law_covers_within_reach()
    ensures { LawWithin }
{}

/// A feature reaches a square, that is some point of the square lies in its reach, exactly where the test on
/// the square's edges says so.
pub fn law_reach_by_edges()
    ensures { LawByEdges }
{}

/// A feature that does not reach a tile's square leaves every pixel of the tile's picture as it is, in every
/// style whose symbolizers keep their ranges.
pub fn law_unreached_unchanged()
    ensures { LawUnreached }
{}
