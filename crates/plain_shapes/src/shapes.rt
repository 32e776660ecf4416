//! The shapes of features.
use farm_base::Listed;
use plain_world::Point;
use std::marker::Model;

/// A list of points in order: the points of a line, of a ring, or single ones.
#[derive(Drop)]
pub struct Path {
    pub points: Vec<Point>,
}

impl Model for Path {
    ghost use Rattle.std.specs.Prelude.{List};
    ghost use Rattle.plain_world.specs.declared.world.Point.{Point};

    ghost Value = { List Point };

    ghost view = { λ p. p.points.items };
}

/// The shape of a feature: points, lines, or a polygon by its rings.
#[derive(Drop)]
pub enum Geometry {
    Points(Path),
    Lines(Listed<Path>),
    Polygon(Listed<Path>),
}

/// How a line ends: at its last point, in a half disk, or in half a square.
#[derive(Clone, Copy)]
pub enum LineCap {
    Butt,
    Round,
    Square,
}
