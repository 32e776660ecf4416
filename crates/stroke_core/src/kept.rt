//! The points of a line without those that equal the one before.
ghost use Rattle.std.specs.Prelude.{◌≡◌, ◌++◌, ◌∷◌, [], IfOk, OnOk, if◌then◌else◌};
ghost use Rattle.plain_shapes.specs.Strokes.{is_same, line_points, kept_after};

use crate::segments::is_same;
use farm_base::NoMemory;
use plain_world::Point;
use std::alloc::Global;

fn keep_one(out: &mut Vec<Point>, before: Point, p: Point) -> Result<(), NoMemory>
    ensures { OnOk result (out.new.items ≡ out.old.items ++ (if is_same before p then [] else p ∷ [])) }
{
    if !is_same(before, p) {
        out.push(p)?;
    }
    Ok(())
}

fn keep(out: &mut Vec<Point>, first: Point, rest: &[Point]) -> Result<(), NoMemory>
    ensures { OnOk result (out.new.items ≡ out.old.items ++ kept_after first rest.now) }
{
    let mut before = first;
    for p in rest {
        keep_one(out, before, *p)?;
        before = *p;
    }
    Ok(())
}

/// The points of a line, each that equals the one before it left out.
pub fn kept(alloc: Global, points: &[Point]) -> Result<Vec<Point>, NoMemory>
    ensures { IfOk result (λ v. v.items ≡ line_points points.now) }
{
    let mut out = Vec::new(alloc);
    if points.is_empty() {
        return Ok(out);
    }
    out.push(points[0])?;
    keep(&mut out, points[0], &points[1..])?;
    Ok(out)
}
