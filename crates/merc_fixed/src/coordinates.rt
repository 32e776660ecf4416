//! World units from Mercator coordinates in centimetres.
ghost use Rattle.std.specs.Prelude.{◌≡◌, ◌≤◌};
ghost use Rattle.plain_world.specs.World.{x_from_cm, y_from_cm, units_from_edge};

/// The width of the web Mercator world in centimetres.
const WORLD_CM: u128 = 4007501668;

/// Centimetres from the middle of that world to its edges.
const HALF_CM: i64 = 2003750834;

/// The x of a Mercator coordinate in centimetres, to the east: `floor((c + 2003750834) * 2^30 / 4007501668)`,
/// and `None` exactly where that is outside 0 to `2^30`, both included.
pub fn x_from_cm(c: i64) -> Option<u32>
    ensures { result ≡ x_from_cm c }
{
    units_from_edge(i128::from(c) + i128::from(HALF_CM))
}

/// The y of a Mercator coordinate in centimetres, which grows to the north: that of x for `-c`.
pub fn y_from_cm(c: i64) -> Option<u32>
    ensures { result ≡ y_from_cm c }
{
    units_from_edge(i128::from(HALF_CM) - i128::from(c))
}

fn units_from_edge(cm: i128) -> Option<u32>
    ensures { result ≡ units_from_edge cm }
{
    let cm = u64::try_from(cm).ok()?;
    let units = u128::from(cm) * (1 << 30) / WORLD_CM;
    if units <= 1 << 30 {
        Some(units as u32)
    } else {
        None
    }
}
