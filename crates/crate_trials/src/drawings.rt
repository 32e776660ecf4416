//! What the trials share: maps and data read from texts, and pictures of one red box.
ghost use Rattle.std.specs.Prelude.{◌≡◌, IfSome, Ok};
ghost use Rattle.style_objects.specs.Tables as style;
ghost use Rattle.geo_json.specs.DataTexts as texts;

use data_versions::Snapshot;
use geo_json::read_data;
use plain_drawing::MapStyle;
use std::alloc::Global;
use style_objects::read_style;

/// The map of a style text; none where it is refused.
pub(crate) fn map(alloc: Global, text: &str) -> Option<MapStyle>
    ensures { IfSome result (λ m. style.style_in text.now ≡ Ok m) }
{
    match read_style(alloc, text.as_bytes()) {
        Ok(style) => Some(style),
        Err(_) => None,
    }
}

/// The first version of the data of a text; none where it is refused.
pub(crate) fn data(alloc: Global, text: &str) -> Option<Snapshot>
    ensures { IfSome result (λ d. texts.dataset_in text.now ≡ Ok d) }
{
    let Ok(dataset) = read_data(alloc, text.as_bytes()) else {
        return None;
    };
    match Snapshot::first(alloc, dataset) {
        Ok(snapshot) => Some(snapshot),
        Err(_) => None,
    }
}

/// Whether the pixels behind the head are `size` by `size`, and red from column `west` and row `north` on, before
/// column `east` and row `south`, and white elsewhere.
pub(crate) fn is_boxed(text: &[u8], head: &[u8], size: usize, bounds: [usize; 4]) -> bool {
    let [west, north, east, south] = bounds;
    let Some(pixels) = text.strip_prefix(head) else {
        return false;
    };
    if pixels.len() != size.saturating_mul(size).saturating_mul(3) {
        return false;
    }
    let mut i = 0usize;
    let mut j = 0usize;
    for pixel in pixels.chunks(3) {
        let inside = i >= west && i < east && j >= north && j < south;
        let wanted = if inside { [255, 0, 0] } else { [255, 255, 255] };
        if pixel != wanted.as_slice() {
            return false;
        }
        i = i.saturating_add(1);
        if i == size {
            i = 0;
            j = j.saturating_add(1);
        }
    }
    true
}
