//! Updates of very many ids, and of a layer of very many features.
use crate::drawings::data;
use data_versions::{LayerView, SharedFeature, Snapshot, apply};
use geo_json::read_update;
use geo_model::Bounds;
use noted_puts::Letters;
use std::alloc::Global;

// What the features of a layer stand between.
const DATA: [&str; 2] = [
    r#"{"units":"world","layers":[{"name":"land","features":["#,
    "]}]}",
];

// A feature, but for its id.
const FEATURE: [&str; 2] = [r#"{"id":"#, r#","geometry":{"points":[[3,4]]}}"#];

// What the ids stand between that are removed.
const REMOVE: [&str; 2] = [
    r#"{"units":"world","changes":[{"layer":"land","remove":["#,
    r#"],"put":[{"id":7,"geometry":{"points":[[5,6]]}}]}]}"#,
];

const FAR_ON: &str =
    r#"{"units":"world","changes":[{"layer":"land","remove":[2060],"put":[{"id":2070,"geometry":{"points":[[50,6]]}},{"id":9000,"geometry":{"points":[[60,7]]}}]}]}"#;

/// A text of so many pieces, each with its number, with commas between them.
pub(crate) fn numbered(
    alloc: Global,
    around: [&str; 2],
    piece: [&str; 2],
    count: u32,
) -> Option<String> {
    let [before, after] = around;
    let [front, back] = piece;
    let mut text = Letters::new(alloc);
    text.put(before);
    for number in 0..count {
        text.put(if number > 0 { "," } else { "" });
        text.put(front);
        text.put_number(number);
        text.put(back);
    }
    text.put(after);
    text.into_text()
}

fn many(alloc: Global, count: u32) -> Option<Snapshot> {
    let text = numbered(alloc, DATA, FEATURE, count)?;
    data(alloc, text.as_str())
}

/// The next version of the data, by the text of an update; none where it is refused.
pub(crate) fn updated(alloc: Global, old: &Snapshot, text: &str) -> Option<Snapshot> {
    let update = read_update(alloc, text.as_bytes()).ok()?;
    let new = apply(alloc, old, &update);
    drop(update);
    new.ok()
}

fn removed(alloc: Global, old: &Snapshot) -> Option<Snapshot> {
    let text = numbered(alloc, REMOVE, ["", ""], 1001)?;
    updated(alloc, old, text.as_str())
}

fn has_one(snapshot: &Snapshot, id: u64) -> bool {
    let Some(layer) = snapshot.layer("land") else {
        return false;
    };
    layer.len() == 1 && layer.place_of(id) == Some(0)
}

/// All 1,001 features go, and one comes back.
pub fn an_update_of_1001_ids(alloc: Global) -> Option<[bool; 1]> {
    let old = many(alloc, 1001)?;
    let new = removed(alloc, &old);
    drop(old);
    let new = new?;
    let is_so = has_one(&new, 7);
    drop(new);
    Some([is_so])
}

fn stands_at(layer: &LayerView<'_>, place: u32, id: u64) -> bool {
    match layer.get(place) {
        Some(feature) => feature.id() == id && layer.place_of(id) == Some(place),
        None => false,
    }
}

// Whether the ids from 0 on stand in the first places, so many of them, all but one.
fn stand_in_order(layer: &LayerView<'_>, count: u32, gone: u32) -> bool {
    for place in 0..count {
        let id = if place < gone {
            place
        } else {
            place.saturating_add(1)
        };
        if !stands_at(layer, place, u64::from(id)) {
            return false;
        }
    }
    true
}

// The id of the one feature that is near, in the column x.
fn only_id(layer: &LayerView<'_>, x: u32) -> Option<u64> {
    let column = Bounds {
        west: x,
        north: 0,
        east: x,
        south: 9,
    };
    let mut walk = layer.near(column, None);
    let first = id_of(walk.next());
    let second = id_of(walk.next());
    if second.is_some() { None } else { first }
}

fn id_of(shared: Option<&SharedFeature>) -> Option<u64> {
    match shared {
        Some(shared) => Some(shared.feature().id()),
        None => None,
    }
}

// The place of that one, by both calls.
fn only_place(layer: &LayerView<'_>, x: u32) -> Option<u32> {
    let id = only_id(layer, x)?;
    let place = layer.next_near(0, x, 0, x, 9)?;
    if stands_at(layer, place, id) {
        Some(place)
    } else {
        None
    }
}

// All below 2,100 but 2,060, and then 9,000.
fn is_changed(layer: &LayerView<'_>) -> bool {
    layer.len() == 2100
        && stand_in_order(layer, 2099, 2060)
        && stands_at(layer, 2099, 9000)
        && matches!(only_place(layer, 50), Some(2069))
        && matches!(only_place(layer, 60), Some(2099))
}

fn is_unchanged(layer: &LayerView<'_>) -> bool {
    layer.len() == 2100
        && stand_in_order(layer, 2100, 2100)
        && only_place(layer, 50).is_none()
        && only_place(layer, 60).is_none()
}

fn are_told_apart(new: &Snapshot, old: &Snapshot) -> Option<[bool; 2]> {
    let new = new.layer("land")?;
    let old = old.layer("land")?;
    Some([is_changed(&new), is_unchanged(&old)])
}

/// Of 2,100 features one that stands past 2,048 others goes, one is changed, and one is added. The data before are as they
/// were.
pub fn an_update_far_on(alloc: Global) -> Option<[bool; 2]> {
    let old = many(alloc, 2100)?;
    let Some(new) = updated(alloc, &old, FAR_ON) else {
        drop(old);
        return None;
    };
    let are_so = are_told_apart(&new, &old);
    drop(new);
    drop(old);
    are_so
}
