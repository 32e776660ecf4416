//! Drawings, pictures, data and marks by the calls of single crates.
use std::process::Abort;

// Each part came out as it should.
pub(crate) fn hold<const N: usize>(rt: &impl Abort, tried: Option<[bool; N]>) {
    let Some(parts) = tried else {
        panic!(rt; "no memory, or something was refused")
    };
    for (number, is_so) in parts.iter().enumerate() {
        assert!(rt; *is_so, "part {number}");
    }
}

#[test]
fn a_square_with_centres_on_its_edges(rt: HostRuntime) {
    hold(
        &rt,
        crate_trials::a_square_with_centres_on_its_edges(rt.alloc()),
    );
}

#[test]
fn an_image_of_four_tiles(rt: HostRuntime) {
    hold(&rt, crate_trials::an_image_of_four_tiles(rt.alloc()));
}

#[test]
fn the_text_of_an_image(rt: HostRuntime) {
    hold(&rt, crate_trials::the_text_of_an_image(rt.alloc()));
}

#[test]
fn a_container_drawn_twice(rt: HostRuntime) {
    hold(&rt, crate_trials::a_container_drawn_twice(rt.alloc()));
}

#[test]
fn a_container_of_large_tiles(rt: HostRuntime) {
    hold(&rt, crate_trials::a_container_of_large_tiles(rt.alloc()));
}

#[test]
fn a_ring_of_65536_points(rt: HostRuntime) {
    hold(&rt, crate_trials::a_ring_of_65536_points(rt.alloc()));
}

#[test]
fn four_tiles_of_one_window(rt: HostRuntime) {
    hold(&rt, crate_trials::four_tiles_of_one_window(rt.alloc()));
}

#[test]
fn without_its_grid_a_source_is_data(rt: HostRuntime) {
    hold(
        &rt,
        crate_trials::without_its_grid_a_source_is_data(rt.alloc()),
    );
}

#[test]
fn a_point_that_just_reaches_a_square(rt: HostRuntime) {
    hold(
        &rt,
        crate_trials::a_point_that_just_reaches_a_square(rt.alloc()),
    );
}

#[test]
fn a_tile_read_back(rt: HostRuntime) {
    hold(&rt, crate_trials::a_tile_read_back(rt.alloc()));
}

#[test]
fn places_in_a_changed_layer(rt: HostRuntime) {
    hold(&rt, crate_trials::places_in_a_changed_layer(rt.alloc()));
}

#[test]
fn the_container_of_sixteen_tiles(rt: HostRuntime) {
    hold(
        &rt,
        crate_trials::the_container_of_sixteen_tiles(rt.alloc()),
    );
}

#[test]
fn the_container_of_the_world(rt: HostRuntime) {
    hold(&rt, crate_trials::the_container_of_the_world(rt.alloc()));
}

#[test]
fn an_update_far_on(rt: HostRuntime) {
    hold(&rt, crate_trials::an_update_far_on(rt.alloc()));
}

#[test]
fn an_update_of_1001_ids(rt: HostRuntime) {
    hold(&rt, crate_trials::an_update_of_1001_ids(rt.alloc()));
}

#[test]
fn a_rectangle_on_one_map_at_one_zoom(rt: HostRuntime) {
    hold(
        &rt,
        crate_trials::a_rectangle_on_one_map_at_one_zoom(rt.alloc()),
    );
}

#[test]
fn an_entry_from_the_head(rt: HostRuntime) {
    hold(&rt, crate_trials::an_entry_from_the_head(rt.alloc()));
}

#[test]
fn too_many_features(rt: HostRuntime) {
    hold(&rt, crate_trials::too_many_features(rt.alloc()));
}

#[test]
fn the_path_and_the_place_of_a_tile(rt: HostRuntime) {
    assert!(rt; crate_trials::the_path_and_the_place_of_a_tile());
}

#[test]
fn the_ends_of_the_coordinates(rt: HostRuntime) {
    assert!(rt; crate_trials::the_ends_of_the_coordinates());
}
