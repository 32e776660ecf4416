//! What the tests of `farm_tests` try of single crates by their public calls. They are a library, for whose proof only the
//! interfaces of what it calls are read, and a test is a line that calls one of these: stores by their trait and over real
//! files, and the real files and streams by theirs; drawings that no command reaches (a metatile's tiles in their places,
//! one of very many points, a map whose grids are not bound), the bits of a mask, updates of very many ids, the marks that
//! a rectangle makes dirty, and values that were worked out by hand.
//!
//! A trial answers which of its parts came out as they should, or nothing where memory was wanting or something was refused.
//! One of a store is a text whose lines are steps (`steps`), and answers those that do not hold.
#![tactic(auto)]

mod drawings;
mod marks;
mod masks;
mod metatiles;
mod outside;
mod places;
mod rows;
pub mod steps;
mod stores;
mod taking;
mod updates;

pub use marks::a_rectangle_on_one_map_at_one_zoom;
pub use masks::{a_square_with_centres_on_its_edges, an_image_of_four_tiles, the_text_of_an_image};
pub use metatiles::{
    a_container_drawn_twice, a_container_of_large_tiles, a_ring_of_65536_points,
    four_tiles_of_one_window, without_its_grid_a_source_is_data,
};
pub use outside::{a_longer_file_is_refused, a_piece_is_taken_whole_or_not, files_are_read};
pub use places::{
    an_entry_from_the_head, the_ends_of_the_coordinates, the_path_and_the_place_of_a_tile,
};
pub use rows::{
    a_point_that_just_reaches_a_square, a_tile_read_back, places_in_a_changed_layer,
    the_container_of_sixteen_tiles, the_container_of_the_world, too_many_features,
};
pub use stores::{
    each_wrong_step_is_told, the_longest_part, what_fails, what_fails_in_memory, what_fails_of_two,
};
pub use updates::{an_update_far_on, an_update_of_1001_ids};
