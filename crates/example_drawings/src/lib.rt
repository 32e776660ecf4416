//! Drawings that were worked out by hand, computed from the definitions alone.
//!
//! Each function here has an empty body. Its contract holds examples over the definitions of what is
//! drawn, and the check computes them: so the definitions say what these examples say. `specs/Examples.antt` has
//! the maps and shapes.
//!
//! What is proved: Drawings worked out by hand, computed from the definitions: whole tiles of polygons and grids, how
//! many pixels strokes, caps, outlines and marks cover, scales, filter modes.
#![tactic(auto)]

ghost use Rattle.std.specs.Prelude.{◌≡◌, ◌^◌, ◌*◌, ◌∷◌, ◌++◌, [], true, false, None, Some, replicate, codes};
ghost use Rattle.plain_world.specs.World.{centre};
ghost use Rattle.plain_shapes.specs.declared.shapes.LineCap.TheVariants.{Butt, Round, Square};
ghost use Rattle.plain_drawing.specs.declared.style.FilterMode.TheVariants.{All, First};
ghost use Rattle.plain_shapes.specs.declared.shapes.Geometry.TheVariants as shape;
ghost use Rattle.plain_drawing.specs.declared.style.Symbolizer.TheVariants as paint;
ghost use Rattle.plain_shapes.specs.Strokes.{half_of};
ghost use Rattle.plain_drawing.specs.Rules.{denominator_of, is_active};
ghost use Rattle.plain_drawing.specs.Drawing.{covers};
ghost use Rattle.example_drawings.specs.Examples.{red, blue, lime, white, pale_red, pale_blue, rows, picture, at, box, square, fill_count, stroke_count, outline_count, mark_count, level, level_doubled, level_back, dot, map_of, land, fill, symbolizers_met, sky, over_white, drawn_world};

/// Scale denominators, rounded down, and the bounds that are active at one of them: the least bound belongs to
/// a scale, the greatest one does not. Bounds are in hundredths.
pub fn example_scales()
    ensures whole_world { denominator_of 0 16 ≡ 8945316224 }
    ensures town { denominator_of 10 256 ≡ 545978 }
    ensures least { is_active 54597800 None (denominator_of 10 256) ≡ true }
    ensures above_least { is_active 54597801 None (denominator_of 10 256) ≡ false }
    ensures greatest { is_active 0 (Some 54597800) (denominator_of 10 256) ≡ false }
    ensures below_greatest { is_active 0 (Some 54597801) (denominator_of 10 256) ≡ true }
{}

/// How the rules of a style are taken. The rules paint red where `k` is 1, blue where it is at least 1, and
/// lime where no other rule holds: with the mode First a feature meets one of them, with the mode All a feature
/// of `k` 1 meets red and then blue.
pub fn example_filter_modes()
    ensures first_one { symbolizers_met First 1 ≡ fill red ∷ [] }
    ensures first_two { symbolizers_met First 2 ≡ fill blue ∷ [] }
    ensures first_none { symbolizers_met First 0 ≡ fill lime ∷ [] }
    ensures all_one { symbolizers_met All 1 ≡ fill red ∷ fill blue ∷ [] }
    ensures all_two { symbolizers_met All 2 ≡ fill blue ∷ [] }
    ensures all_none { symbolizers_met All 0 ≡ fill lime ∷ [] }
{}

/// The whole tile of a grid of 2 by 1 pixels over the north half of the world, opaque and half opaque.
pub fn example_grid()
    ensures opaque { drawn_world (sky 1000) [] ≡ picture (over_white red blue) }
    ensures half { drawn_world (sky 500) [] ≡ picture (over_white pale_red pale_blue) }
{}

/// The whole tile of one red square, of a map whose source is absent, and of two polygons, half opaque, that
/// share an edge through the centres of column 8: each pixel is painted once.
pub fn example_polygons()
    ensures square { drawn_world (map_of (codes "land") (fill red) [] []) (land (square 4 12 ∷ []))
        ≡ picture (rows 4 (replicate 16 white) ++ rows 8 (replicate 4 white ++ replicate 8 red
        ++ replicate 4 white) ++ rows 4 (replicate 16 white)) }
    ensures absent { drawn_world (map_of (codes "sea") (fill red) [] []) (land (square 4 12 ∷ []))
        ≡ picture (rows 16 (replicate 16 white)) }
    ensures shared_edge { drawn_world (map_of (codes "land") (paint.Polygon red 500) [] [])
        (land (box 0 0 17 32 ∷ box 17 0 32 32 ∷ [])) ≡ picture (rows 16 (replicate 16 pale_red)) }
{}

/// Half of each width that is used here, in world units, and how many pixels are covered by fills, strokes with
/// each cap, outlines and marks. Of a square whose corners are centres the north and west edges belong to it, and
/// the south and east ones do not.
#[tactic(auto, unfolding(plain_shapes::specs::Strokes::long, plain_shapes::specs::Strokes::along, plain_shapes::specs::Strokes::beside, plain_shapes::specs::Strokes::reach, plain_shapes::specs::Strokes::is_near, plain_shapes::specs::Strokes::in_body, plain_shapes::specs::Strokes::in_disk, plain_shapes::specs::Strokes::before_start, plain_shapes::specs::Strokes::past_end, plain_shapes::specs::Strokes::in_block, plain_shapes::specs::Strokes::in_mark))]
pub fn example_covers()
    ensures half_of_300 { half_of 300 (2 ^ 26) ≡ 100663296 }
    ensures half_of_150 { half_of 150 (2 ^ 26) ≡ 50331648 }
    ensures half_of_250 { half_of 250 (2 ^ 26) ≡ 83886080 }
    ensures half_of_100 { half_of 100 (2 ^ 26) ≡ 33554432 }
    ensures half_of_400 { half_of 400 (2 ^ 26) ≡ 134217728 }
    ensures half_of_200 { half_of 200 (2 ^ 26) ≡ 67108864 }
    ensures half_of_24 { half_of 24 8 ≡ 0 }
    ensures ring_in_ring { fill_count (square 2 14 ∷ square 6 10 ∷ []) ≡ 128 }
    ensures ring_twice { fill_count (square 2 14 ∷ square 2 14 ∷ []) ≡ 0 }
    ensures corners_at_centres { fill_count (box 9 9 25 25 ∷ []) ≡ 64 }
    ensures first_corner { covers (2 ^ 26) (shape.Polygon (box 9 9 25 25 ∷ [])) (at 9 9)
        (fill red) ≡ true }
    ensures last_corner { covers (2 ^ 26) (shape.Polygon (box 9 9 25 25 ∷ [])) (at 25 25)
        (fill red) ≡ false }
    ensures butt { stroke_count level 300 Butt ≡ 12 }
    ensures square { stroke_count level 300 Square ≡ 24 }
    ensures round { stroke_count level 300 Round ≡ 20 }
    ensures thin { stroke_count level 150 Butt ≡ 4 }
    ensures doubled { stroke_count level_doubled 300 Square ≡ 24 }
    ensures back_butt { stroke_count level_back 300 Butt ≡ 16 }
    ensures back_round { stroke_count level_back 300 Round ≡ 20 }
    ensures dot_butt { stroke_count dot 250 Butt ≡ 0 }
    ensures dot_round { stroke_count dot 250 Round ≡ 5 }
    ensures dot_square { stroke_count dot 250 Square ≡ 9 }
    ensures outline { outline_count (square 4 12 ∷ []) 100 Butt ≡ 60 }
    ensures mark { mark_count (at 17 17 ∷ []) 400 200 ≡ 7 }
    ensures flat_mark { covers 8 (shape.Points (at 17 17 ∷ [])) (at 17 17)
        (paint.Markers red 24 400 1000) ≡ false }
{}
