//! What holds of the containers that `encode` writes, as laws of the definitions by which it and the
//! readers are exact.
ghost use Rattle.meta_container.specs.Laws.{TilesComeBack, EntriesComeBack};
ghost use Rattle.meta_container.specs.Drawn.{DrawnAreTiles, DrawnInPlace, DrawnComeBack};

/// From the container of a metatile's tiles `tile_in` gives each of them; and `entry_in` gives of its
/// first 532 bytes the pair by which the tile's bytes, all of them and no more, are found in it.
pub fn law_tiles_come_back()
    ensures tiles { TilesComeBack }
    ensures entries { EntriesComeBack }
{}

/// The drawings of a metatile's tiles, of one size of pixels, are tiles that `encode` takes; the one at
/// the place of a tile is the drawing of that tile; and so it is what `tile_in` gives of their container.
pub fn law_drawn_container()
    ensures tiles { DrawnAreTiles }
    ensures place { DrawnInPlace }
    ensures back { DrawnComeBack }
{}
