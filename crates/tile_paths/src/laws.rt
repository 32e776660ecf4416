//! What holds of the paths that `path` gives, as laws of the definition by which it and `read_path` are
//! exact.
ghost use Rattle.tile_paths.specs.Laws.{OnePath, EndsInMeta, IsNotSaved};

/// Metatiles that have one path are the same metatile of the same map. Every path ends in `.meta`, so
/// none is `farm.saved`.
pub fn law_one_path()
    ensures alike { OnePath }
    ensures ending { EndsInMeta }
    ensures saved { IsNotSaved }
{}
