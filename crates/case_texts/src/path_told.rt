//! What a metatile's path is read as.
use noted_puts::Letters;
use tile_paths::read_path;

/// The name of the map and the metatile of the path, or that it is none.
pub(crate) fn tell_path(told: &mut Letters, text: &str) {
    let Some((name, meta)) = read_path(text) else {
        told.put("no path");
        return;
    };
    told.put("path ");
    told.put(name.as_str());
    told.put_next(meta.z);
    told.put_next(meta.x);
    told.put_next(meta.y);
}
