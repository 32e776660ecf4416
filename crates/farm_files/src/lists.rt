//! Lists of files: each item's are read before the next item's.
ghost use Rattle.std.specs.Prelude.{◌≡◌};
ghost use Rattle.reading.specs.Steps.{seen};
ghost use Rattle.farm_files.specs.Course.{each};
ghost use Rattle.farm_files.specs.inner.Follows.{Follows};

use exit_status::Stop;
use farm_base::Files;
use std::alloc::Global;

/// Reads the files that an item asks for.
pub trait Load {
    ghost use Rattle.farm_files.specs.Course.{Course};

    type Item;

    type Value: Drop;

    /// The course of an item's files.
    ghost course: { Self → Self.Item → Course Self.Value };

    /// Follows the item's course, and answers what it makes.
    fn load<F: Files>(
        &self,
        alloc: Global,
        files: &mut F,
        item: &Self::Item,
    ) -> Result<Self::Value, Stop>
        ensures { Follows (course self.now item.now) (F.state files.old)
            (F.state files.new) result };
}

/// Reads the files of these items, in order, and gives what each has made. It ends at the first file that
/// is refused or cannot be read.
pub fn load_each<L: Load, F: Files>(
    alloc: Global,
    loader: &L,
    files: &mut F,
    items: &[L::Item],
) -> Result<Vec<L::Value>, Stop>
    ensures { Follows (each (L.course loader.now) items.now) (F.state files.old) (F.state files.new)
        (seen (λ v. v.items) result) }
{
    let mut loaded = Vec::new(alloc);
    for item in items {
        match loader.load(alloc, files, item) {
            Ok(value) => match loaded.push(value) {
                Ok(()) => {}
                Err(_) => return Err(Stop::NoMemory),
            },
            Err(stop) => return Err(stop),
        }
    }
    Ok(loaded)
}
