//! How each step is taken: whether it holds, or none where it is a step of another kind.
use std::alloc::Global;
use std::fs::{self, File};
use std::io;
use std::os::unix::fs::symlink;
use std::rt::Files;
use tile_store::{FileStaging, Stage, Staged, StoreFault, TileStore, stage_bytes};

/// A step: its word, what it is of, and what is behind that.
#[derive(Clone, Copy)]
pub(crate) struct Step<'a> {
    word: &'a str,
    of: &'a str,
    rest: &'a str,
}

// What stands before the first blank, and what behind it.
fn halves(text: &str) -> (&str, &str) {
    match text.split_once(' ') {
        Some(halves) => halves,
        None => (text, ""),
    }
}

/// The step of a line.
pub(crate) fn read_step(line: &str) -> Step<'_> {
    let (word, behind) = halves(line);
    let (of, rest) = halves(behind);
    Step { word, of, rest }
}

/// Whether these bytes were found.
pub(crate) fn is_got(found: &Result<Option<Vec<u8>>, StoreFault>, wanted: &[u8]) -> bool {
    matches!(found, Ok(Some(bytes)) if bytes.as_slice() == wanted)
}

fn is_failed(found: &Result<Option<Vec<u8>>, StoreFault>) -> bool {
    matches!(found, Err(StoreFault::Failed))
}

fn gets<S: TileStore>(alloc: Global, store: &mut S, path: &str, wanted: &str) -> bool {
    let found = store.get(alloc, path);
    is_got(&found, wanted.as_bytes())
}

fn gets_part<S: TileStore>(alloc: Global, store: &mut S, path: &str, part: &str) -> bool {
    let (offset, behind) = halves(part);
    let (length, wanted) = halves(behind);
    let (Ok(offset), Ok(length)) = (offset.parse::<u64>(), length.parse::<u32>()) else {
        return false;
    };
    let found = store.get_part(alloc, path, offset, length);
    is_got(&found, wanted.as_bytes())
}

fn begins<S: TileStore>(alloc: Global, store: &mut S, path: &str) -> bool {
    drop(store.get_part(alloc, path, 0, 1));
    true
}

fn misses<S: TileStore>(alloc: Global, store: &mut S, path: &str) -> bool {
    let found = store.get(alloc, path);
    let part = store.get_part(alloc, path, 0, 9);
    matches!(found, Ok(None)) && matches!(part, Ok(None))
}

fn refuses<S: TileStore>(alloc: Global, store: &mut S, path: &str) -> bool {
    let before = store.faults();
    let put = store.put(alloc, path, b"x");
    let found = store.get(alloc, path);
    let part = store.get_part(alloc, path, 0, 1);
    matches!(put, Err(StoreFault::Failed))
        && is_failed(&found)
        && is_failed(&part)
        && before.checked_add(3) == Some(store.faults())
}

fn has_counted(faults: u64, wanted: &str) -> bool {
    match wanted.parse::<u64>() {
        Ok(wanted) => faults == wanted,
        Err(_) => false,
    }
}

/// A step over a store.
pub(crate) fn take_in_store<S: TileStore>(
    alloc: Global,
    store: &mut S,
    step: Step<'_>,
) -> Option<bool> {
    let holds = match step.word {
        "put" => store.put(alloc, step.of, step.rest.as_bytes()).is_ok(),
        "get" => gets(alloc, store, step.of, step.rest),
        "part" => gets_part(alloc, store, step.of, step.rest),
        "begin" => begins(alloc, store, step.of),
        "none" => misses(alloc, store, step.of),
        "refused" => refuses(alloc, store, step.of),
        "faults" => has_counted(store.faults(), step.of),
        _ => return None,
    };
    Some(holds)
}

/// Removes the folder of the store, where there is one.
pub(crate) fn clean<R: Files<File = File> + Alloc>(rt: &R) -> bool {
    drop(fs::remove_dir_all(rt, "tiles"));
    true
}

fn is_missing<R: Files<File = File>>(rt: &R, name: &str) -> bool {
    match fs::open(rt, name) {
        Ok(_) => false,
        Err(error) => matches!(error.kind(), io::ErrorKind::NotFound),
    }
}

fn is_file<R: Files<File = File> + Alloc>(rt: &R, name: &str, text: &str) -> bool {
    match fs::read(rt, name) {
        Ok(read) => read.as_slice() == text.as_bytes(),
        Err(_) => false,
    }
}

/// A step over files.
pub(crate) fn take_in_files<R: Files<File = File> + Alloc>(rt: &R, step: Step<'_>) -> Option<bool> {
    let holds = match step.word {
        "missing" => is_missing(rt, step.of),
        "file" => is_file(rt, step.of, step.rest),
        "write" => fs::write(rt, step.of, step.rest.as_bytes()).is_ok(),
        "folder" => fs::create_dir_all(rt, step.of).is_ok(),
        "remove" => fs::remove_file(rt, step.of).is_ok(),
        "rename" => fs::rename(rt, step.of, step.rest).is_ok(),
        "link" => symlink(rt, step.of, step.rest).is_ok(),
        "clean" => clean(rt),
        _ => return None,
    };
    Some(holds)
}

// What a staging of the text by the number answers; none where the number is none, or memory was wanting.
fn staged<R: Files>(
    alloc: Global,
    staging: &FileStaging<'_, R>,
    step: Step<'_>,
) -> Option<Result<Staged, Vec<u8>>> {
    let number = step.of.parse::<u64>().ok()?;
    let given = Vec::from_slice(alloc, step.rest.as_bytes()).ok()?;
    Some(stage_bytes(staging, alloc, number, given))
}

fn clears<R: Files>(alloc: Global, staging: &FileStaging<'_, R>, number: &str) -> bool {
    match number.parse::<u64>() {
        Ok(number) => {
            staging.clear(alloc, number);
            true
        }
        Err(_) => false,
    }
}

// Whether something was staged. It is kept for a put.
fn keeps(kept: &mut Vec<Staged>, answer: Option<Result<Staged, Vec<u8>>>) -> bool {
    match answer {
        Some(Ok(made)) => kept.push(made).is_ok(),
        Some(Err(_back)) => false,
        None => false,
    }
}

fn is_back(answer: &Option<Result<Staged, Vec<u8>>>, text: &str) -> bool {
    matches!(answer, Some(Err(back)) if back.as_slice() == text.as_bytes())
}

/// A step over what is staged.
pub(crate) fn take_staged<R: Files>(
    alloc: Global,
    staging: &FileStaging<'_, R>,
    kept: &mut Vec<Staged>,
    step: Step<'_>,
) -> Option<bool> {
    let holds = match step.word {
        "stage" => keeps(kept, staged(alloc, staging, step)),
        "unstaged" => is_back(&staged(alloc, staging, step), step.rest),
        "clear" => clears(alloc, staging, step.of),
        _ => return None,
    };
    Some(holds)
}

// What a put of the first that is staged answers; none where none is.
fn put_first<S: TileStore>(
    alloc: Global,
    files: &mut S,
    staged: &mut Vec<Staged>,
    path: &str,
) -> Option<Result<(), StoreFault>> {
    if staged.is_empty() {
        return None;
    }
    let first = staged.remove(0);
    let put = files.put_staged(alloc, path, &first);
    drop(first);
    Some(put)
}

/// A step that puts what is staged; false where it is none.
pub(crate) fn take_put<S: TileStore>(
    alloc: Global,
    files: &mut S,
    staged: &mut Vec<Staged>,
    step: Step<'_>,
) -> bool {
    match step.word {
        "staged" => matches!(put_first(alloc, files, staged, step.of), Some(Ok(()))),
        "unput" => {
            matches!(
                put_first(alloc, files, staged, step.of),
                Some(Err(StoreFault::Failed))
            )
        }
        _ => false,
    }
}
