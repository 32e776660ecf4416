//! Trials of stores, in memory and over files: which of their steps do not hold.
use crate::steps;
use crate::taking::{
    clean, is_got, read_step, take_in_files, take_in_store, take_put, take_staged,
};
use noted_puts::{Letters, Wrongs};
use std::alloc::Global;
use std::fs::File;
use std::rt::Files;
use tile_store::{FileStaging, FileStore, Folder, MemStore, Staged, StoreFault, TileStore};

/// A store of files, what stages for it, and what is staged and was not put yet.
#[derive(Drop)]
struct Stand<'a, R> {
    rt: R,
    alloc: Global,
    staging: FileStaging<'a, R>,
    files: FileStore<'a, R>,
    staged: Vec<Staged>,
}

impl<'a, R: Files<File = File> + Alloc + Copy> Stand<'a, R> {
    fn over(rt: R, alloc: Global, folder: &'a Folder) -> Stand<'a, R> {
        Stand {
            rt,
            alloc,
            staging: FileStaging::new(rt, folder),
            files: FileStore::new(rt, folder),
            staged: Vec::new(alloc),
        }
    }

    fn take_one(&mut self, line: &str) -> bool {
        let step = read_step(line);
        if let Some(holds) = take_in_store(self.alloc, &mut self.files, step) {
            return holds;
        }
        if let Some(holds) = take_in_files(&self.rt, step) {
            return holds;
        }
        if let Some(holds) = take_staged(self.alloc, &self.staging, &mut self.staged, step) {
            return holds;
        }
        take_put(self.alloc, &mut self.files, &mut self.staged, step)
    }

    // Takes each step, and notes those that do not hold.
    fn take(&mut self, steps: &str, wrongs: &mut Wrongs) {
        for line in steps.lines() {
            let holds = self.take_one(line);
            wrongs.see(holds, line, "");
        }
    }
}

/// Takes the steps over a folder that is not there yet, and removes the folder: those that did not hold; none where memory was
/// wanting for them.
pub fn what_fails<R: Files<File = File> + Alloc + Copy>(
    rt: R,
    alloc: Global,
    steps: &str,
) -> Option<String> {
    let mut wrongs = Wrongs::new(alloc);
    let folder = Folder::new();
    let _is_clean = clean(&rt);
    let mut stand = Stand::over(rt, alloc, &folder);
    stand.take(steps, &mut wrongs);
    drop(stand);
    let _is_clean = clean(&rt);
    wrongs.into_text()
}

/// Tries whether a store in memory holds what is put: the steps that did not hold; none where memory was wanting.
pub fn what_fails_in_memory(alloc: Global) -> Option<String> {
    let Ok(mut memory) = MemStore::new(alloc, Vec::new(alloc), Vec::new(alloc), Vec::new(alloc))
    else {
        return None;
    };
    let mut wrongs = Wrongs::new(alloc);
    for line in steps::HOLDS.lines() {
        let holds = take_in_store(alloc, &mut memory, read_step(line));
        wrongs.see(matches!(holds, Some(true)), line, "");
    }
    drop(memory);
    wrongs.into_text()
}

fn take_in_turn<R: Files<File = File> + Alloc + Copy>(
    mut ours: Stand<'_, R>,
    theirs: &mut Stand<'_, R>,
    wrongs: &mut Wrongs,
) {
    ours.take(steps::OURS_BEGINS, wrongs);
    theirs.take(steps::THEIRS_FAILS, wrongs);
    ours.take(steps::OURS_GOES_ON, wrongs);
    drop(ours);
    theirs.take(steps::THEIRS_GOES_ON, wrongs);
}

/// Tries two stores over one folder: the steps that did not hold; none where memory was wanting for them.
pub fn what_fails_of_two<R: Files<File = File> + Alloc + Copy>(
    rt: R,
    alloc: Global,
) -> Option<String> {
    let mut wrongs = Wrongs::new(alloc);
    let (first, second) = (Folder::new(), Folder::new());
    let _is_clean = clean(&rt);
    let mut theirs = Stand::over(rt, alloc, &second);
    take_in_turn(Stand::over(rt, alloc, &first), &mut theirs, &mut wrongs);
    drop(theirs);
    let _is_clean = clean(&rt);
    wrongs.into_text()
}

/// Whether each step that does not hold is told, and none that holds: a trial sees what is wrong.
pub fn each_wrong_step_is_told<R: Files<File = File> + Alloc + Copy>(rt: R, alloc: Global) -> bool {
    let mut text = Letters::new(alloc);
    text.put(steps::BEFORE_WRONG);
    text.put(steps::WRONG);
    match text.into_text() {
        Some(text) => tells(rt, alloc, text.as_str(), steps::WRONG),
        None => false,
    }
}

fn tells<R: Files<File = File> + Alloc + Copy>(
    rt: R,
    alloc: Global,
    steps: &str,
    wanted: &str,
) -> bool {
    match what_fails(rt, alloc, steps) {
        Some(told) => told.as_str() == wanted,
        None => false,
    }
}

/// A part is no longer than a tile's text can be, whatever length a container tells: whether the bytes are put, the part that
/// is longer is refused, and the longest is read.
pub fn the_longest_part<R: Files<File = File> + Alloc + Copy>(
    rt: R,
    alloc: Global,
) -> Option<[bool; 3]> {
    let long = vec![in alloc; 7; 786_704].ok()?;
    let folder = Folder::new();
    let _is_clean = clean(&rt);
    let mut files = FileStore::new(rt, &folder);
    let are_so = holds_long(alloc, &mut files, long.as_slice());
    drop(files);
    let _is_clean = clean(&rt);
    Some(are_so)
}

fn holds_long<S: TileStore>(alloc: Global, store: &mut S, long: &[u8]) -> [bool; 3] {
    let is_put = store.put(alloc, "long", long).is_ok();
    let all = store.get_part(alloc, "long", 0, 4_294_967_295);
    let most = store.get_part(alloc, "long", 1, 4_294_967_295);
    let is_read = match long.get(1..) {
        Some(rest) => is_got(&most, rest),
        None => false,
    };
    [is_put, matches!(all, Err(StoreFault::Failed)), is_read]
}
