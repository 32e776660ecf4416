//! The store in files of the system, under the folder `tiles`. It does not tell what it holds; what is
//! proved of it is that it counts its failures, which paths it refuses, and that a part is read of the path's own file.
ghost use Rattle.std.specs.Prelude.{◌≡◌, ◌≤◌, ℕ, false, length, string_bytes, ⊤, None, Err, IfErr, IfOk, IfSome};
ghost use Rattle.farm_base.specs.Limits.{most_file_bytes};
ghost use Rattle.farm_base.specs.Outside.{untold};
ghost use Rattle.tile_store.specs.declared.stores.StoreFault.TheVariants.{Failed};
ghost use Rattle.tile_store.specs.Stores.{StorePuts, Gets, whole, part};
ghost use Rattle.tile_store.specs.inner.Counts.{Counts};
ghost use Rattle.tile_store.specs.Files as spec;
ghost use Rattle.tile_store.specs.Files.{is_own_path, most_part_bytes};

use crate::folder::{FOLDER, Folder, STAGED};
use crate::staging::{Stage, Staged};
use crate::stores::{StoreFault, TileStore};
use farm_base::{Gate, MOST_FILE_BYTES, read_to_end};
use std::alloc::Global;
use std::fs::{self, File, OpenFile};
use std::io::{self, Write};
use std::os::unix::fs::FileExt;
use std::path::Path;
use std::rt;

/// The most bytes of a file's part: the longest text that a tile can have, of 512 by 512 pixels, and 256 for what is read
/// with it. So a wrong length that a container tells costs no more memory.
pub const MOST_PART_BYTES: u32 = 786_703;

/// Files under the folder `tiles` of the folder that the program runs in. A put writes a file beside
/// the one of its path, which has its name and `.new`, and renames it over that, so that a reader is not meant to
/// see half of a put, nor a path without a file; where the writing or the renaming fails, the file beside is removed. Folders are
/// made as needed. So that no put meets the file of another path, paths with a part between slashes that
/// is empty, `.`, `..` or `.lock` or ends in `.new` are not taken: every call with one is Failed. So is what the
/// system refuses, as a path that is a folder or lies below a file.
///
/// One program has the folder: the first call takes a lock on `tiles/.lock`, which is held as long as the store is. While
/// another has it every call is Failed. Where the system gives no locks, nobody is kept off.
///
/// What is staged under the number N is in `tiles/.new/N`. A put of it links the path's file to `tiles/.new/N.old`,
/// if there is one, and renames the written file over the path. So the path has a file at every moment, and the blocks of the older
/// one are freed by the clear. Where they cannot be renamed, as where
/// the path lies on another disk, the bytes are put as by `put`. A clear removes both.
///
/// The file whose beginning was read last stays open until the next part is read or something is put, so that a further part
/// of it is of the same file, and is read without opening it anew.
#[derive(Drop)]
pub struct FileStore<'a, R> {
    rt: R,
    folder: &'a Folder,
    lock: Option<File>,
    faults: u64,
    begun: Option<Opened>,
}

/// A file that was opened, its name and its length.
#[derive(Drop)]
struct Opened {
    name: String,
    file: File,
    length: u64,
}

impl<'a, R: rt::Files<File = File>> FileStore<'a, R> {
    /// The store in the files that this runtime reaches; takes no memory, and nothing of the system.
    pub fn new(rt: R, folder: &'a Folder) -> FileStore<'a, R>
        ensures { result.faults ≡ 0 }
    {
        FileStore {
            rt,
            folder,
            lock: None,
            faults: 0,
            begun: None,
        }
    }

    fn take_folder(&mut self, alloc: Global) -> Result<(), StoreFault>
        ensures faults { self.new.faults ≡ self.old.faults }
        ensures begun { self.new.begun ≡ self.old.begun }
        ensures failed { IfErr result (λ fault. fault ≡ Failed) }
    {
        if !self.folder.is_ours() {
            self.lock = self.folder.take(alloc, &self.rt)?;
        }
        Ok(())
    }

    // The file of this name: the one whose beginning was read last, where a part behind its first byte is to be read of it.
    fn opened(&mut self, name: String, offset: u64) -> Result<Option<Opened>, StoreFault>
        ensures faults { self.new.faults ≡ self.old.faults }
        ensures own { IfOk result
            (λ found. IfSome found (λ file. string_bytes file.name ≡ string_bytes name)) }
    {
        match self.begun.take() {
            Some(file) if offset > 0 && file.name == name => Ok(Some(file)),
            _ => open(&self.rt, name),
        }
    }

    // The bytes of the path's file from the offset on, at most `len` of them.
    fn read_part(
        &mut self,
        alloc: Global,
        path: &str,
        offset: u64,
        len: u32,
    ) -> Result<Option<Vec<u8>>, StoreFault>
        ensures short { IfOk result (λ found. IfSome found (λ v. length v.items ≤ len)) }
        ensures at_most { IfOk result
            (λ found. IfSome found (λ v. length v.items ≤ most_part_bytes)) }
        ensures taken { is_own_path path.now ≡ false → result ≡ Err Failed }
        ensures faults { self.new.faults ≡ self.old.faults }
    {
        let name = name_of(alloc, path)?;
        self.take_folder(alloc)?;
        let Some(file) = self.opened(name, offset)? else {
            return Ok(None);
        };
        let bytes = part_of(alloc, &file, offset, len)?;
        if offset == 0 {
            self.begun = Some(file);
        }
        Ok(Some(bytes))
    }

    fn read_whole(&mut self, alloc: Global, path: &str) -> Result<Option<Vec<u8>>, StoreFault>
        ensures short { IfOk result
            (λ found. IfSome found (λ v. length v.items ≤ most_file_bytes)) }
        ensures taken { is_own_path path.now ≡ false → result ≡ Err Failed }
        ensures faults { self.new.faults ≡ self.old.faults }
    {
        let name = name_of(alloc, path)?;
        self.take_folder(alloc)?;
        let Some(opened) = open(&self.rt, name)? else {
            return Ok(None);
        };
        Ok(Some(read_to_end(alloc, opened.file, MOST_FILE_BYTES)?))
    }

    fn begin_put(&mut self, alloc: Global) -> Result<(), StoreFault>
        ensures faults { self.new.faults ≡ self.old.faults }
        ensures forgets { self.new.begun ≡ None }
        ensures failed { IfErr result (λ fault. fault ≡ Failed) }
    {
        self.begun = None;
        self.take_folder(alloc)
    }

    fn write(&mut self, alloc: Global, path: &str, bytes: &[u8]) -> Result<(), StoreFault>
        ensures taken { is_own_path path.now ≡ false → result ≡ Err Failed }
        ensures faults { self.new.faults ≡ self.old.faults }
        ensures forgets { self.new.begun ≡ None }
    {
        self.begin_put(alloc)?;
        write_beside(alloc, &self.rt, path, bytes)
    }

    // Makes the staged file the path's, or else its bytes, and forgets the file that was begun.
    fn take_staged(&mut self, alloc: Global, path: &str, staged: &Staged) -> Result<(), StoreFault>
        ensures taken { is_own_path path.now ≡ false → result ≡ Err Failed }
        ensures faults { self.new.faults ≡ self.old.faults }
        ensures forgets { self.new.begun ≡ None }
    {
        self.begin_put(alloc)?;
        put_written(alloc, &self.rt, path, staged)
    }

    fn counted<T: Drop>(&mut self, answer: Result<T, StoreFault>) -> Result<T, StoreFault>
        ensures same { result ≡ answer }
        ensures cause { Counts self.old.faults self.new.faults result }
        ensures begun { self.new.begun ≡ self.old.begun }
    {
        if let Err(StoreFault::Failed) = &answer {
            self.faults = self.faults.saturating_add(1);
        }
        answer
    }
}

/// What stages for a store in files: the runtime that reaches them, and the folder. It holds no drawing. It stages nothing before
/// the store has taken the folder.
#[derive(Clone, Copy, Drop)]
pub struct FileStaging<'a, R> {
    rt: R,
    folder: &'a Folder,
}

impl<'a, R> FileStaging<'a, R> {
    /// What stages for the store in the files that this runtime reaches.
    pub fn new(rt: R, folder: &'a Folder) -> FileStaging<'a, R>
        ensures { result.rt ≡ rt }
    {
        FileStaging { rt, folder }
    }
}

impl<'a, R> Gate for FileStaging<'a, R> {
    fn before_draw(&self, _ticket: u64) {}
}

impl<'a, R: rt::Files> Stage for FileStaging<'a, R> {
    /// Files do not tell what was written.
    ghost wrote = { λ _ _ _. ⊤ };

    fn write(&self, alloc: Global, number: u64, bytes: &[u8]) -> bool {
        self.folder.is_ours() && write_staged(alloc, &self.rt, number, bytes).is_ok()
    }

    fn clear(&self, alloc: Global, number: u64) {
        if self.folder.is_ours() {
            let _nothing_left = clear_staged(alloc, &self.rt, number);
        }
    }
}

impl<'a, R: rt::Files<File = File>> TileStore for FileStore<'a, R> {
    ghost use Rattle.farm_base.specs.Outside.{untold};

    ghost state = { λ s. untold s.faults };

    ghost counted = { λ _. tt };

    /// Makes the path's file have the bytes; Failed also for a path that is not taken.
    fn put(&mut self, alloc: Global, path: &str, bytes: &[u8]) -> Result<(), StoreFault>
        ensures state { StorePuts (untold self.old.faults) (untold self.new.faults)
            path.now bytes.now result }
        ensures taken { is_own_path path.now ≡ false → result ≡ Err Failed }
        ensures forgets { self.new.begun ≡ None }
    {
        let answer = self.write(alloc, path, bytes);
        self.counted(answer)
    }

    /// Makes the staged file the path's; Failed also for a path that is not taken.
    fn put_staged(&mut self, alloc: Global, path: &str, staged: &Staged) -> Result<(), StoreFault>
        ensures state { StorePuts (untold self.old.faults) (untold self.new.faults)
            path.now staged.now.bytes result }
        ensures taken { is_own_path path.now ≡ false → result ≡ Err Failed }
        ensures forgets { self.new.begun ≡ None }
    {
        let answer = self.take_staged(alloc, path, staged);
        self.counted(answer)
    }

    /// The bytes of the path's file; Failed also where it has more than `2^31` bytes, and for a path that
    /// is not taken.
    fn get(&mut self, alloc: Global, path: &str) -> Result<Option<Vec<u8>>, StoreFault>
        ensures state { Gets whole (untold self.old.faults) (untold self.new.faults)
            path.now result }
        ensures taken { is_own_path path.now ≡ false → result ≡ Err Failed }
        ensures at_most { IfOk result
            (λ found. IfSome found (λ v. length v.items ≤ most_file_bytes)) }
    {
        let answer = self.read_whole(alloc, path);
        self.counted(answer)
    }

    /// A part of the path's file, however long the file is; Failed also where the part has more than `MOST_PART_BYTES`, and
    /// for a path that is not taken.
    fn get_part(
        &mut self,
        alloc: Global,
        path: &str,
        offset: u64,
        len: u32,
    ) -> Result<Option<Vec<u8>>, StoreFault>
        ensures state { Gets (part offset len) (untold self.old.faults) (untold self.new.faults)
            path.now result }
        ensures short { IfOk result (λ found. IfSome found (λ v. length v.items ≤ len)) }
        ensures at_most { IfOk result
            (λ found. IfSome found (λ v. length v.items ≤ most_part_bytes)) }
        ensures taken { is_own_path path.now ≡ false → result ≡ Err Failed }
    {
        let answer = self.read_part(alloc, path, offset, len);
        self.counted(answer)
    }

    fn faults(&self) -> u64 {
        self.faults
    }
}

fn is_part(part: &str) -> bool
    ensures { result ≡ spec.is_part part.now }
{
    part != ""
        && part != "."
        && part != ".."
        && part != ".lock"
        && !part.as_bytes().ends_with(b".new")
}

fn name_of(alloc: Global, path: &str) -> Result<String, StoreFault>
    ensures { is_own_path path.now ≡ false → result ≡ Err Failed }
{
    if !path.split('/').all(is_part) {
        return Err(StoreFault::Failed);
    }
    Ok(format!(in alloc; "{FOLDER}/{path}")?)
}

// Writes the bytes beside the path's file, in a folder that is made as needed, and renames that file.
// Where either fails it is removed, since a full disk would stay full of what no path leads to.
fn write_beside<R: rt::Files>(
    alloc: Global,
    files: &R,
    path: &str,
    bytes: &[u8],
) -> Result<(), StoreFault>
    ensures { is_own_path path.now ≡ false → result ≡ Err Failed }
{
    let name = name_of(alloc, path)?;
    let beside = format!(in alloc; "{name}.new")?;
    if let Some(folder) = Path::new(name.as_str()).parent() {
        fs::create_dir_all(files, folder)?;
    }
    let written = replace(files, name.as_str(), beside.as_str(), bytes);
    if written.is_err() {
        let _was_there = fs::remove_file(files, beside.as_str());
    }
    Ok(written?)
}

fn replace<R: rt::Files>(files: &R, name: &str, beside: &str, bytes: &[u8]) -> io::Result<()> {
    fs::write(files, beside, bytes)?;
    fs::rename(files, beside, name)
}

fn staged_name(alloc: Global, number: u64) -> Result<String, StoreFault> {
    Ok(format!(in alloc; "{STAGED}/{number}")?)
}

fn replaced_name(alloc: Global, number: u64) -> Result<String, StoreFault> {
    Ok(format!(in alloc; "{STAGED}/{number}.old")?)
}

// Writes the bytes to a new file of the number, which is removed where that fails. A file that is there stays.
fn write_staged<R: rt::Files>(
    alloc: Global,
    files: &R,
    number: u64,
    bytes: &[u8],
) -> Result<(), StoreFault> {
    let name = staged_name(alloc, number)?;
    fs::create_dir_all(files, STAGED)?;
    let file = File::create_new(files, name.as_str())?;
    let written = fill(file, bytes);
    if written.is_err() {
        let _was_there = fs::remove_file(files, name.as_str());
    }
    Ok(written?)
}

/// From how many bytes on a staged file is written out to the disk: a rename over an older file has some file systems (ext4)
/// begin that in the turn, which is soon done for fewer.
const SYNCED: usize = 1 << 20;

fn fill<F: Write + OpenFile + Drop>(file: F, bytes: &[u8]) -> io::Result<()> {
    let mut file = file;
    file.write_all(bytes)?;
    if bytes.len() >= SYNCED {
        file.sync_data()?;
    }
    Ok(())
}

// Makes the written file that of the name, and answers whether it did; where not, all is as before. What stands there is
// linked aside, where links are to be had, so that the rename has nothing to free.
fn exchange<R: rt::Files>(files: &R, name: &str, written: &str, aside: &str) -> bool {
    if fs::hard_link(files, name, aside).is_err() {
        if let Some(folder) = Path::new(name).parent() {
            let _or_refused = fs::create_dir_all(files, folder);
        }
    }
    fs::rename(files, written, name).is_ok()
}

fn put_written<R: rt::Files>(
    alloc: Global,
    files: &R,
    path: &str,
    staged: &Staged,
) -> Result<(), StoreFault>
    ensures { is_own_path path.now ≡ false → result ≡ Err Failed }
{
    let name = name_of(alloc, path)?;
    let written = staged_name(alloc, staged.number())?;
    let aside = replaced_name(alloc, staged.number())?;
    if exchange(files, name.as_str(), written.as_str(), aside.as_str()) {
        return Ok(());
    }
    write_beside(alloc, files, path, staged.bytes())
}

fn clear_staged<R: rt::Files>(alloc: Global, files: &R, number: u64) -> Result<(), StoreFault> {
    let staged = staged_name(alloc, number)?;
    let replaced = replaced_name(alloc, number)?;
    let _was_there = fs::remove_file(files, staged.as_str());
    let _was_there = fs::remove_file(files, replaced.as_str());
    Ok(())
}

// The file of the name; `None` where there is nothing, and Failed where there is a folder.
fn open<R: rt::Files<File = File>>(files: &R, name: String) -> Result<Option<Opened>, StoreFault>
    ensures { IfOk result
        (λ found. IfSome found (λ file. string_bytes file.name ≡ string_bytes name)) }
{
    let file = match fs::open(files, name.as_str()) {
        Ok(file) => file,
        Err(error) if error.kind() == io::ErrorKind::NotFound => return Ok(None),
        Err(error) => return Err(StoreFault::from(error)),
    };
    let about = file.metadata()?;
    if about.is_dir() {
        return Err(StoreFault::Failed);
    }
    let length = about.len();
    Ok(Some(Opened { name, file, length }))
}

// The bytes of the file from the offset on, at most `len` of them; Failed where they are more than a part may have.
// How many there are is known since it was
// opened, so that they are read at once, into a vector that does not grow.
fn part_of(alloc: Global, opened: &Opened, offset: u64, len: u32) -> Result<Vec<u8>, StoreFault>
    ensures short { IfOk result (λ v. length v.items ≤ len) }
    ensures at_most { IfOk result (λ v. length v.items ≤ most_part_bytes) }
{
    let room = opened.length.saturating_sub(offset).min(u64::from(len));
    if room > u64::from(MOST_PART_BYTES) {
        return Err(StoreFault::Failed);
    }
    let mut bytes = vec![in alloc; 0; room as usize]?;
    opened.file.read_exact_at(bytes.as_mut_slice(), offset)?;
    Ok(bytes)
}
