//! The store in memory, with calls that fail at the numbers of a list.
ghost use Rattle.std.specs.Prelude.{◌≡◌, ◌≤◌, ◌<◌, ℕ, false, [], ◌∷◌, ◌++◌, length, Option, Some, None, IfOk, IfSome, IfErr, OnOk, OnErr, option_map, position, vec_len, vec_capacity, take, drop};
ghost use Rattle.std.specs.Str.{bytes_eq};
ghost use Rattle.farm_base.specs.InMemory.{content_of, next_count};
ghost use Rattle.farm_base.specs.InMemory as base;
ghost use Rattle.tile_store.specs.declared.stores.StoreFault.TheVariants.{Failed, NoMemory};
ghost use Rattle.tile_store.specs.Stores.{StorePuts, Gets, whole, part, failed_put, failed_get};
ghost use Rattle.tile_store.specs.Held.{store_state, with_content, put_fails, get_fails, half, PutsHeld, GetsHeld};

use crate::staging::Staged;
use crate::stores::{StoreFault, TileStore};
use farm_base::{Bytes, FailedCall, NoMemory, Text};
use std::alloc::Global;
use std::marker::Model;

/// Contents in memory by their paths, with puts and gets that fail at the numbers of two lists.
#[derive(Drop)]
pub struct MemStore {
    held: Vec<(Text, Bytes)>,
    puts: Vec<u64>,
    gets: Vec<u64>,
    put_calls: u64,
    get_calls: u64,
    failed: Vec<FailedCall>,
}

impl Model for MemStore {
    ghost use Rattle.tile_store.specs.Held.{StoreHeld};

    ghost Value = { StoreHeld };

    ghost view = { λ s. record {
      held = s.held.items;
      puts = s.puts.items;
      gets = s.gets.items;
      put_calls = s.put_calls;
      get_calls = s.get_calls;
      failed = s.failed.items;
    } };
}

fn content<'a>(held: &'a [(Text, Bytes)], path: &str) -> Option<&'a Bytes>
    ensures { option_map (λ b. b.now) result ≡ content_of held.entry.now path.now }
{
    held.iter()
        .find(|pair| pair.0.as_str() == path)
        .map(|pair| &pair.1)
}

fn place_of(held: &[(Text, Bytes)], path: &Text) -> Option<usize>
    ensures { result ≡ position (λ pair. bytes_eq pair.0 path.now) held.now }
{
    let path = path.as_str();
    held.iter().position(|pair| pair.0.as_str() == path)
}

// Puts the bytes at the path, in place of those that it held.
fn hold(held: &mut Vec<(Text, Bytes)>, path: Text, bytes: Bytes)
    requires { vec_len held.old < vec_capacity held.old }
    ensures { held.new.items ≡ with_content held.old.items path bytes }
{
    match place_of(held.as_slice(), &path) {
        Some(place) => held[place].1 = bytes,
        None => held.push((path, bytes)).unwrap(),
    }
}

fn note(failed: &mut Vec<FailedCall>, alloc: Global, path: &str, put: bool) -> Result<(), NoMemory>
    ensures done { OnOk result
        (failed.new.items ≡ failed.old.items ++ record { name = path.now; put = put } ∷ []) }
    ensures refused { OnErr result (failed.new.items ≡ failed.old.items) }
{
    failed.push(FailedCall {
        name: Text::of(alloc, path)?,
        put,
    })?;
    Ok(())
}

fn is_to_fail(numbers: &[u64], n: u64) -> bool
    ensures { result ≡ base.is_to_fail numbers.now n }
{
    numbers.iter().any(|k| *k == n)
}

// The bytes from an offset on, at most `len` of them and no further than their end.
fn part_of(bytes: &[u8], offset: u64, len: u32) -> &[u8]
    ensures { result.now ≡ part offset len bytes.now }
{
    let rest = match bytes.get(offset as usize..) {
        Some(rest) => rest,
        None => &[],
    };
    match rest.get(..len as usize) {
        Some(front) => front,
        None => rest,
    }
}

impl MemStore {
    /// A store with these contents; of two contents of one path the first counts. `puts` and `gets` are
    /// the numbers, from 0, of the puts and of the gets that are to fail; `get` and `get_part` are
    /// counted together.
    pub fn new(
        alloc: Global,
        held: Vec<(Text, Bytes)>,
        puts: Vec<u64>,
        gets: Vec<u64>,
    ) -> Result<MemStore, NoMemory>
        ensures { IfOk result (λ s. s ≡ record {
          held = held.items;
          puts = puts.items;
          gets = gets.items;
          put_calls = 0;
          get_calls = 0;
          failed = [];
        }) }
    {
        Ok(MemStore {
            held,
            puts,
            gets,
            put_calls: 0,
            get_calls: 0,
            failed: Vec::new(alloc),
        })
    }

    /// The calls that failed so far, in order.
    pub fn failed(&self) -> &[FailedCall]
        ensures { result.now ≡ self.now.failed }
    {
        self.failed.as_slice()
    }

    fn put_is_to_fail(&self) -> bool
        ensures { result ≡ put_fails self.now }
    {
        is_to_fail(self.puts.as_slice(), self.put_calls)
    }

    fn get_is_to_fail(&self) -> bool
        ensures { result ≡ get_fails self.now }
    {
        is_to_fail(self.gets.as_slice(), self.get_calls)
    }

    fn keep(&mut self, alloc: Global, path: &str, bytes: &[u8]) -> Result<(), NoMemory>
        ensures done { OnOk result
            (self.new ≡ record self.old {
              held = with_content self.old.held path.now bytes.now;
              put_calls = next_count self.old.put_calls;
            }) }
        ensures refused { OnErr result (self.new ≡ self.old) }
    {
        let name = Text::of(alloc, path)?;
        let copy = Bytes::of(alloc, bytes)?;
        self.held.reserve(1)?;
        hold(&mut self.held, name, copy);
        self.put_calls = self.put_calls.saturating_add(1);
        Ok(())
    }

    // A put that fails: the path holds half of the bytes. After want of memory all is as before.
    fn keep_half(&mut self, alloc: Global, path: &str, bytes: &[u8]) -> Result<(), NoMemory>
        ensures done { OnOk result
            (self.new ≡ record self.old {
              held = with_content self.old.held path.now
                  (half bytes.now);
              put_calls = next_count self.old.put_calls;
              failed = self.old.failed ++ failed_put path.now ∷ [];
            }) }
        ensures refused { OnErr result (self.new ≡ self.old) }
    {
        let name = Text::of(alloc, path)?;
        let copy = Bytes::of(alloc, &bytes[..bytes.len() / 2])?;
        self.held.reserve(1)?;
        note(&mut self.failed, alloc, path, true)?;
        hold(&mut self.held, name, copy);
        self.put_calls = self.put_calls.saturating_add(1);
        Ok(())
    }

    fn refuse(&mut self, alloc: Global, path: &str) -> Result<(), NoMemory>
        ensures done { OnOk result
            (self.new ≡ record self.old {
              get_calls = next_count self.old.get_calls;
              failed = self.old.failed ++ failed_get path.now ∷ [];
            }) }
        ensures refused { OnErr result (self.new ≡ self.old) }
    {
        note(&mut self.failed, alloc, path, false)?;
        self.get_calls = self.get_calls.saturating_add(1);
        Ok(())
    }
}

impl TileStore for MemStore {
    ghost use Rattle.std.specs.Prelude.{refl};
    ghost use Rattle.tile_store.specs.Held.{store_state};

    ghost state = { store_state };

    ghost counted = { λ s. refl };

    /// As the trait says, and exactly: it fails where its number is in the list, and then the path
    /// holds the first half of the bytes, rounded down.
    fn put(&mut self, alloc: Global, path: &str, bytes: &[u8]) -> Result<(), StoreFault>
        ensures state { StorePuts (store_state self.old) (store_state self.new)
            path.now bytes.now result }
        ensures exact { PutsHeld self.old self.new path.now bytes.now result }
    {
        if self.put_is_to_fail() {
            self.keep_half(alloc, path, bytes)?;
            return Err(StoreFault::Failed);
        }
        self.keep(alloc, path, bytes)?;
        Ok(())
    }

    /// As the trait says, and exactly as `put`.
    fn put_staged(&mut self, alloc: Global, path: &str, staged: &Staged) -> Result<(), StoreFault>
        ensures state { StorePuts (store_state self.old) (store_state self.new)
            path.now staged.now.bytes result }
        ensures exact { PutsHeld self.old self.new path.now staged.now.bytes result }
    {
        self.put(alloc, path, staged.bytes())
    }

    /// As the trait says, and exactly: it fails where its number is in the list.
    fn get(&mut self, alloc: Global, path: &str) -> Result<Option<Vec<u8>>, StoreFault>
        ensures state { Gets whole (store_state self.old) (store_state self.new) path.now result }
        ensures exact { GetsHeld whole self.old self.new path.now result }
    {
        if self.get_is_to_fail() {
            self.refuse(alloc, path)?;
            return Err(StoreFault::Failed);
        }
        let found = match content(self.held.as_slice(), path) {
            Some(bytes) => Some(Vec::from_slice(alloc, bytes.as_slice())?),
            None => None,
        };
        self.get_calls = self.get_calls.saturating_add(1);
        Ok(found)
    }

    /// As the trait says, and exactly: it fails where its number is in the list.
    fn get_part(
        &mut self,
        alloc: Global,
        path: &str,
        offset: u64,
        len: u32,
    ) -> Result<Option<Vec<u8>>, StoreFault>
        ensures state { Gets (part offset len) (store_state self.old) (store_state self.new)
            path.now result }
        ensures short { IfOk result (λ found. IfSome found (λ v. length v.items ≤ len)) }
        ensures exact { GetsHeld (part offset len) self.old self.new path.now result }
    {
        if self.get_is_to_fail() {
            self.refuse(alloc, path)?;
            return Err(StoreFault::Failed);
        }
        let found = match content(self.held.as_slice(), path) {
            Some(bytes) => Some(Vec::from_slice(alloc, part_of(bytes.as_slice(), offset, len))?),
            None => None,
        };
        self.get_calls = self.get_calls.saturating_add(1);
        Ok(found)
    }

    fn faults(&self) -> u64
        ensures { result ≡ length self.now.failed }
    {
        self.failed.len() as u64
    }
}
