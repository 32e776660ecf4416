//! Marks of many metatiles, and their expiry.
ghost use Rattle.plain_world.specs.World.{IsMeta, IsTile};

use crate::bench::Bench;
use crate::tables::Calls;
use expiry_lists::{Key, Marks};
use farm_base::{NoMemory, Sink};
use plain_world::{Meta, Tile};
use std::rt::Clock;

fn meta_at(number: u32) -> Meta
    ensures { IsMeta result }
{
    Meta {
        z: 18,
        x: 131_072 + 8 * (number % 1_000),
        y: 131_072 + 8 * (number / 1_000 % 1_000),
    }
}

fn tile_at(number: u32) -> Tile
    ensures { IsTile result }
{
    let Meta { z, x, y } = meta_at(number);
    Tile { z, x, y }
}

fn show_all(marks: &mut Marks, count: u32) -> Result<(), NoMemory> {
    for number in 0..count {
        marks.reserve_one()?;
        let meta = meta_at(number);
        marks.show(Key { map: 0, meta }, 0, true);
    }
    Ok(())
}

// Expires so many tiles of zoom 18, each in another metatile: how many clean ones they met.
fn expire_tiles(marks: &mut Marks, tiles: u32) -> u64 {
    let mut clean: u64 = 0;
    for number in 0..tiles {
        let tile = tile_at(number.wrapping_mul(997));
        clean = clean.saturating_add(marks.expire(tile));
    }
    clean
}

impl<'a, R: Clock, O: Sink> Bench<'a, R, O> {
    /// The lines of the marks, which are shown, expired tile by tile, and with the whole world twice: none where memory was
    /// wanting.
    pub(crate) fn mark_lines(&mut self, calls: Calls) -> Option<()> {
        let mut marks = Marks::new(self.alloc);
        let told = self.lines_of_marks(calls, &mut marks);
        drop(marks);
        told
    }

    fn lines_of_marks(&mut self, calls: Calls, marks: &mut Marks) -> Option<()> {
        let start = self.start();
        show_all(marks, calls.shown).ok()?;
        let took = self.took(start);
        self.out.put_counted(calls.shown, " metatiles shown\n");
        self.put_each(took, calls.shown);
        self.tiles_line(calls.tiles, marks);
        self.world_line(marks);
        self.world_line(marks);
        Some(())
    }

    fn tiles_line(&mut self, tiles: u32, marks: &mut Marks) {
        let start = self.start();
        let clean = expire_tiles(marks, tiles);
        let took = self.took(start);
        self.out.put_counted(tiles, " tiles of zoom 18 expired: ");
        self.out.put_counted(clean, " clean\n");
        self.put_each(took, tiles);
    }

    fn world_line(&mut self, marks: &mut Marks) {
        let start = self.start();
        let clean = marks.expire(Tile { z: 0, x: 0, y: 0 });
        let took = self.took(start);
        self.out.put("the world expired: ");
        self.out.put_counted(clean, " clean\n");
        self.put_each(took, 1);
    }
}
