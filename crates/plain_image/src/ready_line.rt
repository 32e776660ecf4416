//! The bytes of pixels of one colour, ready to be copied.
ghost use Rattle.std.specs.Prelude.{◌≡◌, ◌++◌, ℕ, ◌≤◌, true, flat_map, replicate, OnOk};
ghost use Rattle.plain_shapes.specs.declared.colour.Colour.{Colour};
ghost use Rattle.plain_shapes.specs.Ppm.{pixel_bytes};

use farm_base::NoMemory;
use plain_shapes::Colour;
use std::alloc::Global;
use std::marker::Model;

/// The bytes of some pixels of one colour. To copy them takes a fraction of the time in which they are
/// stored byte by byte. Contracts see the colour and how many pixels there are.
#[derive(Drop)]
pub struct ReadyLine {
    colour: Colour,
    count: usize,
    bytes: Vec<u8>,
}

impl Model for ReadyLine {
    ghost use Rattle.std.specs.Prelude.{◌≡◌, ℕ, flat_map, replicate};
    ghost use Rattle.plain_shapes.specs.declared.colour.Colour.{Colour};
    ghost use Rattle.plain_shapes.specs.Ppm.{pixel_bytes};

    ghost Value = { Colour × ℕ };

    ghost view = { λ m. (m.colour, m.count) };

    ghost invariant = { λ m. m.bytes.items ≡ flat_map pixel_bytes (replicate m.count m.colour) };
}

fn append(out: &mut Vec<u8>, c: Colour, count: usize) -> Result<(), NoMemory>
    ensures { OnOk result
        (out.new.items ≡ out.old.items ++ flat_map pixel_bytes (replicate count c)) }
{
    for _pixel in 0..count {
        out.extend_from_slice(&[c.r, c.g, c.b])?;
    }
    Ok(())
}

impl ReadyLine {
    /// No pixel yet, of a colour.
    pub fn new(alloc: Global, c: Colour) -> ReadyLine
        ensures { result ≡ (c, 0) }
    {
        ReadyLine {
            colour: c,
            count: 0,
            bytes: Vec::new(alloc),
        }
    }

    fn restart(&mut self, c: Colour)
        ensures { self.new ≡ (c, 0) }
    {
        self.bytes.clear();
        self.colour = c;
        self.count = 0;
    }

    // Has it hold so many pixels of its colour or more; `false` where memory is wanting.
    fn lengthen(&mut self, count: usize) -> bool
        ensures colour { self.new.0 ≡ self.old.0 }
        ensures count { result ≡ true → count ≤ self.new.1 }
    {
        if count <= self.count {
            return true;
        }
        let c = self.colour;
        match append(&mut self.bytes, c, count - self.count) {
            Ok(()) => {
                self.count = count;
                true
            }
            Err(_) => {
                self.bytes.clear();
                self.count = 0;
                false
            }
        }
    }

    /// Has it hold so many pixels of the colour or more. `false` where memory is wanting, and the first
    /// time that another colour is asked for, since a line that is copied once saves nothing.
    pub fn prepare(&mut self, c: Colour, count: usize) -> bool
        ensures { result ≡ true → (self.new.0 ≡ c) × (count ≤ self.new.1) }
    {
        if self.colour != c {
            self.restart(c);
            return false;
        }
        self.lengthen(count)
    }

    /// The bytes of the first `count` pixels.
    pub fn bytes(&self, count: usize) -> &[u8]
        requires { count ≤ self.now.1 }
        ensures { result.now ≡ flat_map pixel_bytes (replicate count self.now.0) }
    {
        &self.bytes[..count * 3]
    }
}
