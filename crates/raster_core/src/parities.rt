//! Many crossings by a bit for each pixel: of crossings at one place each two turn nothing round and go, and the
//! bits that are left stand in order.
ghost use Rattle.std.specs.Prelude.{◌≡◌, ℕ, ◌*◌, ◌≤◌, ◌<◌, ◌^◌, ◌++◌, ◌∷◌, [], if◌then◌else◌, Bool, false, not, length, slice_set, slice_index_or, count_by, replicate, All, IfOk, OnOk};
ghost use Rattle.std.specs.List.Sorted.{IsNonDecreasing};
ghost use Rattle.plain_world.specs.World.{IsWindow};
ghost use Rattle.plain_shapes.specs.Rings.{is_odd};
ghost use Rattle.raster_core.specs.inner.Toggles.{AllInside, SameParities, set_places};

use farm_base::NoMemory;
use plain_world::Window;
use std::alloc::Global;

// So many crossings are never too many.
const FEW: usize = 65_536;

// So few crossings are sorted.
const SORTED: usize = 1_024;

// Where there is a crossing for so many pixels, or more, their bits are sooner gone through than they are sorted.
const SPARSE: usize = 16;

fn area_of(w: Window) -> usize
    requires { IsWindow w }
    ensures value { result ≡ w.rows * w.cols }
    ensures few { result ≤ 2 ^ 24 }
{
    w.rows as usize * w.cols as usize
}

fn turn(bits: &mut Vec<bool>, place: u32)
    requires { place < length bits.old.items }
    ensures { bits.new.items
        ≡ slice_set bits.old.items place (not (slice_index_or bits.old.items place false)) }
{
    let k = place as usize;
    bits[k] = !bits[k];
}

fn no_bits(alloc: Global, area: usize) -> Result<Vec<bool>, NoMemory>
    ensures { IfOk result (λ v. v.items ≡ replicate area false) }
{
    let bits = vec![in alloc; false; area]?;
    Ok(bits)
}

fn bits_of(alloc: Global, area: usize, places: &[u32]) -> Result<Vec<bool>, NoMemory>
    requires { All (λ place. place < area) places.now }
    ensures count { IfOk result (λ v. length v.items ≡ area) }
    ensures parity { IfOk result (λ v. (p : ℕ → Bool)
        → is_odd (count_by p (set_places 0 v.items)) ≡ is_odd (count_by p places.now)) }
{
    let mut bits = no_bits(alloc, area)?;
    for place in places {
        turn(&mut bits, *place);
    }
    Ok(bits)
}

fn add_set(places: &mut Vec<u32>, place: u32, is_set: bool) -> Result<(), NoMemory>
    ensures { OnOk result
        (places.new.items ≡ places.old.items ++ (if is_set then place ∷ [] else [])) }
{
    if is_set {
        places.push(place)?;
    }
    Ok(())
}

fn set_places(alloc: Global, bits: &[bool]) -> Result<Vec<u32>, NoMemory>
    requires { length bits.now ≤ 2 ^ 24 }
    ensures { IfOk result (λ v. v.items ≡ set_places 0 bits.now) }
{
    let mut places = Vec::new(alloc);
    for (k, is_set) in bits.iter().enumerate() {
        add_set(&mut places, k as u32, *is_set)?;
    }
    Ok(places)
}

fn by_bits(alloc: Global, w: Window, places: &[u32]) -> Result<Vec<u32>, NoMemory>
    requires window { IsWindow w }
    requires inside { AllInside w places.now }
    ensures inside { IfOk result (λ v. AllInside w v.items) }
    ensures order { IfOk result (λ v. IsNonDecreasing v.items) }
    ensures parity { IfOk result (λ v. SameParities places.now v.items) }
{
    let bits = bits_of(alloc, area_of(w), places)?;
    set_places(alloc, &bits)
}

/// Leaves out pairs of the same place where there are more than two places a pixel of the window, so that
/// many long edges take no more memory than its pixels.
pub fn thin(alloc: Global, w: Window, places: &mut Vec<u32>) -> Result<(), NoMemory>
    requires window { IsWindow w }
    requires inside { AllInside w places.old.items }
    ensures inside { OnOk result (AllInside w places.new.items) }
    ensures parity { OnOk result (SameParities places.old.items places.new.items) }
{
    if places.len() < FEW || places.len() / 2 < area_of(w) {
        return Ok(());
    }
    let kept = by_bits(alloc, w, places)?;
    *places = kept;
    Ok(())
}

/// Puts the places in order. Where there are many, pairs of the same place are left out.
pub fn put_in_order(alloc: Global, w: Window, places: &mut Vec<u32>) -> Result<(), NoMemory>
    requires window { IsWindow w }
    requires inside { AllInside w places.old.items }
    ensures inside { OnOk result (AllInside w places.new.items) }
    ensures order { OnOk result (IsNonDecreasing places.new.items) }
    ensures parity { OnOk result (SameParities places.old.items places.new.items) }
{
    if places.len() < SORTED || places.len() < area_of(w) / SPARSE {
        places.sort_unstable();
        return Ok(());
    }
    let kept = by_bits(alloc, w, places)?;
    *places = kept;
    Ok(())
}
