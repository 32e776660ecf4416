//! What a container is read as.
use farm_base::MetaFault;
use meta_container::{Listing, listing};
use noted_puts::Letters;

fn tell_entries(told: &mut Letters, listing: &Listing) {
    told.put_with("metatile", listing.meta.z);
    told.put_next(listing.meta.x);
    told.put_next(listing.meta.y);
    for entry in listing.entries.as_slice() {
        told.put_with("\nplace", entry.place);
        told.put_with(" at", entry.offset);
        told.put_with(" of", entry.size);
    }
}

fn tell_place(told: &mut Letters, x: u32, y: u32, z: u32) {
    told.put_with("meta 5 of", x);
    told.put_next(y);
    told.put_next(z);
}

fn tell_fault(told: &mut Letters, fault: MetaFault) {
    match fault {
        MetaFault::Short(length) => told.put_with("meta 1 of", length),
        MetaFault::Magic => told.put("meta 2"),
        MetaFault::Compressed => told.put("meta 3"),
        MetaFault::Count(count) => told.put_with("meta 4 of", count),
        MetaFault::Place(x, y, z) => tell_place(told, x, y, z),
        MetaFault::Index(place) => told.put_with("meta 6 at", place),
    }
}

/// The metatile of a container and its entries in lines, or the first fault.
pub(crate) fn tell_meta(told: &mut Letters, bytes: &[u8]) {
    match listing(bytes) {
        Ok(listing) => tell_entries(told, &listing),
        Err(fault) => tell_fault(told, fault),
    }
}
