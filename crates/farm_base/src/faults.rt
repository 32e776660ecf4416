//! Faults that one layer answers and another records: what an update and a stored container can be
//! refused for.

/// Why an update was refused. `change` is the place of the change in the update, from 0.
#[derive(Clone, Copy)]
pub enum ApplyFault {
    /// The change names a layer that the data do not have.
    NoLayer(u32),
    /// The change removes an id that the layer does not hold: the change and the id.
    NoFeature(u32, u64),
    /// A put of the change would give its layer more than 1,000,000 features.
    TooMany(u32),
    /// Want of memory.
    NoMemory,
}

/// Why bytes are no META container, or not the container that was asked for.
#[derive(Clone, Copy)]
pub enum MetaFault {
    /// The bytes end before the container's head does: how many there are.
    Short(u64),
    /// The first four bytes are not `META`.
    Magic,
    /// The first four bytes are `METZ`, the mark of a compressed container.
    Compressed,
    /// The count of the head is another number than 64.
    Count(u32),
    /// The head's x, y and z are those of another metatile, or of none.
    Place(u32, u32, u32),
    /// The offset and size at this index place name no part of the container.
    Index(u32),
}
