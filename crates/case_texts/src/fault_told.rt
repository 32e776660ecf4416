//! The first faults of texts that are refused, as the commands tell them, or that they are read.
use exit_status::FaultText;
use noted_puts::Letters;
use std::alloc::Global;

/// The text of a fault.
pub(crate) fn tell_fault<E: FaultText>(alloc: Global, told: &mut Letters, fault: E) {
    match fault.text(alloc) {
        Ok(text) => told.put(text.as_str()),
        Err(_) => told.cut(),
    }
}

/// The text of a reader's fault, or that it read.
pub(crate) fn tell_read<T: Drop, E: FaultText + Drop>(
    alloc: Global,
    told: &mut Letters,
    read: Result<T, E>,
) {
    match read.err() {
        None => told.put("read"),
        Some(fault) => tell_fault(alloc, told, fault),
    }
}
