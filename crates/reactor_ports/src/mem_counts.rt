//! How many bytes the three fronts have sent, counted by their ports together.
use std::alloc::{AllocError, Global};
use std::sync::Arc;
use std::sync::atomic::{AtomicU64, Ordering};

/// The bytes sent by each of the three fronts, shared by their ports. No contract speaks of them, since
/// the other fronts' threads change them at any time.
#[derive(Drop)]
pub struct Counts {
    renderd: AtomicU64,
    tiles: AtomicU64,
    control: AtomicU64,
}

impl Counts {
    pub(crate) fn new(alloc: Global) -> Result<Arc<Counts, Global>, AllocError> {
        Ok(Arc::new(
            alloc,
            Counts {
                renderd: AtomicU64::new(0),
                tiles: AtomicU64::new(0),
                control: AtomicU64::new(0),
            },
        )?)
    }

    fn of(&self, front: u32) -> Option<&AtomicU64> {
        match front {
            0 => Some(&self.renderd),
            1 => Some(&self.tiles),
            2 => Some(&self.control),
            _ => None,
        }
    }

    /// Whether the front has sent so many bytes.
    pub(crate) fn has_sent(&self, front: u32, bytes: u64) -> bool {
        let sent = match self.of(front) {
            Some(count) => count.load(Ordering::SeqCst),
            None => 0,
        };
        bytes <= sent
    }

    /// Counts bytes that the front has sent.
    pub(crate) fn add(&self, front: u32, bytes: u64) {
        if let Some(count) = self.of(front) {
            count.fetch_add(bytes, Ordering::SeqCst);
        }
    }
}
