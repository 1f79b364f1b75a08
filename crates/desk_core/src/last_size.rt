//! How large the core was when a step of the checkpointer came by.

use std::sync::atomic::{AtomicU64, Ordering};
use system_core::Size;

/// A size that any thread reads and one thread notes. Who reads while it is noted may see a part of the
/// size before. No contract speaks of it.
#[derive(Drop)]
pub struct LastSize {
    tables: AtomicU64,
    rows: AtomicU64,
    grants: AtomicU64,
    checkpoints: AtomicU64,
}

impl LastSize {
    /// This size was noted.
    pub fn of(size: Size) -> LastSize {
        let Size {
            tables,
            rows,
            grants,
            checkpoints,
        } = size;
        LastSize {
            tables: AtomicU64::new(tables),
            rows: AtomicU64::new(rows),
            grants: AtomicU64::new(grants),
            checkpoints: AtomicU64::new(checkpoints),
        }
    }

    /// Notes this size, if there is one.
    pub fn note(&self, size: Option<Size>) {
        let Some(size) = size else {
            return;
        };
        self.tables.store(size.tables, Ordering::SeqCst);
        self.rows.store(size.rows, Ordering::SeqCst);
        self.grants.store(size.grants, Ordering::SeqCst);
        self.checkpoints.store(size.checkpoints, Ordering::SeqCst);
    }

    /// The size that was noted last.
    pub fn get(&self) -> Size {
        Size {
            tables: self.tables.load(Ordering::SeqCst),
            rows: self.rows.load(Ordering::SeqCst),
            grants: self.grants.load(Ordering::SeqCst),
            checkpoints: self.checkpoints.load(Ordering::SeqCst),
        }
    }
}
