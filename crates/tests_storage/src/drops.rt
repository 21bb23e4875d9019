//! A value that counts its drops.
use std::sync::atomic::{AtomicU64, Ordering};

/// A value that counts its drops.
pub struct Dropped<'a> {
    pub drops: &'a AtomicU64,
}

impl<'a> Drop for Dropped<'a> {
    fn drop(self) {
        let Dropped { drops } = self;
        drops.fetch_add(1, Ordering::SeqCst);
    }
}
