//! What lies on the heap.
ghost use Rattle.std.specs.Prelude.{◌≡◌};

/// The count of a block's handles, and the value that they show.
#[derive(Drop)]
pub(crate) struct Block<T> {
    pub(crate) count: u64,
    pub(crate) value: T,
}
