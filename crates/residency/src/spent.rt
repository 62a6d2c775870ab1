//! What happens to the memory of values that are no longer needed.

use std::mem;

/// What happens to memory that is no longer needed: it is freed piece by piece, or a program that is about to
/// end leaves it to the operating system.
#[derive(Clone, Copy, Debug)]
pub(crate) enum SpentMemory {
    GivenBack,
    LeftToTheSystem,
}

impl SpentMemory {
    /// Frees the memory of a value, or leaves it to the operating system.
    pub(crate) fn let_go<T: Drop>(self, value: T) {
        match self {
            SpentMemory::GivenBack => drop(value),
            SpentMemory::LeftToTheSystem => mem::forget(value),
        }
    }
}
