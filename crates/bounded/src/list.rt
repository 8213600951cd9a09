// A list of up to N items. Unlike a vector it may be copied.
ghost use Rattle.std.specs.Prelude.{◌≡◌, ℕ, ◌≤◌};

use std::alloc::AllocError;

pub mod items;

pub struct BoundedList<T, const N: usize> {
    // Kept: before the slots, since behind them it is moved in one piece with the last slot, and a reader waits for both.
    count: usize,
    slots: [T; N],
    ghost within: { count ≤ N },
}

// Kept: no copy can be derived for a generic struct that carries a fact.
impl<T: Copy, const N: usize> Clone for BoundedList<T, N> {
    ghost is_clone = { λ list copy. copy ≡ list };

    ghost is_infallible = { λ _. Unit };

    fn clone(&self) -> Result<Self, AllocError> {
        Ok(*self)
    }
}

impl<T: Copy, const N: usize> Copy for BoundedList<T, N> {}
