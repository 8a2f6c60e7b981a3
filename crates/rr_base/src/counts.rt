//! Sums of counts. More of anything than can be counted doesn't fit the memory of a machine.
ghost use Rattle.std.specs.Prelude.{◌≡◌, ◌≤◌, ◌+◌, ◌^◌, IfErr, IfOk};

use std::alloc::AllocError;

/// The sum of two counts of 32 bits, if it is one.
pub fn sum(a: u32, b: u32) -> Result<u32, AllocError>
    ensures is { IfOk result (λ n. n ≡ a + b) }
    ensures fails { IfErr result (λ e. 2 ^ 32 ≤ a + b) }
{
    a.checked_add(b).ok_or(AllocError)
}

/// The sum of two lengths, if it is one.
pub fn length_sum(a: usize, b: usize) -> Result<usize, AllocError>
    ensures is { IfOk result (λ n. n ≡ a + b) }
    ensures fails { IfErr result (λ e. 2 ^ 64 ≤ a + b) }
{
    a.checked_add(b).ok_or(AllocError)
}
