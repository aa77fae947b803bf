//! Sums and products of sizes.
ghost use Rattle.std.specs.Prelude.{◌≡◌, ◌+◌, ◌*◌, IfOk};

use std::alloc::AllocError;

/// The sum. `Err` where that is no number.
pub(crate) fn sum(m: usize, n: usize) -> Result<usize, AllocError>
    ensures { IfOk result (λ k. k ≡ m + n) }
{
    match m.checked_add(n) {
        Some(sum) => Ok(sum),
        None => Err(AllocError),
    }
}

/// The product. `Err` where that is no number.
pub(crate) fn product(m: usize, n: usize) -> Result<usize, AllocError>
    ensures { IfOk result (λ k. k ≡ m * n) }
{
    match m.checked_mul(n) {
        Some(product) => Ok(product),
        None => Err(AllocError),
    }
}
