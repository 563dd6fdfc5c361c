//! Tables of the seats' holds in one mode.

ghost use Rattle.std.specs.Prelude.{◌≡◌, ℕ, ◌<◌, ◌≤◌, ◌^◌, IfOk, length, map, slice_index};
ghost use Rattle.deciding.specs.Below.{holds_of, total, most_permits};

use history::base::SeatBase;
use history::base_parts::holds_of;
use history::entry::Mode;
use std::alloc::{AllocError, Global};

/// Returns what each seat of a base holds in a mode.
pub fn held_in(alloc: Global, seats: &[SeatBase], mode: Mode) -> Result<Vec<u128>, AllocError>
    ensures { IfOk result (λ held. held.items ≡ map (λ has. holds_of has mode) seats.now) }
{
    let mut held = Vec::with_capacity(alloc, seats.len())?;
    for has in seats {
        held.push_reserved(holds_of(*has, mode));
    }
    Ok(held)
}

/// Returns the sum of the numbers.
pub fn sum(numbers: &[u128]) -> u128
    requires each { (i : ℕ) → slice_index numbers.now i ≤ most_permits }
    requires few { length numbers.now ≤ 65536 }
    ensures sum { result ≡ total (length numbers.now) (slice_index numbers.now) }
    ensures few { result < 2 ^ 127 }
{
    let mut sum: u128 = 0;
    for number in numbers {
        sum += *number;
    }
    sum
}
