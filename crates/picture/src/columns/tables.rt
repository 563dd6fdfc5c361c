//! Tables of numbers.

/// Adds a number to the one at a place, up to `most`, if the table has the place.
pub(crate) fn add(table: &mut Vec<u64>, place: u64, number: u64, most: u64) {
    if (place as usize) < table.len() {
        table[place as usize] = table[place as usize].saturating_add(number).min(most);
    }
}

/// Returns the number at a place of a table, and 0 after its end.
pub(crate) fn at(table: &[u64], place: u64) -> u64 {
    match table.get(place as usize) {
        Some(number) => *number,
        None => 0,
    }
}

/// Returns the greatest of some numbers, and 0 of none.
pub(crate) fn greatest(numbers: &[u64]) -> u64 {
    let mut most = 0;
    for number in numbers {
        most = most.max(*number);
    }
    most
}
