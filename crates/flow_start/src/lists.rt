use no_memory::NoMemory;
use std::alloc::Global;

// Nothing is shown of the places that the lists of this crate hold, so each look-up tests its place.

/// The value at a place, or another where the place is not there.
pub(crate) fn read<T: Copy>(xs: &[T], place: u32, other: T) -> T {
    let place = place as usize;
    if place < xs.len() { xs[place] } else { other }
}

/// Writes a value at a place, where the place is there.
pub(crate) fn write<T: Copy>(xs: &mut [T], place: u32, value: T) {
    let place = place as usize;
    if place < xs.len() {
        xs[place] = value;
    }
}

/// Adds to the number at a place, where the place is there.
pub(crate) fn add(xs: &mut [i128], place: u32, by: i128) {
    let total = read(xs, place, 0).saturating_add(by);
    write(xs, place, total);
}

/// Writes a value at each place.
pub(crate) fn fill<T: Copy>(xs: &mut [T], value: T) {
    for x in xs.iter_mut() {
        *x = value;
    }
}

/// So many copies of a value.
pub(crate) fn filled<T: Copy>(alloc: Global, count: u32, value: T) -> Result<Vec<T>, NoMemory> {
    Ok(vec![in alloc; value; count as usize]?)
}
