/// The item at the place, or another where the list is shorter.
pub fn item_at<T: Copy>(list: &[T], at: u32, other: T) -> T {
    match list.get(at as usize) {
        Some(item) => *item,
        None => other,
    }
}

/// Puts the item at the place, where the list has it.
pub fn put<T: Copy>(list: &mut [T], at: u32, item: T) {
    if let Some(place) = list.get_mut(at as usize) {
        *place = item;
    }
}

/// The number of items; 0 for a list too long to be counted.
pub fn count_of<T>(list: &[T]) -> u32 {
    match u32::try_from(list.len()) {
        Ok(count) => count,
        Err(_) => 0,
    }
}
