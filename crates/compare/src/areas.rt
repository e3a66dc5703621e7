// What a call left in an area.

// Do these begin the area, and is the rest as it was?
pub fn begins<T: Copy + PartialEq + Drop>(area: &[T], own: &[T], blank: T) -> bool {
    area.starts_with(own) && area.iter().skip(own.len()).all(|x| *x == blank)
}
