// Arithmetic that never fails, so that a formula is written down with no bound for each step. A number out of range shows as a difference.
pub fn plus(a: usize, b: usize) -> usize {
    a.wrapping_add(b)
}

pub fn minus(a: usize, b: usize) -> usize {
    a.wrapping_sub(b)
}

// The product of two numbers below 65,536.
pub fn times(a: usize, b: usize) -> usize {
    a % 65536 * (b % 65536)
}

pub fn over(a: usize, b: usize) -> usize {
    a.checked_div(b).unwrap_or(0)
}

pub(super) fn rest(a: usize, b: usize) -> usize {
    a.checked_rem(b).unwrap_or(0)
}

// A table's number at i; 0 past its end.
pub fn at<T: Copy + Into<usize>>(table: &[T], i: usize) -> usize {
    table.get(i).map_or(0, |x| (*x).into())
}

pub(super) fn put(table: &mut [u16], i: usize, x: usize) {
    if let Some(slot) = table.get_mut(i) {
        *slot = (x % 65536) as u16;
    }
}

// Every number of a table moved to the place before it.
pub fn move_on(table: &mut [u16]) {
    for i in 0..table.len() {
        put(table, i, at(table, plus(i, 1)));
    }
}
