// What is counted and compared. A sum may wrap: it is held against the one that is stored.
use second::num::{plus, times};

pub fn short(x: usize) -> u32 {
    (x % 65536) as u32
}

// What a number weighs at a place, counted from 0.
pub fn weigh(i: usize, x: usize) -> u64 {
    times(plus(i, 1), x) as u64
}

// The weight of numbers that stand at a place and the places after it.
pub fn weight<T: Copy + Into<usize>>(from: usize, numbers: &[T]) -> u64 {
    let mut all = 0;
    for (i, x) in numbers.iter().enumerate() {
        all = sum(all, weigh(plus(from, i), (*x).into()));
    }
    all
}

// How many numbers are not those that are due at their places.
pub fn wrong_numbers<T: Copy + Into<usize>, F: Fn(usize) -> usize>(numbers: &[T], due: F) -> u64
    requires { F.IsAlwaysCallable due }
{
    let mut all = 0;
    for (i, x) in numbers.iter().enumerate() {
        all = sum(all, differ((*x).into(), due(i)));
    }
    all
}

// 1 where two numbers differ.
pub fn differ(a: usize, b: usize) -> u64 {
    u64::from(a != b)
}

pub fn sum(a: u64, b: u64) -> u64 {
    a.wrapping_add(b)
}
