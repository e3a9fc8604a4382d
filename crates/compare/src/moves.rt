// Whole blocks of bytes, held against a list of the second computation over symbols, and single addresses, against one over what they count.
use crate::count::Count;
use crate::num::{differ, short, sum, weigh, weight, wrong_numbers};
use second::num::{at, over, times};
use sets::Set;
use walks::Found;

// Byte t of the input: never 0. The low and the high byte together tell t.
fn sample(high: bool, t: usize) -> u8 {
    if high {
        return (t / 255 % 255 + 1) as u8;
    }
    (t % 255 + 1) as u8
}

fn samples(high: bool, src: &mut [u8]) {
    for (t, b) in src.iter_mut().enumerate() {
        *b = sample(high, t);
    }
}

// How many outputs are not the inputs that the list has for them, and how many bytes that came back are not what they were.
fn wrong_block(list: &[u16], src: &[u8], dst: &[u8], again: &[u8]) -> u64 {
    let there = wrong_numbers(dst, |t| at(src, at(list, t)));
    let back = wrong_numbers(again, |t| at(src, t));
    sum(there, back)
}

// A block there and back.
fn block(
    set: Set,
    high: bool,
    list: &[u16],
    src: &mut [u8],
    dst: &mut [u8],
    again: &mut [u8],
) -> Count {
    samples(high, src);
    dst.fill(0);
    again.fill(0);
    let first = blocks::interleave(set, src, dst);
    let second = blocks::deinterleave(set, dst, again);
    let refused = u64::from(first.is_err()) + u64::from(second.is_err());
    Count {
        sets: u64::from(!high),
        calls: 2,
        addresses: dst.len() as u64,
        cells: 0,
        padding: 0,
        weight: weight(0, dst),
        differences: sum(wrong_block(list, src, dst, again), refused),
    }
}

// The same in buffers cut to the block's length.
pub fn block_of(
    set: Set,
    high: bool,
    list: &[u16],
    src: &mut [u8],
    dst: &mut [u8],
    again: &mut [u8],
) -> Count {
    let n = tables::symbols_of(set);
    if src.len().min(dst.len()).min(again.len()) < n {
        return Count::wrong(1);
    }
    block(
        set,
        high,
        list,
        &mut src[..n],
        &mut dst[..n],
        &mut again[..n],
    )
}

// The address that was found; a refusal is none that is looked for.
fn found(f: Found) -> usize {
    f.map_or(65535, |x| x as usize)
}

// The i-th of twenty positions, from 0 to N - 1, with its address, and that address back.
fn single(set: Set, list: &[u16], i: usize) -> Count {
    let n = set.n as usize;
    if n == 0 {
        return Count::wrong(1);
    }
    let t = over(times(i, n - 1), 19);
    let a = at(list, t);
    let there = found(walks::address_l(set, short(t)));
    let back = found(walks::address_m(set, short(a)));
    Count {
        sets: u64::from(i == 0),
        calls: 2,
        addresses: 2,
        cells: 0,
        padding: 0,
        weight: sum(weigh(t, there), weigh(a, back)),
        differences: sum(differ(there, a), differ(back, t)),
    }
}

pub fn singles(set: Set, list: &[u16]) -> Count {
    let mut c = Count::default();
    for i in 0..20 {
        c = c.with(single(set, list, i));
    }
    c
}
