// What is looked at: loops that fill and compare, with no call of the library in them.

// No address: the last of any set is 6,143.
pub const MARK: u16 = 65535;

// How many slots still hold the mark.
pub fn kept(slots: &[u16]) -> u64 {
    slots.iter().filter(|slot| **slot == MARK).count() as u64
}

// How many bytes are not 0.
pub fn written(bytes: &[u8]) -> u64 {
    bytes.iter().filter(|b| **b != 0).count() as u64
}

// At how many places two slices of one length differ.
pub fn differing<T: PartialEq>(a: &[T], b: &[T]) -> u64 {
    a.iter().zip(b).filter(|(x, y)| **x != **y).count() as u64
}

// Whether position i of the soft block is minus zero, in an uneven pattern.
fn minus(i: usize) -> bool {
    let k = i % 192;
    (k * 5 + k / 3) % 7 < 3
}

fn zero(i: usize) -> f32 {
    if minus(i) { -0.0 } else { 0.0 }
}

// Fills the soft block, and counts the minus zeros.
pub fn zeros(block: &mut [f32; 192]) -> u64 {
    for (i, x) in block.iter_mut().enumerate() {
        *x = zero(i);
    }
    (0..192).filter(|i| minus(*i)).count() as u64
}

// The bits of a value: `==` does not tell 0.0 from -0.0, and their bits do. The logic has one not-a-number and no bits of it, so any is
// given one pattern here; the block has none.
fn bits(x: f32) -> u32 {
    if x.is_nan() {
        return 0x7fc0_0000;
    }
    x.to_bits()
}

// At how many positions the bits differ.
pub fn differing_bits(a: &[f32; 192], b: &[f32; 192]) -> u64 {
    a.iter()
        .zip(b)
        .filter(|(x, y)| bits(**x) != bits(**y))
        .count() as u64
}
