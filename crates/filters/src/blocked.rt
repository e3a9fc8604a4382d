// Blocks of symbols from standard input to standard output, each moved whole.
use super::{read_some, refused, write_out};
use laws::Way;
use sets::Set;
use system::System;

// Reads until the block is full or the input ends, and answers how many bytes came. (By `while`: each read says how far it came.)
fn read_block(system: System, block: &mut [u8]) -> usize {
    let mut at = 0;
    while at < block.len() {
        let k = read_some(system, &mut block[at..]);
        if k == 0 {
            return at;
        }
        at += k;
    }
    at
}

// The blocks of a set, of symbols of `width` bytes, and their way.
#[derive(Clone, Copy)]
struct Filter {
    way: Way,
    set: Set,
    width: u32,
}

impl Filter {
    // Moves a block and writes it. Answers whether to go on.
    fn send(self, system: System, src: &[u8], dst: &mut [u8]) -> bool {
        match symbols::move_symbols(self.way, self.set, self.width, src, dst) {
            Ok(()) => write_out(system, dst),
            Err(x) => {
                refused(system, x.number, x.size);
                false
            }
        }
    }

    // Reads a block, and writes it moved. A short one is refused with 5 by the call that would move it, and nothing of it is written.
    fn turn(self, system: System, src: &mut [u8], dst: &mut [u8]) -> bool {
        let got = read_block(system, src);
        if got == 0 {
            return false;
        }
        self.send(system, lines::first(src, got), dst)
    }

    fn turns(self, system: System, src: &mut [u8], dst: &mut [u8]) {
        for _ in 0..u64::MAX {
            if !self.turn(system, src, dst) {
                return;
            }
        }
    }

    // The blocks in parts of the two rooms that have a block's length: at most 6,144 symbols of 8 bytes, for which there is room. Of profile 9 they
    // are twice N, which is at most 4,800.
    fn in_parts(self, system: System, src: &mut [u8], dst: &mut [u8]) {
        let n = tables::symbols_of(self.set).saturating_mul(self.width as usize);
        if n <= src.len().min(dst.len()) {
            self.turns(system, &mut src[..n], &mut dst[..n]);
        }
    }
}

// `interleave` and `deinterleave`, of symbols of 1 to 8 bytes.
pub fn through(system: System, way: Way, set: Set, width: u32) {
    match sets::test(set) {
        Err(x) => refused(system, x.number, x.size),
        Ok(()) => {
            let mut src = io::large_buffer();
            let mut dst = io::large_buffer();
            Filter { way, set, width }.in_parts(system, &mut src, &mut dst);
        }
    }
}
