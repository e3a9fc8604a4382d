// Request 4: profiles 6 and 7, and the stream. Two lists are worked by hand.
use super::looks::MARK;
use super::{show_one, show_walk, stream_set, test_set, walk_five};
use laws::Way;
use sets::Set;
use system::System;

// Profiles 6 and 7, and the stream, which is read for every profile: after 3, so that a size that is not listed is said first.
pub fn test_streams(system: System) {
    test_set(system, stream_set(6, 2, 104, 2));
    test_set(system, stream_set(7, 6, 648, 4));
    test_set(system, stream_set(6, 2, 104, 0));
    test_set(system, stream_set(6, 2, 104, 5));
    test_set(system, stream_set(6, 2, 105, 5));
    test_set(system, stream_set(6, 3, 156, 1));
    test_set(system, stream_set(3, 1, 48, 0));
    test_set(system, stream_set(3, 1, 48, 2));
    test_set(system, stream_set(5, 1, 40, 2));
    test_set(system, stream_set(10, 1, 48, 2));
}

fn walk_eight(system: System, way: Way, set: Set, cell: u32) {
    let mut slots = [MARK; 8];
    show_walk(system, way, set, cell, &mut slots);
}

// Profile 6, bits 2, N 104, stream 2, by hand. N/d is 104/13 = 8, so the first step sends k below 13 to 8·k: 0, 8, 16, 24, 32, 40, 48, 56. s is 1,
// so the second leaves them. i - 1 is 1: (2·1) mod 3 + 3·(1/3) is 2, and the turn is 2·11·2 = 44. Less 44, modulo 104: 0 - 44 + 104 = 60, 8 - 44 +
// 104 = 68, then 76, 84, 92, 100, and 48 - 44 = 4, 56 - 44 = 12. So M begins 60, 68, 76, 84, 92, 100, 4, 12.
//
// Profile 7, bits 6, N 648, stream 4. N/d is 648/18 = 36: the first step sends k below 18 to 36·k: 0, 36, 72, 108, 144, 180, 216, 252. s is 3, and 18·m/648
// is k, so the second step takes k off modulo 3 within each group of 3, which each of these begins: 0, 36 + 2, 72 + 1, 108, 144 + 2, 180 + 1, 216, 252 + 2.
// i - 1 is 3: (2·3) mod 3 + 3·(3/3) is 3, and the turn is 3·29·6 = 522. Less 522 and 648 more is 126 more: M begins 126, 164, 199, 234, 272, 307, 342, 380.
pub fn show_turned(system: System) {
    let narrow = stream_set(6, 2, 104, 2);
    let wide = stream_set(7, 6, 648, 4);
    walk_eight(system, Way::Deinterleaver, narrow, 0);
    walk_eight(system, Way::Deinterleaver, wide, 0);
    // L of the first begins again at cell 104 - 44 = 60, and of the second at 648 - 522 = 126: up to there, over it, from it, and to the end
    walk_eight(system, Way::Interleaver, narrow, 52);
    walk_eight(system, Way::Interleaver, narrow, 56);
    walk_eight(system, Way::Interleaver, narrow, 60);
    walk_eight(system, Way::Interleaver, narrow, 100);
    walk_eight(system, Way::Interleaver, wide, 118);
    walk_eight(system, Way::Interleaver, wide, 119);
    walk_eight(system, Way::Interleaver, wide, 125);
    walk_eight(system, Way::Interleaver, wide, 648);
    walk_eight(system, Way::Interleaver, wide, 649);
    walk_five(system, Way::Interleaver, stream_set(3, 4, 192, 2), 193);
}

// One address on either side of the seam, the last of M, and a stream that there is not, which goes before the position.
pub fn show_ones(system: System) {
    show_one(system, Way::Interleaver, stream_set(6, 2, 104, 2), 59);
    show_one(system, Way::Interleaver, stream_set(6, 2, 104, 2), 60);
    show_one(system, Way::Deinterleaver, stream_set(7, 6, 648, 4), 647);
    show_one(system, Way::Deinterleaver, stream_set(7, 6, 648, 5), 648);
}
