// The sets that are compared.
use sets::{Factors, Set};

// The sets of a comparison.
#[derive(Clone, Copy)]
pub enum Choice {
    Carriers,
    Turbos,
    Eighteen,
    Spatials,
    Listed,
    Couples,
    EveryCouple,
}

// A set with no numbers beside its size and its stream.
fn spatial_set(profile: u32, bits: u32, n: u32, stream: u32) -> Set {
    Set {
        profile,
        bits,
        n,
        stream,
        factors: sets::NO_FACTORS,
    }
}

pub fn carrier_set(profile: u32, bits: u32, n: u32) -> Set {
    spatial_set(profile, bits, n, 1)
}

pub fn turbo_set(k: u32) -> Set {
    carrier_set(5, 1, k)
}

// The i-th of all profiles 1 to 4, bits 1 to 6, sizes 1 to 1,536: 36,864, most of them refused.
fn carrier_at(i: u32) -> Set {
    carrier_set(i / 9216 % 4 + 1, i / 1536 % 6 + 1, i % 1536 + 1)
}

// The i-th of profiles 6 and 7, bits 1 to 6, streams 0 to 5, sizes 1 to 648: 46,656, most of them refused.
fn spatial_at(i: u32) -> Set {
    spatial_set(
        i / 23328 % 2 + 6,
        i / 3888 % 6 + 1,
        i % 648 + 1,
        i / 648 % 6,
    )
}

fn standard(k: u32) -> Factors {
    lte::factors(k).unwrap_or(sets::NO_FACTORS)
}

// A set of profile 8.
pub fn quadratic_set(k: u32, factors: Factors) -> Set {
    Set {
        factors,
        ..carrier_set(8, 1, k)
    }
}

// The same with LTE's own factors.
fn lte_set(k: u32) -> Set {
    quadratic_set(k, standard(k))
}

// P0 to P3.
pub fn four(first: u32, second: u32, third: u32, fourth: u32) -> Factors {
    Factors {
        first,
        second,
        third,
        fourth,
    }
}

// A set of profile 9.
pub fn coupled_set(n: u32, factors: Factors) -> Set {
    Set {
        factors,
        ..carrier_set(9, 1, n)
    }
}

// One of four numbers that differ modulo 4.
fn small(n: u32, digit: u32) -> u32 {
    if digit < 3 {
        return digit;
    }
    n.wrapping_sub(1)
}

// The i-th of N 24 to 64 by 4, P0 0 to 64, and 0, 1, 2 and N - 1 for each of P1, P2 and P3: 45,760, most of them refused.
fn coupled_at(i: u32) -> Set {
    let n = i / 4160 % 11 * 4 + 24;
    coupled_set(
        n,
        four(
            i / 64 % 65,
            small(n, i / 16 % 4),
            small(n, i / 4 % 4),
            small(n, i % 4),
        ),
    )
}

// The i-th size of profile 9, N = 4·m + 24, with N/2 + 1, N/2, N - 4 and N/2 + 4. P0 = 2·(N/4) + 1 has no divisor with N/4. It is odd, N/2 is even,
// and so the four numbers P0·b + Q(b) are 1, P0 + 1, 3 and P0 + 3 modulo 4: all are accepted.
fn every_couple_at(i: u32) -> Set {
    let m = i % 595;
    coupled_set(
        4 * m + 24,
        four(2 * m + 13, 2 * m + 12, 4 * m + 20, 2 * m + 16),
    )
}

// Eighteen sets: each R and C, both orders of twenty, each s, two that are turned, LTE's shortest and longest, and the fewest couples and the most.
pub fn eighteen_at(i: u32) -> Set {
    match i {
        0 => turbo_set(40),
        1 => turbo_set(41),
        2 => turbo_set(160),
        3 => turbo_set(201),
        4 => turbo_set(481),
        5 => turbo_set(2281),
        6 => turbo_set(5114),
        7 => carrier_set(1, 1, 12),
        8 => carrier_set(3, 4, 192),
        9 => carrier_set(3, 6, 288),
        10 => carrier_set(1, 6, 1152),
        11 => carrier_set(4, 2, 1536),
        12 => spatial_set(6, 2, 104, 2),
        13 => spatial_set(7, 6, 648, 4),
        14 => lte_set(40),
        15 => lte_set(6144),
        16 => coupled_set(24, four(5, 0, 0, 0)),
        _ => coupled_set(2400, four(53, 66, 24, 2)),
    }
}

// The i-th set of a choice: of profile 8 sizes 1 to 6,144, most of them refused, and of 9 many numbers, or each of its sizes.
pub fn set_at(choice: Choice, i: u32) -> Set {
    match choice {
        Choice::Carriers => carrier_at(i),
        Choice::Turbos => turbo_set(i % 5075 + 40),
        Choice::Eighteen => eighteen_at(i),
        Choice::Spatials => spatial_at(i),
        Choice::Listed => lte_set(i % 6144 + 1),
        Choice::Couples => coupled_at(i),
        Choice::EveryCouple => every_couple_at(i),
    }
}

pub fn sets_in(choice: Choice) -> u32 {
    match choice {
        Choice::Carriers => 36864,
        Choice::Turbos => 5075,
        Choice::Eighteen => 18,
        Choice::Spatials => 46656,
        Choice::Listed => 6144,
        Choice::Couples => 45760,
        Choice::EveryCouple => 595,
    }
}

// The number that the test of a set gives, or 0.
pub fn verdict(set: Set) -> u32 {
    match sets::test(set) {
        Ok(()) => 0,
        Err(x) => x.number,
    }
}

pub fn accepted(set: Set) -> bool {
    sets::test(set).is_ok()
}
