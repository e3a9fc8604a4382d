// The numbers of a command. A word that is no number is told, and the command does nothing.
ghost use Rattle.std.specs.Prelude.{◌≤◌, IfSome};

use super::names;
use lines::word;
use named::among;
use sets::{Factors, Set};
use system::System;

// P0 to P3 of the request's own block of 24 couples. Of other sizes none are kept.
const OF_24: Factors = Factors {
    first: 5,
    second: 0,
    third: 0,
    fourth: 0,
};

// A burst: where it begins, and how many bytes it has.
#[derive(Clone, Copy)]
pub struct Burst {
    pub at: u32,
    pub length: u32,
}

fn wrong(system: System, name: &[u8], most: &[u8], got: &[u8]) {
    told::say(system, b"interleaver: expected ");
    told::say(system, name);
    told::say(system, b", a decimal number of 1 to 10 digits up to ");
    told::say(system, most);
    told::say(system, b", not ");
    told::say(system, got);
    told::say(system, b"\n");
}

// The number that some digits say, by its name; they stand in a word, which is told.
pub fn read(system: System, digits: &[u8], name: &[u8], word: &[u8]) -> Option<u32> {
    let n = numbers::read(digits);
    if n.is_none() {
        wrong(system, name, b"4294967295", word);
    }
    n
}

// Word i of those that are not named.
pub fn plain(line: &[u8], i: usize) -> &[u8] {
    among(line, false, i)
}

// The number that it says, by its name.
pub fn number(system: System, line: &[u8], i: usize, name: &[u8]) -> Option<u32> {
    let w = plain(line, i);
    read(system, w, name, w)
}

// The same, where it may not be above 255 or some other most, which `digits` spells.
pub fn small_number(
    system: System,
    line: &[u8],
    i: usize,
    name: &[u8],
    most: u32,
    digits: &[u8],
) -> Option<u32>
    ensures { IfSome result (λ v. v ≤ most) }
{
    let n = numbers::read(plain(line, i)).filter(|v| *v <= most);
    if n.is_none() {
        wrong(system, name, digits, plain(line, i));
    }
    n
}

// LTE's own factors for a size, and none where it has no row: the test of the set says so then.
fn standard(n: u32) -> Factors {
    lte::factors(n).unwrap_or(sets::NO_FACTORS)
}

// f1 and f2 that are named, together; or, where neither is, LTE's own for the size.
fn pair(system: System, line: &[u8], n: u32) -> Option<Factors> {
    if !names::has(line, b"f1") && !names::has(line, b"f2") {
        return Some(standard(n));
    }
    if !names::has(line, b"f1") || !names::has(line, b"f2") {
        told::alone(system, b"f1", b"f2");
        return None;
    }
    Some(Factors {
        first: names::number(system, line, b"f1", 0)?,
        second: names::number(system, line, b"f2", 0)?,
        third: 0,
        fourth: 0,
    })
}

// P0 to P3 where none is named: those that profile 9 has for N 24, and none for a profile that does not read them.
fn own_four(system: System, set: Set) -> Option<Factors> {
    if !sets::is_coupled(set) {
        return Some(sets::NO_FACTORS);
    }
    if set.n != 24 {
        told::needs_four(system);
        return None;
    }
    Some(OF_24)
}

// How many of P0 to P3 are named.
fn named_of_four(line: &[u8]) -> usize {
    let names: [&[u8]; 4] = [b"p0", b"p1", b"p2", b"p3"];
    names.iter().filter(|name| names::has(line, name)).count()
}

fn named_four(system: System, line: &[u8]) -> Option<Factors> {
    Some(Factors {
        first: names::number(system, line, b"p0", 0)?,
        second: names::number(system, line, b"p1", 0)?,
        third: names::number(system, line, b"p2", 0)?,
        fourth: names::number(system, line, b"p3", 0)?,
    })
}

// P0 to P3 that are named, all four; or, where none is, those that are known.
fn four(system: System, line: &[u8], set: Set) -> Option<Factors> {
    match named_of_four(line) {
        0 => own_four(system, set),
        4 => named_four(system, line),
        _ => {
            told::some_of_four(system);
            None
        }
    }
}

// A set that has f1 and f2, and P0 to P3 in their place where its profile reads those.
fn with_four(system: System, line: &[u8], set: Set) -> Option<Set> {
    let factors = four(system, line, set)?;
    if !sets::is_coupled(set) {
        return Some(set);
    }
    Some(Set { factors, ..set })
}

// PROFILE, which is word 1, BITS, N and the numbers that have names.
pub fn set(system: System, line: &[u8]) -> Option<Set> {
    let w = word(line, 1);
    let profile = read(system, w, b"PROFILE", w)?;
    let bits = number(system, line, 2, b"BITS")?;
    let n = number(system, line, 3, b"N")?;
    if !names::all_known(system, line) {
        return None;
    }
    let stream = names::number(system, line, b"stream", 1)?;
    let factors = pair(system, line, n)?;
    with_four(
        system,
        line,
        Set {
            profile,
            bits,
            n,
            stream,
            factors,
        },
    )
}

// AT, which is word i, and LENGTH, which is word k.
pub fn burst_of(system: System, line: &[u8], i: usize, k: usize) -> Option<Burst> {
    let at = number(system, line, i, b"AT")?;
    let length = small_number(system, line, k, b"LENGTH", bursts::LONGEST, b"1024")?;
    if length == 0 {
        told::expected(system, b"LENGTH from 1 to 1024, the bytes of a burst");
        return None;
    }
    Some(Burst { at, length })
}
