// What each profile admits, as a table. The sizes are those that the test of a set lets past 3, each size up to the longest list being tried, and the
// streams those that it goes by, so the table cannot say anything else than the library does.
use super::{say, say_number};
use sets::Set;
use system::System;

// Sizes that follow each other by one step.
#[derive(Clone, Copy)]
struct Row {
    first: u32,
    last: u32,
    step: u32,
    count: u32,
}

// The number of the refusal of a set, if it is refused.
fn refusal(profile: u32, bits: u32, n: u32) -> Option<u32> {
    let set = Set {
        profile,
        bits,
        n,
        stream: 1,
        factors: sets::NO_FACTORS,
    };
    sets::test(set).err().map(|x| x.number)
}

// Whether N is listed: 1, 2 and 3 are not said. (With zeros for factors, 11 is said of a size of LTE, 10 of one of couples, and no other number.)
fn is_listed(profile: u32, bits: u32, n: u32) -> bool {
    !matches!(refusal(profile, bits, n), Some(1..=3))
}

impl Row {
    fn none() -> Self {
        Row {
            first: 0,
            last: 0,
            step: 0,
            count: 0,
        }
    }

    // Three sizes or more by their step, fewer one by one.
    fn show(self, system: System) {
        say_number(system, b"", self.first as u64);
        if self.count > 2 {
            say_number(system, b" to ", self.last as u64);
            if self.step > 1 {
                say_number(system, b" by ", self.step as u64);
            }
            return;
        }
        if self.count > 1 {
            say_number(system, b", ", self.last as u64);
        }
    }

    // The row with one more size; where that does not follow by the step, the row is shown and another begins. Above two, it does not matter how
    // many they are.
    fn with(self, system: System, n: u32) -> Self {
        let step = if n > self.last { n - self.last } else { 0 };
        if self.count == 1 || (self.count > 1 && step == self.step) {
            return Row {
                first: self.first,
                last: n,
                step,
                count: if self.count < 2 { 2 } else { 3 },
            };
        }
        if self.count > 0 {
            self.show(system);
            say(system, b", ");
        }
        Row {
            first: n,
            last: n,
            step: 0,
            count: 1,
        }
    }
}

fn sizes(system: System, profile: u32, bits: u32) {
    let mut row = Row::none();
    for n in 1..=6144 {
        if is_listed(profile, bits, n) {
            row = row.with(system, n);
        }
    }
    row.show(system);
}

// What stands behind the sizes: the factors, where the profile reads any. Zeros are refused with 11 by LTE, and with 10 by couples.
fn factors(system: System, profile: u32, bits: u32) {
    match refusal(profile, bits, 40) {
        Some(11) => say(
            system,
            b"; with f1 and f2 from 1 to N - 1 that give no two positions one address\n",
        ),
        Some(10) => say(
            system,
            b"; with P0 to P3 from 0 to N - 1 that give no two outputs one couple; N couples are 2N symbols\n",
        ),
        _ => say(system, b"\n"),
    }
}

// The column of the streams.
fn streams(system: System, last: u32) {
    if last > 1 {
        say_number(system, b"1 to ", last as u64);
        say(system, b"   ");
        return;
    }
    say(system, b"1        ");
}

// The columns before the sizes: the profile's number and name stand in its first line alone.
fn front(system: System, profile: u32, bits: u32, first: bool) {
    if first {
        name(system, profile);
    } else {
        say(system, b"                                      ");
    }
    say_number(system, b"", bits as u64);
    say(system, b"     ");
    let numbers = sets::numbers_of(Set {
        profile,
        bits,
        n: 0,
        stream: 1,
        factors: sets::NO_FACTORS,
    });
    streams(system, numbers.streams);
}

fn name(system: System, profile: u32) {
    say_number(system, b"", profile as u64);
    match profile {
        1 => say(system, b"        IEEE 802.16 OFDM             "),
        2 => say(system, b"        IEEE 802.16 OFDMA            "),
        3 => say(system, b"        IEEE 802.11a                 "),
        4 => say(system, b"        bench                        "),
        5 => say(system, b"        WCDMA turbo, 3GPP TS 25.212  "),
        6 => say(system, b"        IEEE 802.11n, 20 MHz         "),
        7 => say(system, b"        IEEE 802.11n, 40 MHz         "),
        8 => say(system, b"        LTE turbo, 3GPP TS 36.212    "),
        9 => say(system, b"        IEEE 802.16 turbo couples    "),
        _ => say(system, b"                                     "),
    }
}

// The lines of a profile.
fn profile(system: System, p: u32) {
    let mut first = true;
    for bits in 1..=8 {
        if matches!(refusal(p, bits, 0), Some(k) if k > 2) {
            front(system, p, bits, first);
            sizes(system, p, bits);
            factors(system, p, bits);
            first = false;
        }
    }
}

// `profiles`.
pub fn table(system: System) {
    say(
        system,
        b"profile  standard                     bits  streams  N\n",
    );
    for p in 1..=10 {
        if matches!(refusal(p, 0, 0), Some(k) if k > 1) {
            profile(system, p);
        }
    }
}
