// The form of a gateway's store, and what its header says. Inner functions, but for the test of the form: whoever calls the others has tested that what they
// read is there. Vessels are counted from 0.
#![tactic(auto)]

pub mod entries; // entries.rt: an entry stored
pub mod limits; // limits.rt: the ranges of its places

ghost use Rattle.std.specs.Prelude.{◌≡◌, ◌+◌, ◌*◌, ◌<◌, ◌≤◌, length};
ghost use Rattle.laws.specs.Parts.{part};
ghost use Rattle.kinds.specs.Kinds.{sizes_of};
ghost use Rattle.gateway_form.specs.Form.{machines_in, entry_place, offset_of, length_of, record_of, way_of, directed, entry_fits, entries_fit, formed};
ghost use Rattle.gateway_form.specs.Limits.{Limits};

use kinds::Stream;
use kinds::sizes::Sizes;
use laws::Way;
use limits::{PLACES, bytes_below, limits_of};

// A store has at most so many machines, and an entry so many bytes.
pub const MACHINES: usize = 8;

pub const ENTRY: usize = 224;

// The directions.
pub const INTERLEAVING: u32 = 1;

pub const DEINTERLEAVING: u32 = 2;

// Whether a direction is 1 or 2.
pub fn is_direction(d: u32) -> bool
    ensures { result ≡ directed d }
{
    d == INTERLEAVING || d == DEINTERLEAVING
}

// How many machines the header says.
pub fn machines_in(store: &[u8]) -> usize
    requires { 4 ≤ length store.now }
    ensures { (result ≡ machines_in store.now) × (result < 4294967296) }
{
    big_end::number_at(store, 0) as usize
}

// The entry that begins at a place.
pub fn entry_at(store: &[u8], at: usize) -> &[u8]
    requires { at + 224 ≤ length store.now }
    ensures { result.now ≡ part at 224 store.now }
{
    let end = at + ENTRY;
    &store[at..end]
}

// Where an entry's share begins, and how many bytes it has.
pub fn offset_of(entry: &[u8]) -> usize
    requires { length entry.now ≡ 224 }
    ensures { (result ≡ offset_of entry.now) × (result < 4294967296) }
{
    big_end::number_at(entry, 8) as usize
}

pub fn length_of(entry: &[u8]) -> usize
    requires { length entry.now ≡ 224 }
    ensures { (result ≡ length_of entry.now) × (result < 4294967296) }
{
    big_end::number_at(entry, 12) as usize
}

// Which way an entry's machine runs.
pub fn way_of(entry: &[u8]) -> Way
    requires { length entry.now ≡ 224 }
    ensures { result ≡ way_of entry.now }
{
    if big_end::number_at(entry, 4) == INTERLEAVING {
        Way::Interleaver
    } else {
        Way::Deinterleaver
    }
}

// The record of an entry's machine.
pub fn record_of(entry: &[u8]) -> Stream
    requires { length entry.now ≡ 224 }
    ensures { result ≡ record_of entry.now }
{
    let mut places = [0u32; Stream::RINGS];
    let mut at = 20;
    for place in places.iter_mut() {
        *place = big_end::number_at(entry, at);
        at += 4;
    }
    Stream {
        kind: big_end::number_at(entry, 0),
        branch: big_end::number_at(entry, 16),
        places,
    }
}

// Whether an entry is of the form, wherever its share is to begin. Its numbers are compared as they are.
fn entry_fits(entry: &[u8], dvb: &[u8; PLACES], atsc: &[u8; PLACES]) -> bool
    requires { (length entry.now ≡ 224) × Limits (sizes_of 1) dvb.now × Limits (sizes_of 2) atsc.now }
    ensures { result ≡ entry_fits entry.now }
{
    let kind = big_end::number_at(entry, 0);
    if !Sizes::known(kind) {
        return false;
    }
    if !is_direction(big_end::number_at(entry, 4)) {
        return false;
    }
    let z = Sizes::of(kind);
    if length_of(entry) != z.store {
        return false;
    }
    if big_end::number_at(entry, 16) as usize >= z.branches {
        return false;
    }
    if kind == Stream::DVB {
        return bytes_below(&entry[20..], dvb);
    }
    bytes_below(&entry[20..], atsc)
}

// Whether each entry is of the form, and the shares follow the header and each other without gaps, to the store's end.
fn entries_fit(store: &[u8], machines: usize) -> bool
    requires { (machines ≤ 8) × (entry_place machines ≤ length store.now) }
    ensures { result ≡ entries_fit store.now machines 0 (entry_place machines) }
{
    let dvb = limits_of(Stream::DVB);
    let atsc = limits_of(Stream::ATSC);
    let mut share = 4 + ENTRY * machines;
    let mut at = 4;
    for _ in 0..machines {
        let entry = entry_at(store, at);
        if !entry_fits(entry, &dvb, &atsc) {
            return false;
        }
        if offset_of(entry) != share {
            return false;
        }
        share += length_of(entry);
        at += ENTRY;
    }
    share == store.len()
}

// Whether a store is of the form.
pub fn well_formed(store: &[u8]) -> bool
    ensures { result ≡ formed store.now }
{
    let len = store.len();
    if len < 4 {
        return false;
    }
    let machines = machines_in(store);
    if machines < 1 {
        return false;
    }
    if machines > MACHINES {
        return false;
    }
    if len < 4 + ENTRY * machines {
        return false;
    }
    entries_fit(store, machines)
}
