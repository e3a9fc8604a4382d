// A shore gateway: up to eight byte machines in one lent store, a header and then the machines' shares. Every call tests the whole store's form first. Vessels are
// counted from 0; the header is of numbers of 4 bytes, big end first, and directions are 1 for interleaving and 2 for the other.
#![tactic(auto)]

pub mod laying; // laying.rt: a store laid out

ghost use Rattle.std.specs.Prelude.{◌≡◌, true, ◌<◌, length};
ghost use Rattle.laws.specs.Outcome.{say};
ghost use Rattle.gateway_form.specs.Form.{machines_in, formed};
ghost use Rattle.gateway.specs.Answers.{formed_of, placed_of, share_of, feed, says, store_after, output_after, turned, passed};

use gateway_form::ENTRY;
use streams::Said;

// Where a vessel's share stands in the store: where it begins, and how many bytes it has.
#[derive(Clone, Copy)]
pub struct Stretch {
    pub offset: u32,
    pub long: u32,
}

// Tests the form of a store. Refusal 9.
pub fn form(store: &[u8]) -> Said
    ensures { say result ≡ formed_of store.now }
{
    if !gateway_form::well_formed(store) {
        return Err(9);
    }
    Ok(())
}

// Where a vessel's share stands. Refusals 9, 4.
pub fn place_of(store: &[u8], vessel: u32) -> Result<Stretch, u32>
    ensures { say result ≡ placed_of store.now vessel }
{
    if !gateway_form::well_formed(store) {
        return Err(9);
    }
    let v = vessel as usize;
    if v >= gateway_form::machines_in(store) {
        return Err(4);
    }
    let entry = gateway_form::entry_at(store, 4 + ENTRY * v);
    let offset = gateway_form::offset_of(entry) as u32;
    let long = gateway_form::length_of(entry) as u32;
    Ok(Stretch { offset, long })
}

// A vessel's share: that part of the store, and where `place_of` gives a number an empty one.
pub fn share(store: &[u8], vessel: u32) -> &[u8]
    ensures { result.now ≡ share_of store.now vessel }
{
    match place_of(store, vessel) {
        Err(_) => &store[0..0],
        Ok(place) => {
            let from = place.offset as usize;
            let end = from + place.long as usize;
            &store[from..end]
        }
    }
}

// Turns the machine of a vessel that the store has: its share by its input, and then its entry.
fn turn(store: &mut [u8], v: usize, input: &[u8], out: &mut [u8])
    requires { (formed store.old ≡ true) × (v < machines_in store.old) × (length out.old ≡ length input.now) }
    ensures store { store.new ≡ turned (feed store.old v input.now out.old) }
    ensures output { out.new ≡ passed (feed store.old v input.now out.old) }
{
    let at = 4 + ENTRY * v;
    let entry = gateway_form::entry_at(store, at);
    let way = gateway_form::way_of(entry);
    let s = gateway_form::record_of(entry);
    let from = gateway_form::offset_of(entry);
    let end = from + gateway_form::length_of(entry);
    let a = streams::feed(way, s, &mut store[from..end], input, out);
    gateway_form::entries::put_stand(store, at + 16, a.stream);
}

// Feeds the machine of a vessel. Refusals 9, 4, 6.
pub fn feed(store: &mut [u8], vessel: u32, input: &[u8], out: &mut [u8]) -> Said
    ensures answer { say result ≡ says (feed store.old vessel input.now out.old) }
    ensures store { store.new ≡ store_after (feed store.old vessel input.now out.old) }
    ensures output { out.new
        ≡ output_after (feed store.old vessel input.now out.old) }
{
    if !gateway_form::well_formed(store) {
        return Err(9);
    }
    let v = vessel as usize;
    if v >= gateway_form::machines_in(store) {
        return Err(4);
    }
    if out.len() != input.len() {
        return Err(6);
    }
    turn(store, v, input, out);
    Ok(())
}
