// The gateway on what C lends: one number is the answer, and what else a call says goes through out-parameters, which a refused call leaves as they are.
#![tactic(auto)]

ghost use Rattle.std.specs.Prelude.{◌≡◌, ℕ};
ghost use Rattle.laws.specs.Outcome.{say};
ghost use Rattle.gateway.specs.declared.Stretch.{Stretch};
ghost use Rattle.gateway.specs.Answers.{length_of, laid_of, laid_store, placed_of, feed, says, store_after, output_after};
ghost use Rattle.flat.specs.Flat.{stream_number_of, out_of};

use gateway::Stretch;
use gateway_laying::Length;
use streams::Said;

// The number of what a call says.
fn told(s: Said) -> u32
    ensures { result ≡ stream_number_of (say s) }
{
    match s {
        Ok(()) => 0,
        Err(k) => k,
    }
}

// Takes a store's length apart.
fn measured(l: Length, bytes: &mut u32) -> u32
    ensures number { result ≡ stream_number_of (say l) }
    ensures bytes { bytes.new ≡ out_of (say l) (λ (n : ℕ). n) bytes.old }
{
    match l {
        Ok(n) => {
            *bytes = n;
            0
        }
        Err(k) => k,
    }
}

// Takes a share's place apart.
fn placed(p: Result<Stretch, u32>, offset: &mut u32, length: &mut u32) -> u32
    ensures number { result ≡ stream_number_of (say p) }
    ensures offset { offset.new ≡ out_of (say p) (λ (s : Stretch). s.offset) offset.old }
    ensures length { length.new ≡ out_of (say p) (λ (s : Stretch). s.long) length.old }
{
    match p {
        Ok(place) => {
            *offset = place.offset;
            *length = place.long;
            0
        }
        Err(k) => k,
    }
}

// The length of the store of given kinds.
pub fn measure(kinds: &[u32], bytes: &mut u32) -> u32
    ensures number { result ≡ stream_number_of (length_of kinds.now) }
    ensures bytes { bytes.new ≡ out_of (length_of kinds.now) (λ (n : ℕ). n) bytes.old }
{
    measured(gateway::laying::length_of(kinds), bytes)
}

// Lays a store out.
pub fn lay_out(kinds: &[u32], directions: &[u32], fills: &[u8], store: &mut [u8]) -> u32
    ensures number { result
        ≡ stream_number_of (laid_of kinds.now directions.now fills.now store.old) }
    ensures store { store.new
        ≡ laid_store kinds.now directions.now fills.now store.old }
{
    told(gateway::laying::lay_out(kinds, directions, fills, store))
}

// Where a vessel's share stands.
pub fn place(store: &[u8], vessel: u32, offset: &mut u32, length: &mut u32) -> u32
    ensures number { result ≡ stream_number_of (placed_of store.now vessel) }
    ensures offset { offset.new
        ≡ out_of (placed_of store.now vessel) (λ (s : Stretch). s.offset) offset.old }
    ensures length { length.new
        ≡ out_of (placed_of store.now vessel) (λ (s : Stretch). s.long) length.old }
{
    placed(gateway::place_of(store, vessel), offset, length)
}

// Feeds the machine of a vessel.
pub fn turn(store: &mut [u8], vessel: u32, input: &[u8], out: &mut [u8]) -> u32
    ensures number { result ≡ stream_number_of (says (feed store.old vessel input.now out.old)) }
    ensures store { store.new ≡ store_after (feed store.old vessel input.now out.old) }
    ensures output { out.new
        ≡ output_after (feed store.old vessel input.now out.old) }
{
    told(gateway::feed(store, vessel, input, out))
}
