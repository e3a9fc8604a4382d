// A gateway's store laid out from lists of kinds, directions and fill bytes. Inner functions: whoever calls them has counted the machines.
#![tactic(auto)]

ghost use Rattle.std.specs.Prelude.{◌≡◌, ◌≤◌, [], ◌∷◌, length, ℕ};
ghost use Rattle.std.proofs.lemmas.List.Edits.{sets};
ghost use Rattle.laws.specs.Members.{chained, every};
ghost use Rattle.laws.specs.Outcome.{say, judged};
ghost use Rattle.gateway_form.specs.Form.{directed, entry_place};
ghost use Rattle.gateway_laying.specs.Laid.{store_length, laid_entry, laid_share, vessels, laid_out, kind_line};
ghost use Rattle.gateway_laying.specs.Answer.{Lists};

use gateway_form::entries::put_entry;
use gateway_form::{ENTRY, is_direction};
use kinds::Stream;
use kinds::sizes::Sizes;

// How many bytes a store has, or the number of why there is none.
pub type Length = Result<u32, u32>;

// Tests kinds in their order, and adds up the length of their store.
pub fn measure(kinds: &[u32]) -> Length
    requires { length kinds.now ≤ 8 }
    ensures { say result ≡ judged (λ (n : ℕ). n) (kind_line kinds.now ∷ []) (store_length kinds.now) }
{
    let mut bytes = 4 + ENTRY * kinds.len();
    for &kind in kinds {
        if !Sizes::known(kind) {
            return Err(9);
        }
        bytes += Sizes::of(kind).store;
    }
    let long = bytes as u32;
    Ok(long)
}

// Whether every direction is 1 or 2.
pub fn all_directed(directions: &[u32]) -> bool
    ensures { result ≡ every directed directions.now }
{
    for &direction in directions {
        if !is_direction(direction) {
            return false;
        }
    }
    true
}

// The entries, whose shares follow the header and each other.
fn put_entries(store: &mut [u8], kinds: &[u32], directions: &[u32])
    requires { Lists kinds.now (length directions.now) (length store.old) }
    ensures { store.new
        ≡ sets store.old 4 (chained (laid_entry kinds.now directions.now) (vessels kinds.now)) }
{
    let mut share = 4 + ENTRY * kinds.len();
    let mut at = 4;
    for (i, &kind) in kinds.iter().enumerate() {
        put_entry(store, at, directions[i], share as u32, Stream::new(kind));
        share += Sizes::of(kind).store;
        at += ENTRY;
    }
}

// The shares, each a machine that is just started.
fn put_shares(store: &mut [u8], kinds: &[u32], fills: &[u8])
    requires { Lists kinds.now (length fills.now) (length store.old) }
    ensures { store.new
        ≡ sets store.old (entry_place (length kinds.now))
        (chained (laid_share kinds.now fills.now) (vessels kinds.now)) }
{
    let mut at = 4 + ENTRY * kinds.len();
    for (i, &kind) in kinds.iter().enumerate() {
        let end = at + Sizes::of(kind).store;
        streams::start(kind, &mut store[at..end], fills[i]);
        at = end;
    }
}

// The store of good lists, in a buffer of its length.
pub fn put_all(store: &mut [u8], kinds: &[u32], directions: &[u32], fills: &[u8])
    requires { Lists kinds.now (length directions.now) (length store.old)
        × Lists kinds.now (length fills.now) (length store.old) }
    ensures { store.new ≡ laid_out kinds.now directions.now fills.now }
{
    big_end::put_number(store, 0, kinds.len() as u32);
    put_entries(store, kinds, directions);
    put_shares(store, kinds, fills);
}
