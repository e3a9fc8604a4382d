// The entry of a vessel stored: its numbers one behind the other, big end first.
ghost use Rattle.std.specs.Prelude.{◌≡◌, ◌+◌, ◌≤◌, length};
ghost use Rattle.std.proofs.lemmas.List.Edits.{sets};
ghost use Rattle.gateway_form.specs.Form.{stand_bytes, entry_bytes};

use kinds::Stream;
use kinds::sizes::Sizes;

// A record's branch and places.
pub fn put_stand(store: &mut [u8], at: usize, s: Stream)
    requires { at + 208 ≤ length store.old }
    ensures { store.new ≡ sets store.old at (stand_bytes s) }
{
    big_end::put_number(store, at, s.branch);
    let places = s.places;
    let mut next = at + 4;
    for place in places {
        big_end::put_number(store, next, place);
        next += 4;
    }
}

// A whole entry.
pub fn put_entry(store: &mut [u8], at: usize, direction: u32, offset: u32, s: Stream)
    requires { at + 224 ≤ length store.old }
    ensures { store.new ≡ sets store.old at (entry_bytes direction offset s) }
{
    big_end::put_number(store, at, s.kind);
    big_end::put_number(store, at + 4, direction);
    big_end::put_number(store, at + 8, offset);
    big_end::put_number(store, at + 12, Sizes::of(s.kind).store as u32);
    put_stand(store, at + 16, s);
}
