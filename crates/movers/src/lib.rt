// The loops that move entries of any kind by a table of addresses, either way: bytes, f32 soft values. An entry is copied and never looked at: zero, minus
// zero and not-a-number are values like any other. Nothing is tested here: whoever calls has filled the table and judged the lengths.
#![tactic(auto)]

ghost use Rattle.std.specs.Prelude.{◌≡◌, length};
ghost use Rattle.laws.specs.declared.Way.TheVariants.{Interleaver, Deinterleaver};
ghost use Rattle.laws.specs.Loop.{by};
ghost use Rattle.movers.specs.Moves.{Fitting, moved_by};

// dst[t] = src[table[t]].
pub fn gather_by<T: Copy>(table: &[u16], src: &[T], dst: &mut [T])
    requires { Fitting table.now src.now dst.old }
    ensures { (z : T) → dst.new
        ≡ moved_by Interleaver (by table.now) (length src.now) z src.now dst.old }
{
    for (i, to) in dst.iter_mut().enumerate() {
        let from = usize::from(table[i]);
        *to = src[from];
    }
}

// dst[table[t]] = src[t].
pub fn scatter_by<T: Copy>(table: &[u16], src: &[T], dst: &mut [T])
    requires { Fitting table.now src.now dst.old }
    ensures { (z : T) → dst.new
        ≡ moved_by Deinterleaver (by table.now) (length src.now) z src.now dst.old }
{
    for (i, entry) in src.iter().enumerate() {
        let to = usize::from(table[i]);
        dst[to] = *entry;
    }
}
