// Repeated receptions added up, by a table of addresses: two lengths asked as one, the loop that judges a received block against what is stored, and the
// loop that adds it. Whoever calls the loops has filled the table and judged the lengths. No value decides where anything goes. What is received and what
// is stored come as the slices that C lends: a struct of two `&mut` slices would ask two clauses more of each function, that it still lends the same ones.
#![tactic(auto)]

ghost use Rattle.std.specs.Prelude.{◌≡◌, length};
ghost use Rattle.laws.specs.Loop.{by};
ghost use Rattle.laws.specs.Outcome.{first};
ghost use Rattle.positions.specs.Heard.{reception, kept};
ghost use Rattle.adders.specs.Lengths.{one_off};
ghost use Rattle.adders.specs.Lines.{value_lines, ruled, first_of};
ghost use Rattle.adders.specs.Adding.{Fitting, Ready, sums_by, counts_by};

// Of two lengths, one that isn't n, if there is one.
pub fn off(n: usize, a: usize, b: usize) -> usize
    ensures { result ≡ one_off n a b }
{
    if a != n {
        return a;
    }
    b
}

// What judging says: the first of 14, 13, 15 that applies, if one does.
pub type Judgement = Result<(), u32>;

// The first of the three, of those that apply.
fn first_of(high: bool, spoiled: bool, full: bool) -> Judgement
    ensures { result ≡ ruled (first (first_of high spoiled full)) }
{
    if high {
        return Err(14);
    }
    if spoiled {
        return Err(13);
    }
    if full {
        return Err(15);
    }
    Ok(())
}

// Judges a block against what is stored: 14, 13, 15, each over the whole block before the next.
pub fn judge_by(
    table: &[u16],
    received: &[f32],
    present: &[u8],
    sums: &[f32],
    counts: &[u16],
) -> Judgement
    requires { Fitting table.now (reception received.now present.now) (kept sums.now counts.now) }
    ensures { result ≡ ruled (first (value_lines (by table.now) (length received.now)
        (reception received.now present.now) (kept sums.now counts.now))) }
{
    let mut high = false;
    let mut spoiled = false;
    let mut full = false;
    for (t, v) in received.iter().enumerate() {
        let a = usize::from(table[t]);
        let p = present[t];
        let count = counts[a];
        high |= p > 1;
        spoiled |= positions::is_spoiled(p, *v, sums[a], count);
        full |= positions::is_full(p, count);
    }
    first_of(high, spoiled, full)
}

// Adds a block to what is stored: value t at position table[t].
pub fn add_by(table: &[u16], received: &[f32], present: &[u8], sums: &mut [f32], counts: &mut [u16])
    requires { Ready table.now (reception received.now present.now) (kept sums.old counts.old) }
    ensures sums_after { sums.new ≡ sums_by (by table.now) (length received.now)
        (reception received.now present.now) (kept sums.old counts.old) }
    ensures counts_after { counts.new ≡ counts_by (by table.now) (length received.now)
        (reception received.now present.now) (kept sums.old counts.old) }
{
    for (t, v) in received.iter().enumerate() {
        let a = usize::from(table[t]);
        positions::hear(present[t], *v, a, sums, counts);
    }
}
