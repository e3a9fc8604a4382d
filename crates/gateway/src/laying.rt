// A store laid out from lists of kinds, directions and fill bytes: its length, and its bytes.
ghost use Rattle.std.specs.Prelude.{◌≡◌};
ghost use Rattle.laws.specs.Outcome.{say};
ghost use Rattle.gateway.specs.Answers.{length_of, laid_of, laid_store};

use gateway_form::MACHINES;
use gateway_laying::Length;
use streams::Said;

// The length of the store of given kinds. Refusal 9 for a wrong number of them, or a wrong kind.
pub fn length_of(kinds: &[u32]) -> Length
    ensures { say result ≡ length_of kinds.now }
{
    let machines = kinds.len();
    if machines < 1 {
        return Err(9);
    }
    if machines > MACHINES {
        return Err(9);
    }
    gateway_laying::measure(kinds)
}

// Lays a store out, every branch and place 0 and every share full of its fill byte. Refusals 9 for a wrong number of machines, unequal lists, a wrong kind or
// direction, then 7.
pub fn lay_out(kinds: &[u32], directions: &[u32], fills: &[u8], store: &mut [u8]) -> Said
    ensures answer { say result
        ≡ laid_of kinds.now directions.now fills.now store.old }
    ensures store { store.new
        ≡ laid_store kinds.now directions.now fills.now store.old }
{
    let machines = kinds.len();
    if machines < 1 {
        return Err(9);
    }
    if machines > MACHINES {
        return Err(9);
    }
    if directions.len() != machines {
        return Err(9);
    }
    if fills.len() != machines {
        return Err(9);
    }
    let bytes = gateway_laying::measure(kinds)?;
    if !gateway_laying::all_directed(directions) {
        return Err(9);
    }
    if store.len() != bytes as usize {
        return Err(7);
    }
    gateway_laying::put_all(store, kinds, directions, fills);
    Ok(())
}
