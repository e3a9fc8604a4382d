// The named words of a command, as `stream=2`: numbers beside PROFILE, BITS and N. A further name is one more in `is_known`, and in what `told` says
// of names; the set asks for its number.
ghost use Rattle.std.specs.Prelude.{◌<◌, length, IfSome};

use super::asked;
use named::{among, name, value};
use system::System;

fn is_known(word: &[u8]) -> bool {
    matches!(
        name(word),
        b"stream" | b"f1" | b"f2" | b"p0" | b"p1" | b"p2" | b"p3"
    )
}

// Whether the named words of a line all have names that are known. The first that has not is told.
pub fn all_known(system: System, line: &[u8]) -> bool {
    for i in 0..line.len() {
        let w = among(line, true, i);
        if w.is_empty() {
            return true;
        }
        if !is_known(w) {
            told::unknown(system, w);
            return false;
        }
    }
    true
}

// The first named word of a name, from the one on that is counted `from`.
fn find(line: &[u8], of: &[u8], from: usize) -> Option<usize>
    ensures { IfSome result (λ i. i < length line.now) }
{
    for i in from..line.len() {
        let w = among(line, true, i);
        if name(w) == of {
            return Some(i);
        }
        if w.is_empty() {
            return None;
        }
    }
    None
}

// Whether some word has a name.
pub fn has(line: &[u8], of: &[u8]) -> bool {
    find(line, of, 0).is_some()
}

// The number of a name, or `otherwise` where no word has it. A second word of the name is told.
pub fn number(system: System, line: &[u8], of: &[u8], otherwise: u32) -> Option<u32> {
    let Some(i) = find(line, of, 0) else {
        return Some(otherwise);
    };
    if find(line, of, i + 1).is_some() {
        told::twice(system, of);
        return None;
    }
    let w = among(line, true, i);
    asked::read(system, value(w), of, w)
}
