// Words that have a name and a value, as `stream=2`: whether a word is one, its parts, and the words of a line that are, or that are not.
#![tactic(auto)]

ghost use Rattle.std.specs.Prelude.{◌≡◌, ◌==◌, ◌||◌, position};
ghost use Rattle.named.specs.Named.{is_named, name_of, value_of, words_of, picked};

use lines::word;

// Where the first `=` or `/` of a word stands.
fn mark(w: &[u8]) -> Option<usize>
    ensures { result ≡ position (λ b. b == 61 || b == 47) w.now }
{
    w.iter().position(|b| *b == b'=' || *b == b'/')
}

// Whether a word is a named one, as `stream=2`: it holds a `=`, and no `/` before it.
#[tactic(auto, using(crate::specs::Named::named_at, crate::specs::Named::named_none))]
pub fn is_named(w: &[u8]) -> bool
    ensures { result ≡ is_named w.now }
{
    match mark(w) {
        Some(e) => w[e] == b'=',
        None => false,
    }
}

// The name of a named word.
#[tactic(auto, using(crate::specs::Named::name_at, crate::specs::Named::name_none))]
pub fn name(w: &[u8]) -> &[u8]
    ensures { result.now ≡ name_of w.now }
{
    match mark(w) {
        Some(e) => &w[..e],
        None => w,
    }
}

// The value of a named word.
#[tactic(auto, using(crate::specs::Named::value_at, crate::specs::Named::value_none))]
pub fn value(w: &[u8]) -> &[u8]
    ensures { result.now ≡ value_of w.now }
{
    match mark(w) {
        Some(e) => &w[e + 1..],
        None => &[],
    }
}

// Word i, counted from 0, of those that are named, or of those that are not: empty where there are fewer.
pub fn among(line: &[u8], named: bool, i: usize) -> &[u8]
    ensures { result.now ≡ picked named i (words_of line.now) }
{
    let mut left = i;
    for j in 0..line.len() {
        let w = word(line, j);
        if w.is_empty() {
            return w;
        }
        if is_named(w) == named {
            if left == 0 {
                return w;
            }
            left -= 1;
        }
    }
    &[]
}
