// The words of a line: what stands between bytes up to the space. And a line with more put after it.
#![tactic(auto)]

ghost use Rattle.std.specs.Prelude.{◌≡◌, ◌≤◌, length, take, drop, position};
ghost use Rattle.std.specs.Bool.{beq};
ghost use Rattle.lines.specs.Words.{of_word, ends, word_of};
ghost use Rattle.lines.specs.Appended.{Appended};

// A line has to be shorter.
pub const ROOM: usize = 512;

fn of_word(b: u8) -> bool
    ensures { result ≡ of_word b }
{
    b > b' '
}

// Where the first byte stands that is a word's, or that is none.
fn first_of(line: &[u8], words: bool) -> Option<usize>
    ensures { result ≡ position (λ b. beq (of_word b) words) line.now }
{
    line.iter().position(|b| of_word(*b) == words)
}

// How many bytes at the start are a word's, or are none.
fn run(line: &[u8], words: bool) -> usize
    ensures value { result ≡ ends words line.now }
    ensures upper_bound { result ≤ length line.now }
{
    first_of(line, !words).unwrap_or(line.len())
}

// What stands behind them.
fn behind(line: &[u8], words: bool) -> &[u8]
    ensures { result.now ≡ drop (ends words line.now) line.now }
{
    &line[run(line, words)..]
}

// Word i of a line, counted from 0: empty where the line has fewer.
pub fn word(line: &[u8], i: usize) -> &[u8]
    ensures { result.now ≡ word_of i line.now }
{
    let mut rest = line;
    for _ in 0..i {
        rest = behind(behind(rest, false), true);
    }
    rest = behind(rest, false);
    &rest[..run(rest, true)]
}

// Puts s after the first `from` bytes of a line, as far as there is room, and answers where it ends. (Room and `from` are two, and no struct with a length
// in its range: any `from` may be given.)
pub fn append(room: &mut [u8; ROOM], from: usize, s: &[u8]) -> usize
    ensures { Appended room.old from s.now room.new result }
{
    let at = from.min(ROOM);
    let n = s.len().min(ROOM - at);
    room[at..at + n].copy_from_slice(&s[..n]);
    at + n
}

// The first n of some values, or all where there are fewer.
pub fn first<T>(s: &[T], n: usize) -> &[T]
    ensures { result.now ≡ take n s.now }
{
    &s[..n.min(s.len())]
}
