// What the padding report is asked for, request 11: two lines, the first K and the last. Over the bytes alone; where they come from is the program's.
#![tactic(auto)]

ghost use Rattle.std.specs.Prelude.{◌≡◌, ◌==◌, position};
ghost use Rattle.laws.specs.Outcome.{say};
ghost use Rattle.report_asked.specs.Lines.{line_of, number_in, begins};
ghost use Rattle.report_asked.specs.Asked.{asked_by, asked_last, settled_by};

// A first K and a last.
#[derive(Clone, Copy)]
pub struct Range {
    pub first: u32,
    pub last: u32,
}

// Where the first line ends in LF, if it does.
fn line_feed(s: &[u8]) -> Option<usize>
    ensures { result ≡ position (λ b. b == 10) s.now }
{
    s.iter().position(|b| *b == b'\n')
}

// The first line, without its LF.
fn line(s: &[u8]) -> &[u8]
    ensures { result.now ≡ line_of s.now }
{
    let e = line_feed(s).unwrap_or(s.len());
    &s[..e]
}

// The number that a line says: one to four digits.
#[tactic(auto, using(std::proofs::lemmas::Bool::Decides::nat_tests), unfolding(crate::specs::Lines::number_in))]
fn number_in(s: &[u8]) -> Option<u32>
    ensures { result ≡ number_in s.now }
{
    if s.len() > 4 {
        return None;
    }
    numbers::read(s)
}

// Whether a line may begin so: with no byte, or with one to four digits.
#[tactic(auto, using(std::proofs::lemmas::Bool::Decides::nat_tests), unfolding(crate::specs::Lines::begins))]
fn can_begin(s: &[u8]) -> bool
    ensures { result ≡ begins s.now }
{
    s.is_empty() || number_in(s).is_some()
}

// What is asked for, where the first K is known and the last is in the second line.
#[tactic(auto, using(crate::specs::Answers::last_none, crate::specs::Answers::last_out, crate::specs::Answers::last_in))]
fn asked_last(first: u32, s: &[u8]) -> Result<Range, u32>
    ensures { say result ≡ asked_last first s.now }
{
    match number_in(line(s)) {
        Some(last) if wcdma_report::is_range(first, last) => Ok(Range { first, last }),
        _ => Err(3),
    }
}

// What two lines ask for. Refusal 3, where a line is missing or isn't one to four digits, or 40 ≤ first ≤ last ≤ 5,114 doesn't hold. The first line ends in LF;
// the second may end with the bytes instead, and what stands behind it isn't looked at.
#[tactic(auto, using(crate::specs::Answers::read_unended, crate::specs::Answers::read_none, crate::specs::Answers::read_first))]
pub fn read(s: &[u8]) -> Result<Range, u32>
    ensures { say result ≡ asked_by s.now }
{
    let Some(e) = line_feed(s) else {
        return Err(3);
    };
    let Some(first) = number_in(&s[..e]) else {
        return Err(3);
    };
    asked_last(first, &s[e + 1..])
}

// Whether the bytes so far settle what is asked for, whatever follows them: the first line has begun as no line may, or has ended and says no size, or the
// second has begun as no line may. (A line that has ended holds an LF, and begins so too.)
#[tactic(auto, using(crate::specs::Answers::settled_unended, crate::specs::Answers::settled_none, crate::specs::Answers::settled_out, crate::specs::Answers::settled_in))]
pub fn settled(s: &[u8]) -> bool
    ensures { result ≡ settled_by s.now }
{
    let Some(e) = line_feed(s) else {
        return !can_begin(s);
    };
    match number_in(&s[..e]) {
        Some(first) if wcdma_report::is_size(first) => !can_begin(&s[e + 1..]),
        _ => true,
    }
}
