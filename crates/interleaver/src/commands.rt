// The commands by name, and whether a line has the words that its command takes.
use kinds::Stream;
use lines::word;
use named::among;
use told::Command;

// The command of a name. No word at all asks for help.
pub fn named(w: &[u8]) -> Command {
    match w {
        b"" | b"help" | b"--help" | b"-h" => Command::Help,
        b"test" => Command::Test,
        b"profiles" => Command::Profiles,
        b"list" => Command::List,
        b"back" => Command::Back,
        b"at" => Command::At,
        b"to" => Command::To,
        b"walk" => Command::Walk,
        b"picture" => Command::Picture,
        b"factors" => Command::Factors,
        b"lines" => Command::Lines,
        _ => moving(w),
    }
}

fn moving(w: &[u8]) -> Command {
    match w {
        b"interleave" => Command::Interleave,
        b"deinterleave" => Command::Deinterleave,
        b"dvb" => Command::Stream(Stream::DVB),
        b"atsc" => Command::Stream(Stream::ATSC),
        b"combine" => Command::Combine,
        b"padding" => Command::Padding,
        b"judge" => Command::Judge,
        b"differ" => Command::Differ,
        b"plans" => Command::Plans,
        _ => Command::Unknown,
    }
}

// The command of a line: its first word's, but for bursts.
pub fn command_of(line: &[u8]) -> Command {
    let c = named(word(line, 0));
    match c {
        Command::Stream(kind) => stream_of(line, kind),
        Command::Picture => picture_of(line),
        _ => c,
    }
}

// A burst in the channel of a kind, or its filters.
fn stream_of(line: &[u8], kind: u32) -> Command {
    match word(line, 1) {
        b"burst" => Command::Burst(kind),
        _ => Command::Stream(kind),
    }
}

// The picture of a burst where the second word is a kind, or of a set.
fn picture_of(line: &[u8]) -> Command {
    match named(word(line, 1)) {
        Command::Stream(kind) => Command::BurstPicture(kind),
        _ => Command::Picture,
    }
}

// Whether a line has just n words that are not named.
fn has(line: &[u8], n: usize) -> bool {
    among(line, false, n).is_empty()
        && (n == 0 || !among(line, false, n.saturating_sub(1)).is_empty())
}

// The same, where no word may be named.
fn has_only(line: &[u8], n: usize) -> bool {
    has(line, n) && among(line, true, 0).is_empty()
}

// Whether a line has the words that its command takes. What its named words say is asked for later.
pub fn in_form(c: Command, line: &[u8]) -> bool {
    match c {
        Command::Help => has_only(line, 0) || has_only(line, 1),
        Command::Profiles | Command::Lines | Command::Padding => has_only(line, 1),
        Command::Factors | Command::Judge => has_only(line, 2),
        Command::Stream(_) | Command::Differ => has_only(line, 3),
        Command::Burst(_) => has_only(line, 4),
        Command::BurstPicture(_) => {
            matches!(word(line, 2), b"burst") && (has_only(line, 3) || has_only(line, 5))
        }
        Command::At | Command::To => has(line, 5),
        Command::Walk => has(line, 6),
        Command::Interleave | Command::Deinterleave => has(line, 4) || has(line, 5),
        Command::Unknown => false,
        _ => has(line, 4),
    }
}
