// What the program says of a command: help, and the one line that says what was expected.
#![tactic(auto)]

use kinds::Stream;
use system::{STDOUT_FILENO, System};

// What the first words ask for. A byte stream and a burst have a kind.
#[derive(Clone, Copy)]
pub enum Command {
    Help,
    Test,
    Profiles,
    List,
    Back,
    At,
    To,
    Walk,
    Picture,
    Factors,
    Lines,
    Interleave,
    Deinterleave,
    Stream(u32),
    Burst(u32),
    BurstPicture(u32),
    Combine,
    Padding,
    Judge,
    Differ,
    Plans,
    Unknown,
}

// Says s on standard error.
pub fn say(system: System, s: &[u8]) {
    let _ = system.tell(s);
}

// What was expected, in a line.
pub fn expected(system: System, what: &[u8]) {
    say(system, b"interleaver: expected ");
    say(system, what);
    say(system, b"\n");
}

// What names there are, where a word has another.
pub fn unknown(system: System, word: &[u8]) {
    say(
        system,
        b"interleaver: expected stream=I, f1=F, f2=G or p0=A to p3=D as a named word, not ",
    );
    say(system, word);
    say(system, b"\n");
}

// That of two names one stands alone.
pub fn alone(system: System, name: &[u8], other: &[u8]) {
    say(system, b"interleaver: expected ");
    say(system, name);
    say(system, b"= and ");
    say(system, other);
    say(system, b"= together\n");
}

// That of the four numbers of profile 9 some are missing.
pub fn some_of_four(system: System) {
    expected(system, b"p0=, p1=, p2= and p3= together");
}

// That profile 9 has no numbers of its own for a size.
pub fn needs_four(system: System) {
    expected(
        system,
        b"p0=, p1=, p2= and p3=, which profile 9 needs for any N but 24",
    );
}

// That a name stands twice.
pub fn twice(system: System, name: &[u8]) {
    say(system, b"interleaver: expected ");
    say(system, name);
    say(system, b"= only once\n");
}

// A kind by its word.
fn say_kind(system: System, kind: u32) {
    if kind == Stream::DVB {
        say(system, b"dvb");
    } else {
        say(system, b"atsc");
    }
}

// The forms of a kind's commands.
fn expected_stream(system: System, kind: u32) {
    say(system, b"interleaver: expected ");
    say_kind(system, kind);
    say(system, b" interleave FILL, ");
    say_kind(system, kind);
    say(system, b" deinterleave FILL or ");
    say_kind(system, kind);
    say(system, b" burst AT LENGTH\n");
}

// The form of a command with a kind in it, between two parts.
fn expected_kind(system: System, before: &[u8], kind: u32, behind: &[u8]) {
    say(system, b"interleaver: expected ");
    say(system, before);
    say_kind(system, kind);
    say(system, behind);
    say(system, b"\n");
}

// The form of a command.
pub fn usage(system: System, c: Command) {
    match c {
        Command::Help => expected(system, b"help"),
        Command::Test => expected(
            system,
            b"test PROFILE BITS N [stream=I] [f1=F f2=G] [p0=A p1=B p2=C p3=D]",
        ),
        Command::Profiles => expected(system, b"profiles"),
        Command::List => expected(
            system,
            b"list PROFILE BITS N [stream=I] [f1=F f2=G] [p0=A p1=B p2=C p3=D]",
        ),
        Command::Back => expected(
            system,
            b"back PROFILE BITS N [stream=I] [f1=F f2=G] [p0=A p1=B p2=C p3=D]",
        ),
        Command::At => expected(
            system,
            b"at PROFILE BITS N T [stream=I] [f1=F f2=G] [p0=A p1=B p2=C p3=D]",
        ),
        Command::To => expected(
            system,
            b"to PROFILE BITS N K [stream=I] [f1=F f2=G] [p0=A p1=B p2=C p3=D]",
        ),
        Command::Walk => expected(
            system,
            b"walk PROFILE BITS N CELL ROOM [stream=I] [f1=F f2=G] [p0=A p1=B p2=C p3=D]",
        ),
        Command::Picture => {
            expected(
                system,
                b"picture PROFILE BITS N [stream=I] [f1=F f2=G] [p0=A p1=B p2=C p3=D], picture dvb burst [AT LENGTH] or picture atsc burst [AT LENGTH]",
            )
        }
        Command::Factors => expected(system, b"factors K"),
        Command::Lines => expected(system, b"lines"),
        Command::Interleave => expected(
            system,
            b"interleave PROFILE BITS N [WIDTH] [stream=I] [f1=F f2=G] [p0=A p1=B p2=C p3=D]",
        ),
        Command::Deinterleave => expected(
            system,
            b"deinterleave PROFILE BITS N [WIDTH] [stream=I] [f1=F f2=G] [p0=A p1=B p2=C p3=D]",
        ),
        Command::Stream(kind) => expected_stream(system, kind),
        Command::Burst(kind) => expected_kind(system, b"", kind, b" burst AT LENGTH"),
        Command::BurstPicture(kind) => expected_kind(
            system,
            b"picture ",
            kind,
            b" burst [AT LENGTH]",
        ),
        Command::Combine => expected(
            system,
            b"combine PROFILE BITS N FILE ... [stream=I] [f1=F f2=G] [p0=A p1=B p2=C p3=D], each an argument of its own",
        ),
        Command::Padding => expected(
            system,
            b"padding, and the first K and the last on two lines of standard input",
        ),
        Command::Judge => expected(system, b"judge FILE"),
        Command::Differ => expected(system, b"differ FILE FILE"),
        Command::Plans => expected(
            system,
            b"plans PROFILE BITS N ..., three numbers a set, each of 1 to 10 digits up to 4294967295",
        ),
        Command::Unknown => expected(
            system,
            b"one of help, test, profiles, list, back, at, to, walk, picture, factors, lines, interleave, deinterleave, dvb, atsc, combine, padding, judge, differ, plans",
        ),
    }
}

pub fn help(system: System) {
    words::text::write(
        system,
        STDOUT_FILENO,
        b"interleaver: block interleavers of IEEE 802.11a, 802.11n and 802.16, 3GPP WCDMA and LTE, and byte streams of DVB and ATSC.\n\nQuestions, answered on standard output; a refusal is a line such as `refused 1`. Behind 3, said of an N\nthat isn't listed, stands the least listed one not below it, as in `refused 3 192`, or 0 if there is none:\n  test PROFILE BITS N [NAMES]                accepted, or the refusal\n  profiles                                   what each profile admits, as a table\n  list PROFILE BITS N [NAMES]                L: for each output position its input index, one a line\n  back PROFILE BITS N [NAMES]                M: for each input index its output position (not of profiles 5, 8, 9)\n  at PROFILE BITS N T [NAMES]                L(T): the input index that output T holds\n  to PROFILE BITS N K [NAMES]                M(K): the output position of input K\n  walk PROFILE BITS N CELL ROOM [NAMES]      at most ROOM entries of L from a cell on, then a line\n                                             `written W next C cells E`; go on with CELL = C\n  picture PROFILE BITS N [NAMES]             the permutation as an SVG\n  factors K                                  `F G`: LTE's own f1 and f2 for K, 3GPP TS 36.212 table 5.1.3-3\n  dvb burst AT LENGTH                        LENGTH bytes (1 to 1,024) in a row in the channel, from byte AT on: for each\n  atsc burst AT LENGTH                       `BYTE PLACE`, where it comes out of the deinterleaver, both counted from its\n                                             start; then `least distance D` between any two (of one byte, `none`)\n  picture dvb burst [AT LENGTH]              the same as an SVG (left out, AT is 0 and LENGTH 12)\n  picture atsc burst [AT LENGTH]             .. (left out, AT is 0 and LENGTH 52)\n  lines                                      the same, a question a line, from standard input\n                                             (each line shorter than 512 bytes)\n\nFilters, standard input to standard output:\n  interleave PROFILE BITS N [WIDTH] [NAMES]        block after block of N symbols, of profile 9 2N, of WIDTH bytes (1\n  deinterleave PROFILE BITS N [WIDTH] [NAMES]      to 8; left out, 1); an f32 is 4, moved bit for bit. A short last\n                                                   block: `refused 5` on standard error, and nothing of it is written\n  dvb interleave FILL                              a byte stream, in a machine that starts with FILL (0 to 255);\n  dvb deinterleave FILL                            out as long as in: through both, it comes back 2,244 bytes\n  atsc interleave FILL                             late (dvb) or 10,608 (atsc), and as many of the last bytes\n  atsc deinterleave FILL                           stay inside\n\nThe padding report of WCDMA's sizes; a refusal is an answer, as to a question:\n  padding                                      from standard input the first K and the last, each 1 to 4 digits on a\n                                               line of its own; then `K R C cells pads`, those figures for each K, and\n                                               `total SIZES CELLS PADS`. It reads nothing behind the two lines. Lines\n                                               of another form, a K not 40 to 5,114, or a first above the last:\n                                               `refused 3`, and what is left of the lines isn't read\n\nReceptions, from files; a refusal is an answer, as to a question:\n  combine PROFILE BITS N FILE ... [NAMES]      receptions of one block added up (not of profile 9). A FILE is one: N\n                                               f32 values in output order, 4 bytes each, little end first, a blank\n                                               as not-a-number. Then for each input index `INDEX SUM COUNT`, the f32\n                                               SUM written exactly, or `INDEX blank`. A path has at most 1,024 bytes\n\nPlan files, of other firms' address lists; a refusal is an answer, as to a question:\n  judge FILE                                   for each plan of FILE `plan P equal`, `plan P wrong FIRST COUNT`, the first\n                                               wrong position and how many are wrong, or `plan P refused ...`\n  differ FILE FILE                             each difference, `plan P at T: A B`, with `-` for an address that a file\n                                               lacks, `plan P header` or `plan P missing`; then `differences COUNT`\n  plans PROFILE BITS N ...                     the file of 1 to 16 sets' lists L, to standard output (a refusal, to\n                                               standard error)\nA plan file has numbers of 4 bytes, big end first: how many plans, 1 to 16; for each profile, bits, N, offset, count; then\nthe lists, without gaps to its end, addresses of 2 bytes. Any other, or one above 65,536 bytes or that can't be read, is\n`refused 12`. Its profiles are 1 to 5. Plans are counted from 1, positions from 0. A path has at most 1,024 bytes.\n\nNAMES are named words, and may stand anywhere behind PROFILE: `stream=I` is the spatial stream of IEEE 802.11n, 1 to 4\n(left out, 1); `f1=F f2=G`, both or neither, are the factors of profile 8 (left out, LTE's own for N);\n`p0=A p1=B p2=C p3=D`, all four or none, are P0 to P3 of profile 9 (left out, 5, 0, 0, 0 for N 24; other N need them).\nProfile 9 has N couples: positions and indices count those, and a block is 2N symbols, each A before its B.\nA word is a named one where it holds a `=` and no `/` before that: for a file a=b, write ./a=b.\n\nRefusals: 1 profile, 2 bits, 3 N, 16 stream not listed; 11 f1 or f2 not from 1 to N - 1, or one of P0 to P3 N or more;\n10 two positions would share an address; 4 position N or more; 5 input of another length; 9 cell past the end; 12 a plan\nfile of another form, or sets that make none; 13 a value or a sum not finite; 15 a count past 65,535. Exit status: 0, also\nwhere a question is answered by a refusal; 1 where anything was said on standard error; 2 where the program cannot be\nbuilt.\n\nExamples:\n  ./interleaver test 3 4 100                                    prints refused 3 192: the next size of IEEE 802.11a\n  ./interleaver at 3 4 192 13                                   prints 1: output 13 holds input 1\n  ./interleaver to 6 2 104 0 stream=2                           prints 60: where IEEE 802.11n's second stream has input 0\n  ./interleaver at 8 1 40 2 f1=3 f2=10                          prints 6: LTE's output 2 holds input 6\n  ./interleaver at 9 1 24 4                                     prints 21: output couple 4 of IEEE 802.16 is couple 21\n  ./interleaver picture 3 6 288 > wlan.svg                      a picture of IEEE 802.11a's 64-QAM block\n  ./interleaver dvb burst 0 12                                  a burst of 12 bytes comes out 203 or more places apart\n  ./interleaver picture atsc burst > burst.svg                  a picture: 52 bytes of ATSC come out 207 or more apart\n  ./interleaver interleave 3 6 288 < samples/bulletin.txt | ./interleaver deinterleave 3 6 288\n  ./interleaver combine 3 6 288 samples/reception?.f32          three receptions of one block\n  printf '40\\n5114\\n' | ./interleaver padding                   R, C, cells and padding of every K\n  ./interleaver judge samples/harbour.plan                      another firm's lists beside ours\n",
    );
}
