// An f32 in decimal, exactly: it is a whole number of 24 bits, doubled some times, or halved, which is to multiply it by 5 and to set the point one
// place further left. That is done digit by digit. The text stands at the end of a room that is full of zeros before.
ghost use Rattle.std.specs.Prelude.{◌≡◌, drop, ◌≤◌, ◌<◌};

// The room of a text: the longest has a sign, a zero, the point and 149 decimals.
pub const PLACES: usize = 160;

// Where a number of 24 bits starts, which has 8 digits.
const START: usize = 152;

// A number of 24 bits, to be doubled and halved so many times.
#[derive(Clone, Copy)]
struct Scaled {
    whole: u32,
    up: u32,
    down: u32,
}

// What the bits of an f32 say, but for the sign.
fn parts_of(bits: u32) -> Scaled
    ensures { (result.up ≤ 149) × (result.down ≤ 149) }
{
    let low = bits % 8388608;
    let field = bits / 8388608 % 256;
    if field == 0 {
        return Scaled {
            whole: low,
            up: 0,
            down: 149,
        };
    }
    if field < 150 {
        return Scaled {
            whole: low + 8388608,
            up: 0,
            down: 150 - field,
        };
    }
    Scaled {
        whole: low + 8388608,
        up: field - 150,
        down: 0,
    }
}

// The same with no halving of an even number: then there are as many decimals as halvings, and the last isn't 0. (By `while`: it ends at either of two.)
fn reduced(s: Scaled) -> Scaled
    requires { (s.up ≤ 149) × (s.down ≤ 149) }
    ensures { (result.up ≤ 149) × (result.down ≤ 149) }
{
    let mut whole = s.whole;
    let mut down = s.down;
    while down > 0 && whole % 2 == 0 {
        whole /= 2;
        down -= 1;
    }
    Scaled { whole, down, ..s }
}

// A digit times 5, or times 2.
fn product(digit: u8, five: bool) -> u32
    ensures { result ≤ 75 }
{
    let d = (digit % 16) as u32;
    if five { 5 * d } else { 2 * d }
}

fn digit(value: u32) -> u8 {
    48 + (value % 10) as u8
}

// The digits of a number of 24 bits.
fn spell(whole: u32, text: &mut [u8; PLACES]) {
    let mut rest = whole;
    for i in (START..PLACES).rev() {
        text[i] = digit(rest);
        rest /= 10;
    }
}

// The number from place `from` on, times 5 or 2.
fn multiply(text: &mut [u8; PLACES], five: bool, from: usize) {
    let mut carry = 0;
    for i in (from..PLACES).rev() {
        let v = product(text[i], five) + carry;
        text[i] = digit(v);
        carry = v / 10;
    }
}

// The same n times: each takes at most one digit more.
fn multiply_times(text: &mut [u8; PLACES], five: bool, n: u32)
    requires { n ≤ 149 }
{
    for from in (START - n as usize..START).rev() {
        multiply(text, five, from);
    }
}

// Where the whole part starts, which ends before `point`, with no zero in front but a single one.
fn start_of(text: &[u8; PLACES], point: usize) -> usize
    requires { (11 ≤ point) × (point ≤ 160) }
    ensures { (2 ≤ result) × (result < point) }
{
    for i in 2..point - 1 {
        if text[i] != b'0' {
            return i;
        }
    }
    point - 1
}

// Sets the point, for which the whole part moves by one place. Answers where that starts then.
fn set_point(text: &mut [u8; PLACES], start: usize, point: usize) -> usize
    requires { (2 ≤ start) × (start < point) × (point ≤ 160) }
    ensures { (1 ≤ result) × (result ≤ 160) }
{
    if point == PLACES {
        return start;
    }
    text[start - 1..point].rotate_left(1);
    text[point - 1] = b'.';
    start - 1
}

fn set_sign(text: &mut [u8; PLACES], start: usize, bits: u32) -> usize
    requires { (1 ≤ start) × (start ≤ 160) }
    ensures { result ≤ 160 }
{
    if bits < 2147483648 {
        return start;
    }
    text[start - 1] = b'-';
    start - 1
}

// The text of a number by its bits. Answers where it starts.
fn spell_bits(bits: u32, text: &mut [u8; PLACES]) -> usize
    ensures { result ≤ 160 }
{
    let s = reduced(parts_of(bits));
    let point = PLACES - s.down as usize;
    spell(s.whole, text);
    multiply_times(text, false, s.up);
    multiply_times(text, true, s.down);
    let start = set_point(text, start_of(text, point), point);
    set_sign(text, start, bits)
}

// The text of an f32, which ends its room.
#[derive(Clone, Copy)]
pub struct Decimal {
    room: [u8; PLACES],
    start: usize,
}

impl Decimal {
    // (No sum is a not-a-number: for one the text is empty.)
    pub fn of(x: f32) -> Self {
        let mut room = [b'0'; PLACES];
        if x.is_nan() {
            return Decimal {
                room,
                start: PLACES,
            };
        }
        let start = spell_bits(x.to_bits(), &mut room);
        Decimal { room, start }
    }

    pub fn text(&self) -> &[u8]
        ensures { result.now ≡ drop self.now.start self.now.room }
    {
        self.room.get(self.start..).unwrap_or(&[])
    }
}
