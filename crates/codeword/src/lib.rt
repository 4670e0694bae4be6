// The data codewords of a symbol: what each means in its mode, and the sizes that a symbol has.

#![tactic(auto)]

ghost use Rattle.std.specs.Prelude.{◌≡◌, ◌<◌, ◌≤◌, length};
ghost use Rattle.codeword.specs.Meanings.{ascii, lone, pair, value, unfinished};
ghost use Rattle.codeword.specs.Sizes.{is_capacity, capacities, most_codewords};
ghost use Rattle.codeword.specs.Characters.{set_of, number_of};
ghost use Rattle.codeword.specs.Numbered.{is_basic};
ghost use Rattle.codeword.specs.Pads.{pad_at, first_wrong, wrong_pad_in};

// The first pad. In ASCII mode it ends the text.
pub const PAD: u8 = 129;

// From ASCII mode to C40 mode.
pub const LATCH: u8 = 230;

// From C40 mode back to ASCII mode.
pub const UNLATCH: u8 = 254;

// The four sets of C40. Sets 1, 2 and 3 are also the shifts that wait for their value.
#[derive(Clone, Copy, Debug, PartialEq, Eq)]
pub enum Set {
    Basic,
    Set1,
    Set2,
    Set3,
}

// What a value of C40 means in its set.
#[derive(Clone, Copy, Debug, PartialEq, Eq)]
pub enum Value {
    Char(u8),
    Shift(Set),
    Unused,
}

// What a codeword means in ASCII mode.
#[derive(Clone, Copy, Debug, PartialEq, Eq)]
pub enum Ascii {
    One(u8),
    Two(u8, u8),
    Latch,
    Pad,
    Wrong,
}

// What a lone last codeword means in C40 mode.
#[derive(Clone, Copy, Debug, PartialEq, Eq)]
pub enum Lone {
    Ends,
    Last(u8),
    Bad,
}

#[tactic(auto, unfolding(crate::specs::Meanings::ascii))]
pub fn ascii_of(w: u8) -> Ascii
    ensures { result ≡ ascii w }
{
    match w {
        1..=128 => Ascii::One(w - 1),
        PAD => Ascii::Pad,
        130..=229 => Ascii::Two(b'0' + (w - 130) / 10, b'0' + (w - 130) % 10),
        LATCH => Ascii::Latch,
        _ => Ascii::Wrong,
    }
}

#[tactic(auto, unfolding(crate::specs::Meanings::lone))]
pub fn lone_of(w: u8) -> Lone
    ensures { result ≡ lone w }
{
    match w {
        UNLATCH => Lone::Ends,
        1..=128 => Lone::Last(w - 1),
        _ => Lone::Bad,
    }
}

// The three values of a pair of codewords in C40 mode; none where 256a + b is outside 1 to 64,000.
#[tactic(auto, unfolding(crate::specs::Meanings::pair))]
pub fn pair_of(a: u8, b: u8) -> Option<(u8, u8, u8)>
    ensures { result ≡ pair a b }
{
    let w = u16::from_be_bytes([a, b]);
    if !(1..=64000).contains(&w) {
        return None;
    }
    let v = w - 1;
    Some(((v / 1600) as u8, (v / 40 % 40) as u8, (v % 40) as u8))
}

impl Set {
    // What a value means in this set.
    #[tactic(auto, unfolding(crate::specs::Meanings::value))]
    pub fn value(self, v: u8) -> Value
        ensures { result ≡ value self v }
    {
        match (self, v) {
            (Set::Basic, 0) => Value::Shift(Set::Set1),
            (Set::Basic, 1) => Value::Shift(Set::Set2),
            (Set::Basic, 2) => Value::Shift(Set::Set3),
            (Set::Basic, 3) => Value::Char(b' '),
            (Set::Basic, 4..=13) => Value::Char(b'0' + (v - 4)),
            (Set::Basic, 14..=39) => Value::Char(b'A' + (v - 14)),
            (Set::Set1, 0..=31) => Value::Char(v),
            (Set::Set2, 0..=14) => Value::Char(33 + v),
            (Set::Set2, 15..=21) => Value::Char(58 + (v - 15)),
            (Set::Set2, 22..=26) => Value::Char(91 + (v - 22)),
            (Set::Set3, 0..=31) => Value::Char(96 + v),
            _ => Value::Unused,
        }
    }

    // Whether a shift that has nothing after it is refused: a shift 1 is filler and vanishes.
    #[tactic(auto, unfolding(crate::specs::Meanings::unfinished))]
    pub fn is_unfinished(self) -> bool
        ensures { result ≡ unfinished self }
    {
        matches!(self, Set::Set2 | Set::Set3)
    }
}

// The 24 square sizes hold, in data codewords: 10x10 up to 144x144.
static CAPACITIES: [usize; 24] = [
    3, 5, 8, 12, 18, 22, 30, 36, 44, 62, 86, 114, 144, 174, 204, 280, 368, 456, 576, 696, 816,
    1050, 1304, 1558,
];

pub fn is_capacity(n: usize) -> bool
    ensures { result ≡ is_capacity n }
{
    CAPACITIES.contains(&n)
}

// All of them, from the smallest.
#[tactic(auto, unfolding(crate::specs::Sizes::capacities))]
pub fn all_capacities() -> &'static [usize; 24]
    ensures { result.now ≡ capacities }
{
    &CAPACITIES
}

// Where a character stands in C40.
#[derive(Clone, Copy, Debug, PartialEq, Eq)]
pub struct Place {
    pub set: Set,
    pub number: u8,
}

// By the ranges of document 01, set by set.
#[tactic(auto, unfolding(crate::specs::Characters::set_of, crate::specs::Characters::number_of))]
pub fn place_of(c: u8) -> Place
    requires { c < 128 }
    ensures { (result.set ≡ set_of c) × (result.number ≡ number_of c) }
{
    let (set, number) = match c {
        b' ' => (Set::Basic, 3),
        b'0'..=b'9' => (Set::Basic, 4 + (c - b'0')),
        b'A'..=b'Z' => (Set::Basic, 14 + (c - b'A')),
        0..=31 => (Set::Set1, c),
        33..=47 => (Set::Set2, c - 33),
        58..=64 => (Set::Set2, 15 + (c - 58)),
        91..=95 => (Set::Set2, 22 + (c - 91)),
        _ => (Set::Set3, c - 96),
    };
    Place { set, number }
}

// Whether a character takes one value: the space, a digit or a capital letter. The writer asks at every character, so the tests are joined without
// a branch.
#[tactic(auto, unfolding(crate::specs::Characters::set_of))]
pub fn is_basic(c: u8) -> bool
    ensures { result ≡ is_basic (set_of c) }
{
    (c == b' ') | c.is_ascii_digit() | c.is_ascii_uppercase()
}

// Padding starts with 129. A later pad at place p (the first codeword is place 1) is 129 + ((149p mod 253) + 1), less 254 if above 254.
#[tactic(auto, unfolding(crate::specs::Pads::pad_at))]
pub fn pad_at(first: usize, i: usize) -> u8
    requires { i < most_codewords }
    ensures { result ≡ pad_at first i }
{
    if i == first {
        return PAD;
    }
    let pad = 129 + (149 * (i + 1) % 253 + 1);
    if 254 < pad {
        (pad - 254) as u8
    } else {
        pad as u8
    }
}

// The index of the first wrong pad, if any, where `used` codewords stand before the first.
#[tactic(auto, unfolding(crate::specs::Pads::first_wrong, crate::specs::Pads::wrong_from))]
pub fn first_wrong_pad(codewords: &[u8], used: usize) -> Option<usize>
    requires { length codewords.now ≤ most_codewords }
    ensures { result ≡ wrong_pad_in used codewords.now }
{
    for i in used..codewords.len() {
        if codewords[i] != pad_at(used, i) {
            return Some(i);
        }
    }
    None
}
