// The dictionary of 2D-DOC: its rows, the characters that a row takes, and the records that name a row.

#![tactic(auto)]

mod fields;
mod table;

ghost use Rattle.std.specs.Prelude.{◌≡◌, ℕ, ◌+◌, ◌≤◌, length};
ghost use Rattle.dictionary.specs.Dictionary.{in_kind, is_greatest, fixed, allowed, find, row_at as row_numbered};
ghost use Rattle.dictionary.specs.Rows.{rows};
ghost use Rattle.dictionary.specs.inner.Lookup.{place_of, found_says, row_found_says, so_far};

pub use fields::Fields;

// The rows are numbered from 0.
pub const ROW_COUNT: usize = 110;

#[derive(Clone, Copy, Debug, PartialEq, Eq)]
pub enum Kind {
    Numeric,
    Alphabetic,
    Alphanumeric,
}

impl Kind {
    // Digits; capital letters and the space; the characters from the space to the underscore.
    pub fn takes(self, c: u8) -> bool
        ensures { result ≡ in_kind self c }
    {
        match self {
            Kind::Numeric => matches!(c, b'0'..=b'9'),
            Kind::Alphabetic => matches!(c, b'A'..=b'Z' | b' '),
            Kind::Alphanumeric => matches!(c, b' '..=b'_'),
        }
    }
}

// A row: its identifier's two characters, the least and the greatest length of its data, and their type.
#[derive(Clone, Copy, Debug, PartialEq, Eq)]
pub struct Row {
    pub first: u8,
    pub second: u8,
    pub least: usize,
    pub greatest: Option<usize>,
    pub kind: Kind,
}

impl Row {
    // Is n the greatest length?
    pub fn is_full(self, n: usize) -> bool
        ensures { result ≡ is_greatest self.greatest n }
    {
        self.greatest == Some(n)
    }

    // A length is fixed where least and greatest are one.
    pub fn is_fixed(self) -> bool
        ensures { result ≡ fixed self }
    {
        self.is_full(self.least)
    }

    // May c stand behind the n characters of data that start at `start`? The type decides, whatever the data so far.
    #[tactic(auto, unfolding(crate::specs::Dictionary::allowed))]
    pub fn may_stand(self, text: &[u8], start: usize, n: usize, c: u8) -> bool
        requires { start + n ≤ length text.now }
        ensures { result ≡ allowed self (so_far text.now start n) c }
    {
        self.kind.takes(c)
    }
}

// A field: its row, whether its data are cut, and where they stand in a slice.
#[repr(C)]
#[derive(Clone, Copy, Debug, PartialEq, Eq, Default)]
pub struct Field {
    pub row: u16,
    pub cut: bool,
    pub start: u32,
    pub length: u32,
}

// The table of the rows.
#[tactic(auto, unfolding(crate::specs::Rows::rows))]
pub fn all_rows() -> &'static [Row; ROW_COUNT]
    ensures { result.now ≡ rows }
{
    &table::ROWS
}

// Where the row of an identifier stands if it has one: a section's identifiers leave none out, from 01, 10, 20, 60 and B0 on.
#[tactic(auto, unfolding(crate::specs::inner::Lookup::place_of))]
fn place_of(a: u8, b: u8) -> Option<usize>
    ensures { result ≡ place_of a b }
{
    let digit = match b {
        b'0'..=b'9' => usize::from(b - b'0'),
        b'A'..=b'Z' => usize::from(b - b'A') + 10,
        _ => return None,
    };
    match a {
        b'0' => digit.checked_sub(1),
        b'1' => Some(13 + digit),
        b'2' => Some(39 + digit),
        b'6' => Some(53 + digit),
        b'B' => Some(89 + digit),
        _ => None,
    }
}

// The row of an identifier, with its number: no search, but a look at the one place where it can stand.
pub fn find_row(a: u8, b: u8) -> Option<(usize, Row)>
    ensures { (p : ℕ) → found_says result p ≡ find a b 0 p rows }
{
    let n = place_of(a, b)?;
    let row = row_at(n)?;
    (a == row.first && b == row.second).then_some((n, row))
}

// The row of a number.
pub fn row_at(n: usize) -> Option<Row>
    ensures { (i : ℕ) → row_found_says result i ≡ row_numbered rows n i }
{
    all_rows().get(n).copied()
}
