// What every layer refuses with: a reason, which has its number in document 01's table, and a place in the input. And the limits.

#![tactic(auto)]

ghost use Rattle.std.specs.Prelude.{◌≡◌, ◌++◌, ◌≤◌, length, take, drop, Some};
ghost use Rattle.refusal.specs.Said.{number_of, shown};

use std::error::Error;
use std::fmt;

// Why an input is refused, by the numbers of the tables.
#[derive(Clone, Copy, Debug, PartialEq, Eq)]
pub enum Reason {
    CountNoCapacity = 1,
    ForbiddenCodeword = 2,
    PairOutside = 3,
    WrongValue = 4,
    TextTooLong = 5,
    LentTooShort = 6,
    CharacterAbove127 = 7,
    LargestNoCapacity = 8,
    NoSizeFits = 9,
    HeaderTooShort = 10,
    NotDc = 11,
    UnknownVersion = 12,
    WrongHeaderCharacter = 13,
    WrongPerimeter = 14,
    NoMark = 15,
    UnknownIdentifier = 16,
    ZoneEndsInside = 17,
    WrongCharacter = 18,
    DataTooShort = 19,
    IdentifierRepeated = 20,
    SignatureLength = 21,
    SignatureCharacter = 22,
    SpareBits = 23,
    Annex = 24,
    DataTooLong = 25,
    FixedCut = 26,
    TooManyFields = 27,
    TypeNotCovered = 28,
    IdentifierMissing = 29,
    IdentifierNotPermitted = 30,
    BadRecord = 31,
    SeveralBlocks = 32,
    NoneNear = 34,
    BadFile = 35,
    FileFull = 36,
    NoScan = 37,
    CountFull = 38,
    WrongPad = 39,
}

impl Reason {
    pub fn number(self) -> u8
        ensures { result ≡ number_of self }
    {
        self as u8
    }

    // The refusal for this reason at a place.
    pub fn at(self, place: usize) -> Refusal
        ensures { result ≡ record { reason = self; place = place } }
    {
        Refusal {
            reason: self,
            place,
        }
    }
}

// An input was refused: why, and at which place of it.
#[derive(Clone, Copy, Debug, PartialEq, Eq)]
pub struct Refusal {
    pub reason: Reason,
    pub place: usize,
}

impl fmt::Display for Refusal {
    ghost output = { λ w. Some (shown w) };

    fn fmt<W: fmt::Write>(&self, f: &mut fmt::Formatter<W>) -> fmt::Result {
        let number = self.reason.number();
        let place = self.place;
        write!(f, "refused {number} at place {place}")
    }
}

impl Error for Refusal {}

// A text has at most 1,000 characters.
pub const LIMIT: usize = 1000;

// A message has at most 64 fields.
pub const MOST_FIELDS: usize = 64;

// The first n of the one over the first n of the other.
pub fn copy(from: &[u8], to: &mut [u8], n: usize)
    requires { (n ≤ length from.now) × (n ≤ length to.old) }
    ensures { to.new ≡ take n from.now ++ drop n to.old }
{
    for i in 0..n {
        to[i] = from[i];
    }
}

// The one over the other, which is as long: `copy_from_slice`, where that is compiled to a call of `memmove`, which the archive does not ask for.
pub fn copy_whole(from: &[u8], to: &mut [u8])
    requires { length from.now ≡ length to.old }
    ensures { to.new ≡ from.now }
{
    copy(from, to, from.len());
}
