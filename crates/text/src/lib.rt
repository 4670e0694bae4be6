// The text behind its header: the mark 31 behind the zone, and the signature. What a zone and a text are is defined here too.

#![tactic(auto)]

ghost use Rattle.std.specs.Prelude.{◌≡◌, ◌==◌, ◌+◌, ◌≤◌, not, length, drop, position};
ghost use Rattle.refusal.specs.Limits.{limit};
ghost use Rattle.refusal.specs.Said.{number_of, says, turned};
ghost use Rattle.base32.specs.Base32.{in_alphabet};
ghost use Rattle.text.specs.Signature.{wrong_number, length_of_chars, read_signature};
ghost use Rattle.text.specs.Text.{at_mark};
ghost use Rattle.text.specs.inner.Code.{zone_end_says, kept_bytes};

use arrayvec::ArrayVec;
use header::Version;
use refusal::{Reason, Refusal};

// What stands behind the data of a field that could be longer: they are whole, or cut short. And the mark behind the zone.
pub const SEPARATOR: u8 = 29;

pub const CUT_MARK: u8 = 30;

pub const ZONE_END: u8 = 31;

// What a character does behind the data so far: it is one more of them; a 29 ends them; a 30 cuts them; they are whole, and
// it starts the next field; it may not stand there.
#[derive(Clone, Copy, Debug, PartialEq, Eq)]
pub enum Does {
    More,
    Ends,
    Cuts,
    Follows,
    Wrong,
}

// The place of the first 31.
fn first_mark(text: &[u8]) -> Option<usize>
    ensures { result ≡ position (λ c. c == 31) text.now }
{
    text.iter().position(|&c| c == ZONE_END)
}

// The first 31 from a place on.
#[tactic(auto, using(crate::proofs::Marks::mark_found, crate::proofs::Marks::mark_missing))]
pub fn find_mark(text: &[u8], from: usize) -> Option<usize>
    requires { from ≤ length text.now }
    ensures { zone_end_says result from text.now ≡ at_mark from (drop from text.now) }
{
    let m = first_mark(&text[from..])?;
    Some(from + m)
}

// The first character outside the alphabet of Base32.
fn first_outside(chars: &[u8]) -> Option<usize>
    ensures { result ≡ position (λ c. not (in_alphabet c)) chars.now }
{
    chars.iter().position(|&c| !base32::in_alphabet(c))
}

// In version 04 a 29 behind the 31 has a number of its own.
fn wrong_character(v: Version, c: u8) -> Reason
    ensures { number_of result ≡ wrong_number v c }
{
    match v {
        Version::V04 if c == SEPARATOR => Reason::Annex,
        _ => Reason::SignatureCharacter,
    }
}

// 64, 96 or 132 bytes.
fn is_length(n: usize) -> bool
    ensures { result ≡ length_of_chars n }
{
    matches!(n, 103 | 154 | 212)
}

// The signature, whose characters stand behind the 31 from the place `from` on: the characters left to right, then 21, then 23.
#[tactic(auto, using(crate::proofs::Signs::each_return))]
pub fn read_signature(chars: &[u8], from: usize, v: Version) -> Result<ArrayVec<u8, 132>, Refusal>
    requires { from + length chars.now ≤ limit }
    ensures { says result ≡ turned kept_bytes (read_signature v from chars.now) }
{
    if let Some(k) = first_outside(chars) {
        return Err(wrong_character(v, chars[k]).at(from + k));
    }
    if !is_length(chars.len()) {
        return Err(Reason::SignatureLength.at(from));
    }
    if base32::spare_bits(chars) != 0 {
        return Err(Reason::SpareBits.at(from));
    }
    Ok(base32::read_base32(chars))
}
