// Reads the data codewords of a symbol into text.

#![tactic(auto)]

ghost use Rattle.std.specs.Prelude.{◌≡◌, ◌≤◌, length, drop};
ghost use Rattle.refusal.specs.Said.{says, turned};
ghost use Rattle.codeword.specs.Meanings.{pair, value};
ghost use Rattle.codeword.specs.Reading.{behind, give, put, on_pair, in_ascii, in_c40, read, read_symbol};
ghost use Rattle.symbol_reader.specs.Answers.{answered, lent_after};
ghost use Rattle.symbol_reader.specs.Steps.{reads, leads, answers};
ghost use Rattle.codeword.specs.declared.Set.TheVariants.{Basic};

use arrayvec::ArrayVec;
use codeword::{Ascii, Lone, Set, Value};
use refusal::{Reason, Refusal};

// The characters so far.
type Text = ArrayVec<u8, { refusal::LIMIT }>;

// The count of characters, and of codewords before the first pad.
#[derive(Clone, Copy, Debug, PartialEq, Eq)]
pub struct SymbolRead {
    pub length: usize,
    pub used: usize,
}

// One more character. The 1,001st is refused, at the place of its codeword.
fn put_char(text: &mut Text, c: u8, place: usize) -> Result<(), Refusal>
    ensures { (rest : _) → leads result text.new.items place (λ _. rest) ≡ reads text.old.items place (give c rest) }
{
    if text.is_full() {
        return Err(Reason::TextTooLong.at(place));
    }
    text.push(c);
    Ok(())
}

// One more value of C40, in the set that the value before it left. It leaves a set for the next.
fn put_value(text: &mut Text, set: Set, v: u8, place: usize) -> Result<Set, Refusal>
    ensures { (rest : _) → leads result text.new.items place rest ≡ reads text.old.items place (put (value set v) rest) }
{
    match set.value(v) {
        Value::Char(c) => {
            put_char(text, c, place)?;
            Ok(Set::Basic)
        }
        Value::Shift(shift) => Ok(shift),
        Value::Unused => Err(Reason::WrongValue.at(place)),
    }
}

// The three values of a pair of codewords, whose place is the first one's.
fn put_pair(text: &mut Text, set: Set, a: u8, b: u8, place: usize) -> Result<Set, Refusal>
    ensures { (rest : _) → leads result text.new.items place (λ s. behind (behind (rest s))) ≡ reads text.old.items place (on_pair (pair a b) set rest) }
{
    let (x, y, z) = codeword::pair_of(a, b).ok_or(Reason::PairOutside.at(place))?;
    let set = put_value(text, set, x, place)?;
    let set = put_value(text, set, y, place)?;
    put_value(text, set, z, place)
}

// Reads on in ASCII mode, from the codeword at `start`. Says how many codewords stand before the first pad.
#[cycle(read_ascii_read_c40)]
#[tactic(auto, using(crate::proofs::Clauses::ascii_ends, crate::proofs::Clauses::ascii_at, crate::proofs::Clauses::ascii_latch, crate::proofs::Clauses::ascii_pad))]
fn read_ascii(codewords: &[u8], start: usize, text: &mut Text) -> Result<usize, Refusal>
    requires { start ≤ length codewords.now }
    ensures { answers result text.new.items ≡ reads text.old.items start (read (drop start codewords.now) in_ascii) }
{
    for at in start..codewords.len() {
        match codeword::ascii_of(codewords[at]) {
            Ascii::One(c) => put_char(text, c, at)?,
            Ascii::Two(c, d) => {
                put_char(text, c, at)?;
                put_char(text, d, at)?;
            }
            Ascii::Latch => return read_c40(codewords, at + 1, text),
            Ascii::Pad => return Ok(at),
            Ascii::Wrong => return Err(Reason::ForbiddenCodeword.at(at)),
        }
    }
    Ok(codewords.len())
}

// Reads on in C40 mode, from the pair at `start`. A shift may not wait where 254 stands, at a lone last codeword or at the end.
#[cycle(read_ascii_read_c40)]
#[tactic(auto, using(crate::proofs::Clauses::c40_ends, crate::proofs::Clauses::c40_lone, crate::proofs::Clauses::c40_lone_ends, crate::proofs::Clauses::c40_254, crate::proofs::Clauses::c40_back, crate::proofs::Clauses::c40_pair, crate::proofs::Clauses::c40_waits))]
fn read_c40(codewords: &[u8], start: usize, text: &mut Text) -> Result<usize, Refusal>
    requires { start ≤ length codewords.now }
    ensures { answers result text.new.items ≡ reads text.old.items start (read (drop start codewords.now) (in_c40 Basic)) }
{
    let mut at = start;
    let mut set = Set::Basic;
    while at + 1 < codewords.len() {
        let (a, b) = (codewords[at], codewords[at + 1]);
        if a == codeword::UNLATCH {
            if set.is_unfinished() {
                return Err(Reason::WrongValue.at(at));
            }
            return read_ascii(codewords, at + 1, text);
        }
        set = put_pair(text, set, a, b, at)?;
        at += 2;
    }
    if set.is_unfinished() {
        return Err(Reason::WrongValue.at(at));
    }
    if at == codewords.len() {
        return Ok(at);
    }
    match codeword::lone_of(codewords[at]) {
        Lone::Ends => Ok(at + 1),
        Lone::Last(c) => {
            put_char(text, c, at)?;
            Ok(at + 1)
        }
        Lone::Bad => Err(Reason::ForbiddenCodeword.at(at)),
    }
}

// Reads a symbol into the lent text. The text is read into a buffer first, so that a refusal, also of a pad behind it, leaves what was
// lent as it was.
#[tactic(auto, using(codeword::proofs::Sizes::capacity_most), unfolding(codeword::specs::Reading::read_symbol, codeword::specs::Reading::read_to_pad))]
pub fn read_symbol(codewords: &[u8], text: &mut [u8]) -> Result<SymbolRead, Refusal>
    ensures answer { says result ≡ answered (read_symbol codewords.now (length text.old)) }
    ensures lent { text.new ≡ lent_after (read_symbol codewords.now (length text.old)) text.old }
{
    if !codeword::is_capacity(codewords.len()) {
        return Err(Reason::CountNoCapacity.at(0));
    }
    if text.len() < refusal::LIMIT {
        return Err(Reason::LentTooShort.at(0));
    }
    let mut buffer = Text::new();
    let used = read_ascii(codewords, 0, &mut buffer)?;
    if let Some(wrong) = codeword::first_wrong_pad(codewords, used) {
        return Err(Reason::WrongPad.at(wrong));
    }
    let length = buffer.len();
    text[..length].copy_from_slice(&buffer);
    Ok(SymbolRead { length, used })
}
