// From text to codewords: the smallest symbol of a text, with the fewest codewords before its pads and, among those, the largest.
// The costs are filled from the end of the text, the size is chosen by them, and the codewords are written from the beginning.

#![tactic(auto)]

mod codewords;
mod costs;
mod moves;
mod sizes;
mod writer;

ghost use Rattle.std.specs.Prelude.{◌≡◌, true, ◌++◌, ◌≤◌, ltb, length, drop, position};
ghost use Rattle.refusal.specs.Said.{says};
ghost use Rattle.codeword.specs.Sizes.{capacities};
ghost use Rattle.codeword.specs.Reading.{in_ascii};
ghost use Rattle.optimum.specs.Write.{write, choose};
ghost use Rattle.symbol_writer.specs.Rows.{work_room, Filled};
ghost use Rattle.symbol_writer.specs.Moves.{Lent};
ghost use Rattle.symbol_writer.specs.Sizes.{choice_of};
ghost use Rattle.symbol_writer.specs.Promise.{Promised, work_left};
ghost use Rattle.symbol_writer.specs.Symbol.{zeros, in_size, write_symbol, answered, symbol_after, work_after, PutSymbol, Within};

use codewords::put_pads;
use costs::fill;
use refusal::{Reason, Refusal};
use sizes::Size;
use writer::Writer;

// The work slice has at least 8,192 numbers, of which the first 8,192 are zero on return.
const WORK_ROOM: usize = 8192;

// The capacity, and the codewords before padding.
#[derive(Clone, Copy, Debug, PartialEq, Eq)]
pub struct SymbolWritten {
    pub capacity: usize,
    pub used: usize,
}

// The place of the first character above 127.
fn first_above(text: &[u8]) -> Option<usize>
    ensures { result ≡ position (λ c. ltb 127 c) text.now }
{
    text.iter().position(|&c| 127 < c)
}

fn clear(work: &mut [u16])
    requires { work_room ≤ length work.old }
    ensures { work.new ≡ zeros work_room ++ drop work_room work.old }
{
    work[..WORK_ROOM].fill(0);
}

// The size for the text. The rows are left as they are filled last, for a pad behind the codewords: most symbols have one.
fn size_for(text: &[u8], largest: usize, work: &mut [u16]) -> Option<Size>
    requires { Lent text.now work.old }
    ensures { (choice_of result ≡ choose capacities largest text.now) × (Filled true text.now work.old work.new 0) }
{
    let full = fill(text, false, work);
    let ended = fill(text, true, work);
    let fewest = ended.ascii.even.min(ended.ascii.odd);
    Size::choose(largest, usize::from(fewest), full.ascii)
}

// The codewords and the pads; how many codewords stand before the pads. The rows are filled again for an exactly full symbol.
fn put_symbol(text: &[u8], size: Size, work: &mut [u16], symbol: &mut [u8]) -> usize
    requires lent { (Lent text.now work.old) × (Filled true text.now work.old work.old 0) }
    requires room { size.capacity ≤ length symbol.old }
    ensures { PutSymbol (write size.padded size.used in_ascii text.now) size.capacity symbol.old symbol.new work.old work.new result }
{
    if !size.padded {
        fill(text, false, work);
    }
    let writer = Writer {
        text,
        padded: size.padded,
        work,
    };
    let used = writer.put_codewords(size.used, symbol);
    put_pads(symbol, used, size.capacity);
    used
}

// The symbol within the sizes up to the largest; the work slice is left as it was used.
fn write_within(
    text: &[u8],
    largest: usize,
    work: &mut [u16],
    symbol: &mut [u8],
) -> Result<SymbolWritten, Refusal>
    requires { Lent text.now work.old }
    ensures { Within (in_size (length symbol.old) text.now (choose capacities largest text.now)) symbol.old symbol.new work.old work.new result }
{
    let size = size_for(text, largest, work).ok_or(Reason::NoSizeFits.at(0))?;
    let capacity = size.capacity;
    if symbol.len() < capacity {
        return Err(Reason::LentTooShort.at(0));
    }
    let used = put_symbol(text, size, work, symbol);
    Ok(SymbolWritten { capacity, used })
}

// The refusals in their order, and the symbol that the costs give.
#[tactic(auto, unfolding(crate::specs::Symbol::write_symbol), using(crate::proofs::Whole::above_found, crate::proofs::Whole::above_none, crate::proofs::Whole::chars_of))]
fn write_by_costs(
    text: &[u8],
    largest: usize,
    work: &mut [u16],
    symbol: &mut [u8],
) -> Result<SymbolWritten, Refusal>
    ensures answer { says result ≡ answered (write_symbol text.now largest (length work.old) (length symbol.old)) }
    ensures output { symbol.new ≡ symbol_after (write_symbol text.now largest (length work.old) (length symbol.old)) symbol.old }
    ensures lent { work.new ≡ work_after (write_symbol text.now largest (length work.old) (length symbol.old)) work.old }
{
    if refusal::LIMIT < text.len() {
        return Err(Reason::TextTooLong.at(0));
    }
    if let Some(place) = first_above(text) {
        return Err(Reason::CharacterAbove127.at(place));
    }
    if !codeword::is_capacity(largest) {
        return Err(Reason::LargestNoCapacity.at(0));
    }
    if work.len() < WORK_ROOM {
        return Err(Reason::LentTooShort.at(0));
    }
    let answer = write_within(text, largest, work, symbol);
    clear(work);
    answer
}

// Writes the symbol of a text: the smallest up to the largest permitted size in which any codewords read as the text.
pub fn write_symbol(
    text: &[u8],
    largest: usize,
    work: &mut [u16],
    symbol: &mut [u8],
) -> Result<SymbolWritten, Refusal>
    ensures says { Promised text.now largest (length work.old) symbol.old symbol.new result }
    ensures lent { work.new ≡ work_left text.now largest work.old }
{
    write_by_costs(text, largest, work, symbol)
}
