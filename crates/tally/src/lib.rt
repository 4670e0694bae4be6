// The week in figures: the live texts of a day file, read again and counted by type and by refusal.

#![tactic(auto)]

ghost use Rattle.std.specs.Prelude.{◌≡◌, ◌<◌};
ghost use Rattle.refusal.specs.Said.{says, turned};
ghost use Rattle.tally.specs.Counting.{slot_in, add_text, tally_after, counting};

use conformity::Column;
use day_file::{LIVE, open_bytes, two_at};
use refusal::{MOST_FIELDS, Reason, Refusal};

// Types 00, 01, 02, B0, B1; all others; the refusals 0 to 255.
pub const SLOTS: usize = 262;

// Where a text of another type is counted.
const OTHERS: usize = 5;

// Where the refusals begin, by number.
const REFUSED: usize = 6;

// How many texts were counted in each slot.
#[repr(C)]
#[derive(Clone, Copy, Debug, PartialEq, Eq)]
pub struct Tally {
    pub counts: [u32; SLOTS],
}

// Where a text is counted.
fn slot_of(text: &[u8]) -> usize
    ensures is { result ≡ slot_in text.now }
    ensures small { result < 262 }
{
    match text_reader::read_text(text, MOST_FIELDS) {
        Ok(read) => {
            let [type0, type1] = read.header.doctype;
            conformity::column_of(type0, type1).map_or(OTHERS, Column::number)
        }
        Err(refusal) => REFUSED + usize::from(refusal.reason.number()),
    }
}

impl Tally {
    // One text: one more where it is counted, or 38 where that count is full.
    #[tactic(auto, unfolding(crate::specs::Counting::add_text))]
    fn count_text(&mut self, text: &[u8]) -> Result<(), Refusal>
        ensures answer { says result ≡ turned (λ _. tt) (add_text text.now self.old) }
        ensures lent { self.new ≡ tally_after (add_text text.now self.old) self.old }
    {
        let count = &mut self.counts[slot_of(text)];
        *count = count.checked_add(1).ok_or(Reason::CountFull.at(0))?;
        Ok(())
    }
}

// The live texts of one file, which the slice is. Refused with 35 or 38, nothing is counted: the caller's tally was lent by value.
#[tactic(auto, unfolding(crate::specs::Counting::counting), using(crate::proofs::Walk::head_inside, crate::proofs::Walk::text_inside, crate::proofs::Walk::passed, crate::proofs::Walk::counted, crate::proofs::Walk::stopped, crate::proofs::Walk::ended))]
pub fn count_file(t: Tally, file: &[u8]) -> Result<Tally, Refusal>
    ensures { says result ≡ counting file.now t }
{
    let day = open_bytes(file)?;
    let mut more = t;
    for i in 0..day.count {
        let at = day.start(file, i);
        if file[at] == LIVE {
            let n = two_at(file, at + 1);
            more.count_text(&file[at + 3..at + 3 + n])?;
        }
    }
    Ok(more)
}
