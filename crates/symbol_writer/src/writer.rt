// The writer of the codewords, move by move: each time the largest codeword, or pair of codewords, behind which exactly the codewords that are left will do.
// What is left of the text is told by a place in it. Each question "will n do from here?" is a look into the rows of costs.
ghost use Rattle.std.specs.Prelude.{◌≡◌, suc, ◌≤◌, length, drop, Some};
ghost use Rattle.refusal.specs.Limits.{limit};
ghost use Rattle.codeword.specs.Reading.{in_ascii, in_c40};
ghost use Rattle.optimum.specs.Cost.{cost};
ghost use Rattle.optimum.specs.Write.{next, third, pair, character, move, fits, write};
ghost use Rattle.symbol_writer.specs.Rows.{work_room, least_of, state_of, Rows};
ghost use Rattle.symbol_writer.specs.Moves.{mode_of, step_of, move_of, ValueWithin, MoveWithin, Chars};
ghost use Rattle.symbol_writer.specs.Codewords.{Put};

use super::costs::{Column, Least, ROW};
use super::moves::{Codewords, Mode, Move, NextValue};
use codeword::{LATCH, Set, UNLATCH};

// A text of characters up to 127, and the rows of its costs, where a pad follows or the symbol is exactly full.
#[derive(Clone, Copy)]
pub struct Writer<'a> {
    pub text: &'a [u8],
    pub padded: bool,
    pub work: &'a [u16],
    pub ghost short: { length text.now ≤ limit },
    pub ghost chars: { Chars text.now },
    pub ghost room: { work_room ≤ length work.now },
    pub ghost rows: { Rows padded text.now work.now 0 },
}

impl<'a> Writer<'a> {
    // The costs from the place i on, as a column of the rows holds them.
    fn least(&self, i: usize, column: Column) -> Least
        requires { i ≤ length self.now.text.now }
        ensures { result ≡ least_of (cost self.now.padded (drop i self.now.text.now) (state_of column)) }
    {
        let at = ROW * i + column.place_in_row();
        Least {
            even: self.work[at],
            odd: self.work[at + 1],
        }
    }

    // Whether exactly n codewords will do from the place i on.
    fn fits(&self, i: usize, column: Column, n: usize) -> bool
        requires { i ≤ length self.now.text.now }
        ensures { result ≡ fits self.now.padded (drop i self.now.text.now) (state_of column) n }
    {
        self.least(i, column).allows(n)
    }

    // The next value in a set: in the basic set the character's number or the shift to its set, behind a shift its number.
    fn next_value(&self, i: usize, set: Set) -> Option<NextValue>
        requires { i ≤ length self.now.text.now }
        ensures is { step_of result self.now.text.now ≡ next set (drop i self.now.text.now) }
        ensures within { ValueWithin result (length self.now.text.now) }
    {
        let place = codeword::place_of(*self.text.get(i)?);
        let (value, set, place) = match (set, place.set) {
            (Set::Basic, Set::Set1) => (0, Set::Set1, i),
            (Set::Basic, Set::Set2) => (1, Set::Set2, i),
            (Set::Basic, Set::Set3) => (2, Set::Set3, i),
            _ => (place.number, Set::Basic, i + 1),
        };
        Some(NextValue { value, set, place })
    }

    // The third value: in the basic set filler, a shift 1, where the n codewords behind the pair will not do with the next value.
    fn third_value(&self, i: usize, set: Set, n: usize) -> Option<NextValue>
        requires { i ≤ length self.now.text.now }
        ensures is { step_of result self.now.text.now ≡ third self.now.padded n set (drop i self.now.text.now) }
        ensures within { ValueWithin result (length self.now.text.now) }
    {
        let next = self.next_value(i, set);
        if !matches!(set, Set::Basic) {
            return next;
        }
        match next {
            Some(v) if self.fits(i + 1, Column::behind(v.set), n) => next,
            _ => Some(NextValue {
                value: 0,
                set: Set::Set1,
                place: i,
            }),
        }
    }

    // A pair, with n codewords behind it.
    #[tactic(auto, unfolding(optimum::specs::Write::pair))]
    fn pair_of_codewords(&self, i: usize, set: Set, n: usize) -> Option<Move>
        requires { i ≤ length self.now.text.now }
        ensures is { move_of result self.now.text.now ≡ pair self.now.padded n set (drop i self.now.text.now) }
        ensures within { MoveWithin result (length self.now.text.now) 2 }
    {
        let first = self.next_value(i, set)?;
        let second = self.next_value(first.place, first.set)?;
        let third = self.third_value(second.place, second.set, n)?;
        Some(Move {
            codewords: Codewords::of_values(first.value, second.value, third.value),
            mode: Mode::C40(third.set),
            place: third.place,
        })
    }

    // In ASCII mode two digits, if the n codewords behind them will do, and else a character.
    fn character(&self, i: usize, n: usize) -> Option<Move>
        requires { i ≤ length self.now.text.now }
        ensures is { move_of result self.now.text.now ≡ character self.now.padded n (drop i self.now.text.now) }
        ensures within { MoveWithin result (length self.now.text.now) 1 }
    {
        let c = *self.text.get(i)?;
        let alone = Move::one(c + 1, Mode::Ascii, i + 1);
        let Some(&d) = self.text.get(i + 1) else {
            return Some(alone);
        };
        if c.is_ascii_digit() && d.is_ascii_digit() && self.fits(i + 2, Column::Ascii, n) {
            let w = 130 + 10 * (c - b'0') + (d - b'0');
            return Some(Move::one(w, Mode::Ascii, i + 2));
        }
        Some(alone)
    }

    // Codeword 230 latches to C40, where the n codewords behind it will do.
    fn move_in_ascii(&self, i: usize, n: usize) -> Option<Move>
        requires { i ≤ length self.now.text.now }
        ensures is { move_of result self.now.text.now ≡ move self.now.padded (suc n) in_ascii (drop i self.now.text.now) }
        ensures within { MoveWithin result (length self.now.text.now) 1 }
    {
        if self.fits(i, Column::NoValue, n) {
            return Some(Move::one(LATCH, Mode::C40(Set::Basic), i));
        }
        self.character(i, n)
    }

    // The last codeword in C40 mode: 254, or in an exactly full symbol the last character.
    fn last_in_c40(&self, i: usize, set: Set) -> Move
        requires { i ≤ length self.now.text.now }
        ensures is { move_of (Some result) self.now.text.now ≡ move self.now.padded 1 (in_c40 set) (drop i self.now.text.now) }
        ensures within { MoveWithin (Some result) (length self.now.text.now) 1 }
    {
        match self.text.get(i) {
            Some(&c) if !self.padded => Move::one(c + 1, Mode::Ascii, i + 1),
            _ => Move::one(UNLATCH, Mode::Ascii, i),
        }
    }

    // Codeword 254 returns to ASCII, where no shift 2 or 3 waits and the n codewords behind it will do.
    fn move_in_c40(&self, i: usize, set: Set, n: usize) -> Option<Move>
        requires { (i ≤ length self.now.text.now) × (1 ≤ n) }
        ensures is { move_of result self.now.text.now ≡ move self.now.padded (suc n) (in_c40 set) (drop i self.now.text.now) }
        ensures within { MoveWithin result (length self.now.text.now) 2 }
    {
        if !set.is_unfinished() && self.fits(i, Column::Ascii, n) {
            return Some(Move::one(UNLATCH, Mode::Ascii, i));
        }
        self.pair_of_codewords(i, set, n - 1)
    }

    // The move with n codewords left.
    pub fn next_move(&self, i: usize, mode: Mode, n: usize) -> Option<Move>
        requires { (i ≤ length self.now.text.now) × (1 ≤ n) }
        ensures is { move_of result self.now.text.now ≡ move self.now.padded n (mode_of mode) (drop i self.now.text.now) }
        ensures within { MoveWithin result (length self.now.text.now) n }
    {
        match mode {
            Mode::Ascii => self.move_in_ascii(i, n - 1),
            Mode::C40(set) if n == 1 => Some(self.last_in_c40(i, set)),
            Mode::C40(set) => self.move_in_c40(i, set, n - 1),
        }
    }

    // The n codewords of the text, to the front of the symbol; how many they are.
    pub fn put_codewords(&self, n: usize, symbol: &mut [u8]) -> usize
        requires { n ≤ length symbol.old }
        ensures { Put (write self.now.padded n in_ascii self.now.text.now) n symbol.old symbol.new result }
    {
        let mut mode = Mode::Ascii;
        let mut i = 0;
        let mut done = 0;
        while done < n {
            let Some(m) = self.next_move(i, mode, n - done) else {
                return done;
            };
            done = m.codewords.put(done, symbol);
            mode = m.mode;
            i = m.place;
        }
        done
    }
}
