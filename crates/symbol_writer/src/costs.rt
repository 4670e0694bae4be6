// The costs: the least number of codewords, even and odd, from each place of the text to its end, filled from the end of the text.
// A row of eight costs for each place stands in the lent work slice; the costs at the place behind are kept in locals.

ghost use Rattle.std.specs.Prelude.{◌≡◌, ◌+◌, ◌≤◌, leb, length};
ghost use Rattle.refusal.specs.Limits.{limit};
ghost use Rattle.optimum.specs.Cost.{base, before, cost};
ghost use Rattle.optimum.specs.Write.{odd};
ghost use Rattle.symbol_writer.specs.Rows.{work_room, place_in_row, column_behind, least_at, lesser, one_more, two_more, costs_of, k_of, Below, Low, put_at, Filled};

use codeword::Set;

// More than any capacity: no codewords will do.
const NEVER: u16 = 8192;

// How many numbers a row has.
pub const ROW: usize = 8;

// The least even and the least odd number of codewords.
#[derive(Clone, Copy, Debug, PartialEq, Eq)]
pub struct Least {
    pub even: u16,
    pub odd: u16,
}

impl Least {
    const NEVER: Least = Least {
        even: NEVER,
        odd: NEVER,
    };

    // The lesser of each parity.
    fn min(self, other: Least) -> Least
        ensures { result ≡ lesser self other }
    {
        Least {
            even: self.even.min(other.even),
            odd: self.odd.min(other.odd),
        }
    }

    // One codeword more: even counts become odd, and odd ones even.
    fn one_more(self) -> Least
        requires { Below 65000 self }
        ensures { result ≡ one_more self }
    {
        Least {
            even: self.odd + 1,
            odd: self.even + 1,
        }
    }

    // Two codewords more.
    fn two_more(self) -> Least
        requires { Below 65000 self }
        ensures { result ≡ two_more self }
    {
        Least {
            even: self.even + 2,
            odd: self.odd + 2,
        }
    }

    // Whether exactly n codewords will do: the cost of n's parity decides.
    pub fn allows(self, n: usize) -> bool
        ensures { result ≡ leb (least_at self (odd n)) n }
    {
        let cost = if n % 2 == 0 { self.even } else { self.odd };
        usize::from(cost) <= n
    }
}

// By the state of the writer: in ASCII mode, behind the first digit of two, in C40 mode with none, one or two values in the pair,
// and at the very end of the text.
#[derive(Clone, Copy, Debug, PartialEq, Eq)]
pub struct Costs {
    pub ascii: Least,
    pub digit: Least,
    pub none: Least,
    pub one: Least,
    pub two: Least,
    pub end: Least,
}

impl Costs {
    // The costs at the end of the text, where a pad follows or the symbol is exactly full.
    #[tactic(auto, unfolding(optimum::specs::Cost::base))]
    fn at_end(padded: bool) -> Costs
        ensures { result ≡ costs_of (base padded) }
    {
        let (full_even, full_odd) = if padded { (NEVER, NEVER) } else { (0, 1) };
        Costs {
            ascii: Least {
                even: 0,
                odd: full_odd,
            },
            digit: Least::NEVER,
            none: Least {
                even: full_even,
                odd: 1,
            },
            one: Least::NEVER,
            two: Least {
                even: full_even + 2,
                odd: 3,
            },
            end: Least {
                even: full_even,
                odd: NEVER,
            },
        }
    }

    // The costs in front of a character, from those behind it.
    fn before(self, c: u8) -> Costs
        requires { Low self }
        ensures { result ≡ costs_of (before c (k_of self)) }
    {
        let is_digit = c.is_ascii_digit();
        let is_basic = codeword::is_basic(c);
        // a character, or the first of two digits
        let (digit, digits) = if is_digit {
            (self.ascii, self.digit.one_more())
        } else {
            (Least::NEVER, Least::NEVER)
        };
        let chars = self.ascii.one_more().min(digits);
        // the first value of a pair, the second, with which and a third the pair is full, and the third: a character has one value or two
        let (first, one, third) = if is_basic {
            (self.one, self.two, self.none)
        } else {
            (self.two, self.none.two_more(), self.one)
        };
        // or the lone last codeword
        let lone = self.end.one_more();
        let values = lone.min(first);
        // on in the same mode, or a codeword to change it
        let ascii = chars.min(values.one_more());
        let none = chars.one_more().min(values);
        // the third value may be filler too, and back to ASCII mode or to the lone last codeword
        let filler = ascii.one_more().min(lone);
        let two = filler.min(third).two_more();
        Costs {
            ascii,
            digit,
            none,
            one,
            two,
            end: Least::NEVER,
        }
    }

    // Stores the row in the work slice, from the place `at` on: of the costs the eight that the writing asks for again.
    fn store(self, work: &mut [u16], at: usize)
        requires { at + 8 ≤ length work.old }
        ensures { work.new ≡ put_at work.old at self }
    {
        work[at] = self.ascii.even;
        work[at + 1] = self.ascii.odd;
        work[at + 2] = self.none.even;
        work[at + 3] = self.none.odd;
        work[at + 4] = self.one.even;
        work[at + 5] = self.one.odd;
        work[at + 6] = self.two.even;
        work[at + 7] = self.two.odd;
    }
}

// Where a row holds the costs: in ASCII mode, in C40 mode with no value in the pair, and with one.
#[derive(Clone, Copy, Debug, PartialEq, Eq)]
pub enum Column {
    Ascii = 0,
    NoValue = 2,
    OneValue = 4,
}

impl Column {
    pub fn place_in_row(self) -> usize
        ensures { result ≡ place_in_row self }
    {
        self as usize
    }

    // Behind a third value that is a whole character the next pair has no value yet; behind a shift it is to have one.
    pub fn behind(set: Set) -> Column
        ensures { result ≡ column_behind set }
    {
        match set {
            Set::Basic => Column::NoValue,
            Set::Set1 | Set::Set2 | Set::Set3 => Column::OneValue,
        }
    }
}

// Every row, from the end of the text to its beginning, and the costs there.
pub fn fill(text: &[u8], padded: bool, work: &mut [u16]) -> Costs
    requires { (length text.now ≤ limit) × (work_room ≤ length work.old) }
    ensures { (result ≡ costs_of (cost padded text.now)) × (Filled padded text.now work.old work.new 0) }
{
    let mut costs = Costs::at_end(padded);
    costs.store(work, ROW * text.len());
    for i in (0..text.len()).rev() {
        costs = costs.before(text[i]);
        costs.store(work, ROW * i);
    }
    costs
}
