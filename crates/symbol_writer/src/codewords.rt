// What is stored in the symbol: codewords, and the pads behind them.
ghost use Rattle.std.specs.Prelude.{◌≡◌, ◌+◌, ◌++◌, ◌-◌, ◌≤◌, length, take, drop};
ghost use Rattle.codeword.specs.Sizes.{most_codewords};
ghost use Rattle.optimum.specs.Write.{padding};
ghost use Rattle.symbol_writer.specs.Moves.{words};
ghost use Rattle.symbol_writer.specs.Codewords.{put_words};

use super::moves::Codewords;

impl Codewords {
    // Stores them from the place `at` on, and answers the place behind them.
    pub fn put(self, at: usize, symbol: &mut [u8]) -> usize
        requires { at + length (words self) ≤ length symbol.old }
        ensures { (result ≡ at + length (words self)) × (symbol.new ≡ put_words self at symbol.old) }
    {
        match self {
            Codewords::One(w) => {
                symbol[at] = w;
                at + 1
            }
            Codewords::Two(v, w) => {
                symbol[at] = v;
                symbol[at + 1] = w;
                at + 2
            }
        }
    }
}

// Pads, from the place `first` on up to the capacity.
pub fn put_pads(symbol: &mut [u8], first: usize, capacity: usize)
    requires { (first ≤ capacity) × (capacity ≤ length symbol.old) × (capacity ≤ most_codewords) }
    ensures { symbol.new ≡ (take first symbol.old ++ padding first first (capacity - first)) ++ drop capacity symbol.old }
{
    for i in first..capacity {
        symbol[i] = codeword::pad_at(first, i);
    }
}
