// The choice of the size: the smallest capacity with a sequence that reads as the text, and within it the fewest codewords.
ghost use Rattle.std.specs.Prelude.{◌≡◌, ◌≤◌, false, List, ℕ};
ghost use Rattle.codeword.specs.Sizes.{capacities, most_codewords};
ghost use Rattle.optimum.specs.Cost.{asc, cost};
ghost use Rattle.optimum.specs.Write.{choose, fewest};
ghost use Rattle.symbol_writer.specs.Rows.{least_of};

use super::costs::Least;

// The capacity, the codewords before the pads, and whether there is a pad.
#[derive(Clone, Copy, Debug, PartialEq, Eq)]
pub struct Size {
    pub capacity: usize,
    pub used: usize,
    pub padded: bool,
    pub ghost room: { used ≤ capacity },
    pub ghost most: { capacity ≤ most_codewords },
}

impl Size {
    ghost use Rattle.symbol_writer.specs.Sizes.{choice_of};

    // The sizes up to the largest permitted, from the smallest: with a pad behind the fewest codewords, or exactly full.
    pub fn choose(largest: usize, shortest: usize, full: Least) -> Option<Size>
        ensures { (t : List ℕ) → shortest ≡ fewest t → full ≡ least_of (cost false t asc) → choice_of result ≡ choose capacities largest t }
    {
        for &capacity in codeword::all_capacities() {
            if largest < capacity {
                return None;
            }
            if shortest < capacity {
                return Some(Size {
                    capacity,
                    used: shortest,
                    padded: true,
                });
            }
            if full.allows(capacity) {
                return Some(Size {
                    capacity,
                    used: capacity,
                    padded: false,
                });
            }
        }
        None
    }
}
