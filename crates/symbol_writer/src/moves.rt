// What one move of the writer is: a codeword or two, and what they leave.
ghost use Rattle.std.specs.Prelude.{◌≡◌, ◌/◌, ◌%◌, ◌<◌};
ghost use Rattle.optimum.specs.Write.{pack};

use codeword::Set;

#[derive(Clone, Copy, Debug, PartialEq, Eq)]
pub enum Mode {
    Ascii,
    C40(Set),
}

// The next value of a pair, the set that it leaves, and the place of the text behind it.
#[derive(Clone, Copy, Debug, PartialEq, Eq)]
pub struct NextValue {
    pub value: u8,
    pub set: Set,
    pub place: usize,
    pub ghost low: { value < 40 },
}

#[derive(Clone, Copy, Debug, PartialEq, Eq)]
pub enum Codewords {
    One(u8),
    Two(u8, u8),
}

impl Codewords {
    // Three values as two codewords: v = 1600x + 40y + z, and 256a + b is v + 1.
    pub fn of_values(x: u8, y: u8, z: u8) -> Codewords
        requires { (x < 40) × (y < 40) × (z < 40) }
        ensures { result ≡ Codewords.Two (pack x y z / 256) (pack x y z % 256) }
    {
        let v = 1600 * u16::from(x) + 40 * u16::from(y) + u16::from(z) + 1;
        let [a, b] = v.to_be_bytes();
        Codewords::Two(a, b)
    }
}

// A codeword or two, the mode that they leave, and the place of the text behind them.
#[derive(Clone, Copy, Debug, PartialEq, Eq)]
pub struct Move {
    pub codewords: Codewords,
    pub mode: Mode,
    pub place: usize,
}

impl Move {
    pub fn one(w: u8, mode: Mode, place: usize) -> Move
        ensures { result ≡ record { codewords = Codewords.One w; mode = mode; place = place } }
    {
        Move {
            codewords: Codewords::One(w),
            mode,
            place,
        }
    }
}
