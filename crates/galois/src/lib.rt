// The field of 256 elements with polynomial 301 (document 02, K3): products by tables of powers and logarithms, which are tied to the
// definition by proof.

#![tactic(auto)]

mod tables;

ghost use Rattle.std.specs.Prelude.{◌≡◌, true, get_or};
ghost use Rattle.galois.specs.Field.{◌⊗◌};
ghost use Rattle.galois.specs.Tables.{powers, logs, is_log, element_of};

use tables::{LOGS, POWERS};

// The logarithm of a; that of 0 is 510.
pub fn log_of(a: u8) -> usize
    ensures { (result ≡ get_or logs a 0) × (is_log result ≡ true) × (element_of result ≡ a) }
{
    usize::from(LOGS[usize::from(a)])
}

// The element with the logarithm m, times b.
#[tactic(auto, using(crate::proofs::Powers::table_product), unfolding(crate::specs::Tables::powers, crate::specs::Tables::turns))]
pub fn times(m: usize, b: u8) -> u8
    requires { is_log m ≡ true }
    ensures { result ≡ element_of m ⊗ b }
{
    POWERS[m + log_of(b)]
}

// The product of a and b.
pub fn product(a: u8, b: u8) -> u8
    ensures { result ≡ a ⊗ b }
{
    times(log_of(a), b)
}
