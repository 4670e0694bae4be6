// Base32 of RFC 4648 without padding: characters to bytes and back, in groups of eight characters and five bytes.

#![tactic(auto)]

ghost use Rattle.std.specs.Prelude.{true, ◌≡◌, ◌++◌, ◌+◌, ◌-◌, ◌*◌, ◌/◌, ◌%◌, ◌≤◌, ◌<◌, length, get_or};
ghost use Rattle.std.specs.List.{AllPass};
ghost use Rattle.arrayvec.specs.ArrayVec.{array_vec_len};
ghost use Rattle.refusal.specs.Over.{over};
ghost use Rattle.base32.specs.Base32.{in_alphabet, value_of, char_of, decoded, encoded};
ghost use Rattle.base32.specs.inner.Code.{spare_in};

use arrayvec::ArrayVec;

// A to Z and 2 to 7.
pub fn in_alphabet(c: u8) -> bool
    ensures { result ≡ in_alphabet c }
{
    matches!(c, b'A'..=b'Z' | b'2'..=b'7')
}

// The value of a character of the alphabet.
fn value_of(c: u8) -> u8
    requires { in_alphabet c ≡ true }
    ensures is { result ≡ value_of c }
    ensures small { result < 32 }
{
    if c < b'A' { c - b'2' + 26 } else { c - b'A' }
}

// The character of a value below 32.
fn char_of(v: u8) -> u8
    requires { v < 32 }
    ensures { result ≡ char_of v }
{
    if v < 26 { b'A' + v } else { b'2' + (v - 26) }
}

// Eight characters, as five bytes.
fn read_group(chars: &[u8; 8]) -> [u8; 5]
    requires { AllPass in_alphabet chars.now }
    ensures { result ≡ decoded chars.now }
{
    let a = value_of(chars[0]);
    let b = value_of(chars[1]);
    let c = value_of(chars[2]);
    let d = value_of(chars[3]);
    let e = value_of(chars[4]);
    let f = value_of(chars[5]);
    let g = value_of(chars[6]);
    let h = value_of(chars[7]);
    [
        8 * a + b / 4,
        64 * (b % 4) + 2 * c + d / 16,
        16 * (d % 16) + e / 2,
        128 * (e % 2) + 4 * f + g / 8,
        32 * (g % 8) + h,
    ]
}

// More bytes behind those that are there.
fn append(bytes: &mut ArrayVec<u8, 132>, more: &[u8])
    requires { array_vec_len bytes.old + length more.now ≤ 132 }
    ensures { bytes.new.items ≡ bytes.old.items ++ more.now }
{
    for &byte in more {
        bytes.push(byte);
    }
}

// The bytes of at most 212 characters of the alphabet. The last characters, fewer than eight, are filled up with A, whose value is 0:
// of that group the whole bytes count.
pub fn read_base32(chars: &[u8]) -> ArrayVec<u8, 132>
    requires alphabet { AllPass in_alphabet chars.now }
    requires short { length chars.now ≤ 212 }
    ensures { result.items ≡ decoded chars.now }
{
    let mut bytes = ArrayVec::new();
    let (groups, rest) = chars.as_chunks::<8>();
    for group in groups {
        append(&mut bytes, &read_group(group));
    }
    let n = rest.len();
    let mut last = [b'A'; 8];
    last[..n].copy_from_slice(rest);
    append(&mut bytes, &read_group(&last)[..5 * n / 8]);
    bytes
}

// The spare low bits of the last character.
pub fn spare_bits(chars: &[u8]) -> u8
    requires { AllPass in_alphabet chars.now }
    ensures { result ≡ spare_in (length chars.now % 8) (value_of (get_or chars.now (length chars.now - 1) 0)) }
{
    let Some(&last) = chars.last() else {
        return 0;
    };
    let v = value_of(last);
    match chars.len() % 8 {
        0 => 0,
        2 => v % 4,
        4 => v % 16,
        5 => v % 2,
        7 => v % 8,
        _ => v,
    }
}

// Five bytes, as eight characters.
#[tactic(auto, using(crate::proofs::Groups::five_bytes))]
fn write_group(bytes: &[u8; 5]) -> [u8; 8]
    ensures { result ≡ encoded bytes.now }
{
    let [a, b, c, d, e] = *bytes;
    [
        char_of(a / 8),
        char_of(4 * (a % 8) + b / 64),
        char_of(b / 2 % 32),
        char_of(16 * (b % 2) + c / 16),
        char_of(2 * (c % 16) + d / 128),
        char_of(d / 4 % 32),
        char_of(8 * (d % 4) + e / 32),
        char_of(e % 32),
    ]
}

// The characters of the bytes, over the front of the output. The last bytes, fewer than five, are filled up with zeros: of that group
// the characters that hold their bits count.
pub fn write_base32(bytes: &[u8], out: &mut [u8])
    requires { (length bytes.now ≤ 132) × ((8 * length bytes.now + 4) / 5 ≤ length out.old) }
    ensures { out.new ≡ over (encoded bytes.now) out.old }
{
    let (groups, rest) = bytes.as_chunks::<5>();
    for (i, group) in groups.iter().enumerate() {
        out[8 * i..8 * i + 8].copy_from_slice(&write_group(group));
    }
    let n = rest.len();
    let mut last = [0u8; 5];
    last[..n].copy_from_slice(rest);
    let at = 8 * groups.len();
    let k = (8 * n + 4) / 5;
    out[at..at + k].copy_from_slice(&write_group(&last)[..k]);
}
