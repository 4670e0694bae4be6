// The header of a 2D-DOC text, read and written: its version, its parts, and the days as numbers.

#![tactic(auto)]

ghost use Rattle.std.specs.Prelude.{true, ◌≡◌, ℕ, ◌+◌, ◌≤◌, ◌<◌, length, get_or, map};
ghost use Rattle.std.specs.List.{AllPass};
ghost use Rattle.std.specs.Result.{IfOk};
ghost use Rattle.refusal.specs.Over.{over};
ghost use Rattle.refusal.specs.Said.{says, turned};
ghost use Rattle.header.specs.Header.{size, has_perimeter, has_country, version_of, version_chars, part, parts, hex, hex_value, hex_char, number, digits, read_header, header_chars, write_header};
ghost use Rattle.header.specs.inner.Code.{has, Passed, version_says, perimeter_in, country_in, head_read};

use refusal::{Reason, Refusal};

// The parts of a header, the days of issue and of signing as numbers; a part that the version lacks is two zeros after reading.
#[repr(C)]
#[derive(Clone, Copy, Debug, PartialEq, Eq, Default)]
pub struct Header {
    pub version: [u8; 2],
    pub authority: [u8; 4],
    pub certificate: [u8; 4],
    pub issue_day: u16,
    pub signing_day: u16,
    pub doctype: [u8; 2],
    pub perimeter: [u8; 2],
    pub country: [u8; 2],
}

// The versions of the header.
#[derive(Clone, Copy, Debug, PartialEq, Eq)]
pub enum Version {
    V02,
    V03,
    V04,
}

impl Version {
    // The version with these two characters.
    pub fn from_chars(chars: [u8; 2]) -> Option<Version>
        ensures { version_says result ≡ version_of (get_or chars 0 0) (get_or chars 1 0) }
    {
        match &chars {
            b"02" => Some(Version::V02),
            b"03" => Some(Version::V03),
            b"04" => Some(Version::V04),
            _ => None,
        }
    }

    // The two characters that name it.
    pub fn chars(self) -> [u8; 2]
        ensures { result ≡ version_chars self }
    {
        match self {
            Version::V02 => *b"02",
            Version::V03 => *b"03",
            Version::V04 => *b"04",
        }
    }

    // How many characters its header has.
    pub fn size(self) -> usize
        ensures { result ≡ size self }
    {
        match self {
            Version::V02 => 22,
            Version::V03 => 24,
            Version::V04 => 26,
        }
    }

    // From 03 on.
    fn has_perimeter(self) -> bool
        ensures { result ≡ has_perimeter self }
    {
        matches!(self, Version::V03 | Version::V04)
    }

    // In 04 alone.
    fn has_country(self) -> bool
        ensures { result ≡ has_country self }
    {
        matches!(self, Version::V04)
    }
}

// A header that was read, with its version.
#[derive(Clone, Copy, Debug, PartialEq, Eq)]
pub struct HeaderRead {
    pub version: Version,
    pub header: Header,
}

// The sets of characters of which a header's parts are.
#[derive(Clone, Copy, Debug, PartialEq, Eq)]
enum Set {
    Upper,
    UpperOrDigit,
    Hex,
}

impl Set {
    // Whether a character is of the set.
    fn has(self, c: u8) -> bool
        ensures { result ≡ has self c }
    {
        match self {
            Set::Upper => c.is_ascii_uppercase(),
            Set::UpperOrDigit => matches!(c, b'A'..=b'Z' | b'0'..=b'9'),
            Set::Hex => matches!(c, b'0'..=b'9' | b'A'..=b'F'),
        }
    }
}

// The characters from a place on, one of each of the sets in turn; 13 at the first that is not.
#[tactic(auto, using(crate::proofs::Parts::part_good, crate::proofs::Parts::part_bad))]
fn part<const N: usize>(text: &[u8], at: usize, sets: [Set; N]) -> Result<[u8; N], Refusal>
    requires { at + N ≤ length text.now }
    ensures says { says result ≡ part (map has sets.entry) at text.now }
    ensures passed { IfOk result (λ chars. Passed sets.entry chars N) }
{
    let mut chars = [0; N];
    chars.copy_from_slice(&text[at..at + N]);
    for i in 0..N {
        if !sets[i].has(chars[i]) {
            return Err(Reason::WrongHeaderCharacter.at(at + i));
        }
    }
    Ok(chars)
}

// The perimeter is 01, where the version has one.
fn read_perimeter(text: &[u8], v: Version) -> Result<[u8; 2], Refusal>
    requires { size v ≤ length text.now }
    ensures { says result ≡ perimeter_in v text.now }
{
    if !v.has_perimeter() {
        return Ok([0; 2]);
    }
    if text[22..24] != [b'0', b'1'] {
        return Err(Reason::WrongPerimeter.at(22));
    }
    Ok(*b"01")
}

// The country, where the version has one.
fn read_country(text: &[u8], v: Version) -> Result<[u8; 2], Refusal>
    requires { size v ≤ length text.now }
    ensures { says result ≡ country_in v text.now }
{
    if !v.has_country() {
        return Ok([0; 2]);
    }
    part(text, 24, [Set::Upper; 2])
}

// The value of an upper-case hexadecimal digit.
fn hex_value(c: u8) -> u16
    requires { hex c ≡ true }
    ensures is { result ≡ hex_value c }
    ensures small { result < 16 }
{
    if c <= b'9' {
        u16::from(c - b'0')
    } else {
        u16::from(c - b'A' + 10)
    }
}

// The number that four upper-case hexadecimal digits write.
#[tactic(auto, unfolding(crate::specs::Header::number))]
fn number(digits: [u8; 4]) -> u16
    requires { AllPass hex digits }
    ensures { result ≡ number digits }
{
    let a = hex_value(digits[0]);
    let b = hex_value(digits[1]);
    let c = hex_value(digits[2]);
    let d = hex_value(digits[3]);
    4096 * a + 256 * b + 16 * c + d
}

// The header's parts, left to right.
#[tactic(auto, unfolding(crate::specs::Header::parts))]
fn read_parts(text: &[u8], v: Version) -> Result<Header, Refusal>
    requires { size v ≤ length text.now }
    ensures { says result ≡ parts v text.now }
{
    let authority = part(
        text,
        4,
        [Set::Upper, Set::Upper, Set::UpperOrDigit, Set::UpperOrDigit],
    )?;
    let certificate = part(text, 8, [Set::UpperOrDigit; 4])?;
    let issue_day = part(text, 12, [Set::Hex; 4])?;
    let signing_day = part(text, 16, [Set::Hex; 4])?;
    let doctype = part(text, 20, [Set::UpperOrDigit; 2])?;
    let perimeter = read_perimeter(text, v)?;
    let country = read_country(text, v)?;
    Ok(Header {
        version: v.chars(),
        authority,
        certificate,
        issue_day: number(issue_day),
        signing_day: number(signing_day),
        doctype,
        perimeter,
        country,
    })
}

// The header: 10 below 22 characters, 11, 12, 10 for the version's length, then its parts left to right.
#[tactic(auto, unfolding(crate::specs::Header::read_header, crate::specs::Header::known))]
pub fn read_header(text: &[u8]) -> Result<HeaderRead, Refusal>
    ensures { says result ≡ turned head_read (read_header text.now) }
{
    let n = text.len();
    if n < 22 {
        return Err(Reason::HeaderTooShort.at(n));
    }
    if !text.starts_with(b"DC") {
        return Err(Reason::NotDc.at(0));
    }
    let version = Version::from_chars([text[2], text[3]]).ok_or(Reason::UnknownVersion.at(2))?;
    if n < version.size() {
        return Err(Reason::HeaderTooShort.at(n));
    }
    let header = read_parts(text, version)?;
    Ok(HeaderRead { version, header })
}

// The upper-case hexadecimal digit of a value below 16.
fn hex_char(v: u16) -> u8
    requires { v < 16 }
    ensures { result ≡ hex_char v }
{
    let v = v as u8;
    if v < 10 { b'0' + v } else { b'A' + (v - 10) }
}

// A day as four of them, the highest first.
#[tactic(auto, unfolding(crate::specs::Header::digits))]
fn digits(n: u16) -> [u8; 4]
    ensures { result ≡ digits n }
{
    [
        hex_char(n / 4096),
        hex_char(n / 256 % 16),
        hex_char(n / 16 % 16),
        hex_char(n % 16),
    ]
}

// The version of a header that is to be written.
pub fn header_version(h: Header) -> Option<Version>
    ensures { version_says result ≡ version_of (get_or h.version 0 0) (get_or h.version 1 0) }
{
    Version::from_chars(h.version)
}

// The header's characters, over the front of the output.
pub fn write_header(h: Header, v: Version, out: &mut [u8])
    requires { size v ≤ length out.old }
    ensures { out.new ≡ over (header_chars v h) out.old }
{
    out[..2].copy_from_slice(b"DC");
    out[2..4].copy_from_slice(&v.chars());
    out[4..8].copy_from_slice(&h.authority);
    out[8..12].copy_from_slice(&h.certificate);
    out[12..16].copy_from_slice(&digits(h.issue_day));
    out[16..20].copy_from_slice(&digits(h.signing_day));
    out[20..22].copy_from_slice(&h.doctype);
    if v.has_perimeter() {
        out[22..24].copy_from_slice(&h.perimeter);
    }
    if v.has_country() {
        out[24..26].copy_from_slice(&h.country);
    }
}

// What is wrong in a header that is to be written: 12, and what reading its characters would refuse.
#[tactic(auto, using(crate::proofs::Writes::in_front))]
pub fn check_header(h: Header) -> Result<(), Refusal>
    ensures { says result ≡ turned (λ _. tt) (write_header h) }
{
    let v = header_version(h).ok_or(Reason::UnknownVersion.at(2))?;
    let mut chars = [0; 26];
    write_header(h, v, &mut chars);
    read_parts(&chars[..v.size()], v)?;
    Ok(())
}
