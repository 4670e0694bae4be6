// Writes a message as a text. A first pass finds what is to be refused and how long the text is, and writes nothing; a second
// pass writes. So a refusal leaves the output as it was.

#![tactic(auto)]

ghost use Rattle.std.specs.Prelude.{◌≡◌, ◌==◌, [], ◌+◌, ◌*◌, ◌/◌, ◌<◌, ◌≤◌, length, get_or, IfOk, All};
ghost use Rattle.refusal.specs.Limits.{most_fields};
ghost use Rattle.refusal.specs.Answers.{good};
ghost use Rattle.refusal.specs.Over.{over};
ghost use Rattle.refusal.specs.Said.{says, turned};
ghost use Rattle.std.specs.List.{list_any};
ghost use Rattle.dictionary.specs.Rows.{rows};
ghost use Rattle.header.specs.Header.{size, version_of};
ghost use Rattle.text.specs.Text.{in_turn, ending, spelled, write_data, write_field, write_zone, writing};
ghost use Rattle.text_writer.specs.Writing.{message_of, WritePromised};
ghost use Rattle.text_writer.specs.inner.Room.{widest, mark_chars, lies_in, field_chars, zone_chars, text_chars};

use dictionary::{Field, Row};
use header::{Header, Version};
use refusal::{LIMIT, MOST_FIELDS, Reason, Refusal};
use text::{CUT_MARK, SEPARATOR, ZONE_END};

// Is a record of this row among those before it?
fn is_taken(row: u16, before: &[Field]) -> bool
    ensures { result ≡ list_any (λ f. row == f.row) before.now }
{
    before.iter().any(|f| row == f.row)
}

// The data of a record, and the row that they are of.
#[derive(Clone, Copy)]
struct Data<'a> {
    row: Row,
    chars: &'a [u8],
    cut: bool,
}

impl Data<'_> {
    // Each character may stand behind those before it.
    #[tactic(auto, using(crate::proofs::Checks::turn, crate::proofs::Checks::turn_end))]
    fn all_stand(self) -> bool
        ensures { result ≡ in_turn self.entry.row [] self.entry.chars.now }
    {
        for (n, &c) in self.chars.iter().enumerate() {
            if !self.row.may_stand(self.chars, 0, n, c) {
                return false;
            }
        }
        true
    }

    // The mark behind the data: 30 if they are cut, 29 if they could be longer, else none.
    fn mark(self) -> Option<u8>
        ensures { mark_chars result ≡ ending self.entry.row self.entry.chars.now self.entry.cut }
    {
        if self.cut {
            return Some(CUT_MARK);
        }
        if self.row.is_full(self.chars.len()) {
            return None;
        }
        Some(SEPARATOR)
    }

    // Of the checks of the i-th record those that look at its data: 26, 25, 18, 19. And the room of identifier, data and mark.
    #[tactic(auto, unfolding(text::specs::Text::write_data))]
    fn room(self, i: usize) -> Result<usize, Refusal>
        requires { length self.chars.now < widest }
        ensures says { says result ≡ turned length (write_data self.entry.row self.entry.chars.now self.entry.cut i) }
        ensures small { IfOk result (λ n. n < widest + 3) }
    {
        let n = self.chars.len();
        if self.cut && self.row.is_fixed() {
            return Err(Reason::FixedCut.at(i));
        }
        if self.row.greatest.is_some_and(|greatest| greatest < n) {
            return Err(Reason::DataTooLong.at(i));
        }
        if !self.all_stand() {
            return Err(Reason::WrongCharacter.at(i));
        }
        if n < self.row.least {
            return Err(Reason::DataTooShort.at(i));
        }
        match self.mark() {
            Some(_) => Ok(n + 3),
            None => Ok(n + 2),
        }
    }

    // Identifier, data and mark over the front of the output, and how many characters they are.
    fn write(self, out: &mut [u8]) -> usize
        requires { (length self.chars.now < widest) × (length (spelled self.row self.chars.now self.cut) ≤ length out.old) }
        ensures is { result ≡ length (spelled self.entry.row self.entry.chars.now self.entry.cut) }
        ensures written { out.new ≡ over (spelled self.entry.row self.entry.chars.now self.entry.cut) out.old }
    {
        let end = self.chars.len() + 2;
        out[0] = self.row.first;
        out[1] = self.row.second;
        refusal::copy_whole(self.chars, &mut out[2..end]);
        match self.mark() {
            Some(mark) => {
                out[end] = mark;
                end + 1
            }
            None => end,
        }
    }
}

// One record, behind those before it. Start and length are added as numbers of 64 bits, so that the sum is exact.
#[tactic(auto, using(crate::proofs::Checks::any_row), unfolding(text::specs::Text::write_field))]
fn room_of_field(field: Field, before: &[Field], source: &[u8]) -> Result<usize, Refusal>
    ensures says { says result ≡ turned length (write_field rows source.now before.now (length before.now) field) }
    ensures small { IfOk result (λ n. n < widest + 3) }
{
    let i = before.len();
    let row = dictionary::row_at(usize::from(field.row)).ok_or(Reason::BadRecord.at(i))?;
    let start = field.start as usize;
    let end = start + field.length as usize;
    let chars = source.get(start..end).ok_or(Reason::BadRecord.at(i))?;
    if is_taken(field.row, before) {
        return Err(Reason::IdentifierRepeated.at(i));
    }
    let data = Data {
        row,
        chars,
        cut: field.cut,
    };
    data.room(i)
}

// The records one by one, to the end of one before the next.
#[tactic(auto, using(crate::proofs::Zones::start, crate::proofs::Zones::next, crate::proofs::Zones::stop))]
fn room_of_zone(fields: &[Field], source: &[u8]) -> Result<usize, Refusal>
    requires { length fields.now ≤ most_fields }
    ensures says { says result ≡ turned length (write_zone rows source.now [] 0 fields.now) }
    ensures small { IfOk result (λ n. n < most_fields * (widest + 3)) }
{
    let mut room = 0;
    for (i, &field) in fields.iter().enumerate() {
        room += room_of_field(field, &fields[..i], source)?;
    }
    Ok(room)
}

// A record's characters over the front of the output, and how many they are.
#[tactic(auto, using(crate::proofs::Fills::data_long))]
fn write_field(field: Field, source: &[u8], out: &mut [u8]) -> usize
    requires { lies_in (length source.now) field × (length (field_chars rows source.now field) ≤ length out.old) }
    ensures is { result ≡ length (field_chars rows source.now field) }
    ensures written { out.new ≡ over (field_chars rows source.now field) out.old }
{
    let Some(row) = dictionary::row_at(usize::from(field.row)) else {
        return 0;
    };
    let start = field.start as usize;
    let end = start + field.length as usize;
    let data = Data {
        row,
        chars: &source[start..end],
        cut: field.cut,
    };
    data.write(out)
}

// The records side by side over the front of the output, and how many characters they are.
fn write_zone(fields: &[Field], source: &[u8], out: &mut [u8]) -> usize
    requires { All (lies_in (length source.now)) fields.now × (length (zone_chars rows source.now fields.now) ≤ length out.old) }
    ensures is { result ≡ length (zone_chars rows source.now fields.now) }
    ensures written { out.new ≡ over (zone_chars rows source.now fields.now) out.old }
{
    let mut p = 0;
    for &field in fields {
        p += write_field(field, source, &mut out[p..]);
    }
    p
}

// A message that is to be written, and its version.
#[derive(Clone, Copy)]
struct Message<'a> {
    header: Header,
    version: Version,
    fields: &'a [Field],
    source: &'a [u8],
    signature: &'a [u8],
}

impl Message<'_> {
    // The room of its text: of the header, then record by record, then 21.
    #[tactic(auto, using(crate::proofs::Texts::text_room, crate::proofs::Texts::header_long))]
    fn room(self) -> Result<usize, Refusal>
        requires { (version_of (get_or self.header.version 0 0) (get_or self.header.version 1 0) ≡ good self.version) × (length self.fields.now ≤ most_fields) }
        ensures { says result ≡ turned length (writing rows (message_of self.entry.header self.entry.fields.now self.entry.signature.now) self.entry.source.now) }
    {
        header::check_header(self.header)?;
        let zone = room_of_zone(self.fields, self.source)?;
        let n = self.signature.len();
        if !matches!(n, 64 | 96 | 132) {
            return Err(Reason::SignatureLength.at(0));
        }
        Ok(self.version.size() + zone + 1 + (8 * n).div_ceil(5))
    }

    // Header, records, the mark 31, and the signature, straight into the tail of the output behind the mark.
    fn write(self, out: &mut [u8])
        requires { All (lies_in (length self.source.now)) self.fields.now × (length self.signature.now ≤ 132) × (size self.version + length (zone_chars rows self.source.now self.fields.now) + 1 + (8 * length self.signature.now + 4) / 5 ≤ length out.old) }
        ensures { out.new ≡ over (text_chars rows self.entry.version self.entry.header self.entry.fields.now self.entry.signature.now self.entry.source.now) out.old }
    {
        let h = self.version.size();
        header::write_header(self.header, self.version, out);
        let mark = h + write_zone(self.fields, self.source, &mut out[h..]);
        out[mark] = ZONE_END;
        base32::write_base32(self.signature, &mut out[mark + 1..]);
    }
}

// A message as a text. In this order: 27; 12, 13, 14 with the place in the header; the records one by one; 21; 5; 6.
#[tactic(auto, using(crate::proofs::Texts::too_many, crate::proofs::Texts::unknown, crate::proofs::Texts::refusal_shown), unfolding(text::specs::Text::write_text))]
pub fn write_text(
    header: Header,
    fields: &[Field],
    source: &[u8],
    signature: &[u8],
    out: &mut [u8],
) -> Result<usize, Refusal>
    ensures { WritePromised header fields.now signature.now source.now out.old out.new result }
{
    if fields.len() > MOST_FIELDS {
        return Err(Reason::TooManyFields.at(MOST_FIELDS));
    }
    let version = header::header_version(header).ok_or(Reason::UnknownVersion.at(2))?;
    let message = Message {
        header,
        version,
        fields,
        source,
        signature,
    };
    let n = message.room()?;
    if n > LIMIT {
        return Err(Reason::TextTooLong.at(LIMIT));
    }
    if n > out.len() {
        return Err(Reason::LentTooShort.at(0));
    }
    message.write(out);
    Ok(n)
}
