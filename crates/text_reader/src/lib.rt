// Received a text: the zone field by field over the dictionary's rows, and then the whole, header, zone and signature. The signed
// part is given back as a part of the caller's text.

#![tactic(auto)]

ghost use Rattle.std.specs.Prelude.{◌≡◌, [], suc, ◌+◌, ◌-◌, ◌≤◌, ◌<◌, length, drop, IfOk};
ghost use Rattle.std.proofs.Math.Seq.{slice};
ghost use Rattle.refusal.specs.Limits.{limit, most_fields};
ghost use Rattle.refusal.specs.Said.{says, turned};
ghost use Rattle.dictionary.specs.Rows.{rows, row_count};
ghost use Rattle.dictionary.specs.inner.Lookup.{so_far};
ghost use Rattle.header.specs.Header.{size};
ghost use Rattle.text.specs.Zone.{does, read_data, zone};
ghost use Rattle.text_reader.specs.Answers.{received, TextPromised, PartPromised};
ghost use Rattle.text_reader.specs.inner.Code.{piece_of, Marks, with_rest, behind};

use arrayvec::ArrayVec;
use dictionary::{Field, Fields, ROW_COUNT, Row};
use header::{Header, HeaderRead};
use refusal::{LIMIT, MOST_FIELDS, Reason, Refusal};
use text::{CUT_MARK, Does, SEPARATOR};

// A message that was read, and the length of the signed part.
#[derive(Debug, PartialEq, Eq, Drop)]
pub struct TextRead {
    pub header: Header,
    pub fields: Fields,
    pub signature: ArrayVec<u8, 132>,
    pub signed_length: usize,
}

// The data of a field: their length, whether they are cut, and the place behind them and their separator.
#[derive(Clone, Copy, Debug, PartialEq, Eq)]
struct DataRead {
    length: usize,
    cut: bool,
    next: usize,
}

// A field, and the place behind it.
#[derive(Clone, Copy, Debug, PartialEq, Eq)]
struct FieldRead {
    field: Field,
    next: usize,
}

// What the character c does behind the n characters of data that start at `start`: a 29 ends variable data, a 30 cuts them
// short, also behind data that have their greatest length already; behind fixed data neither is looked for.
#[tactic(auto, using(crate::proofs::Steps::so_long), unfolding(text::specs::Zone::does))]
fn act(row: Row, text: &[u8], start: usize, n: usize, c: u8) -> Does
    requires { start + n ≤ length text.now }
    ensures { result ≡ does row (so_far text.now start n) c }
{
    let free = !row.is_fixed();
    if free && c == CUT_MARK {
        return Does::Cuts;
    }
    if row.is_full(n) {
        return Does::Follows; // full data need no separator
    }
    if free && c == SEPARATOR {
        return Does::Ends;
    }
    if row.may_stand(text, start, n, c) {
        return Does::More;
    }
    Does::Wrong
}

// The data of a row whose identifier stands at `id`, left to right; the text is that up to the zone's end.
#[tactic(auto, using(crate::proofs::Steps::step, crate::proofs::Steps::at_char, crate::proofs::Steps::at_end))]
fn read_data(row: Row, text: &[u8], id: usize) -> Result<DataRead, Refusal>
    requires { (id + 2 ≤ length text.now) × (length text.now ≤ limit) }
    ensures says { turned (piece_of text.now (id + 2)) (says result) ≡ read_data row id [] (id + 2) (drop (id + 2) text.now) }
    ensures fits { IfOk result (λ x. (id + 2 + x.length ≤ x.next) × (x.next ≤ length text.now)) }
{
    let start = id + 2;
    for p in start..text.len() {
        let length = p - start;
        let (cut, next) = match act(row, text, start, length, text[p]) {
            Does::More => continue,
            Does::Ends => (false, p + 1),
            Does::Cuts => (true, p + 1),
            Does::Follows => (false, p),
            Does::Wrong => return Err(Reason::WrongCharacter.at(p)),
        };
        return Ok(DataRead { length, cut, next });
    }
    let end = text.len();
    let length = end - start;
    if row.is_full(length) {
        return Ok(DataRead {
            length,
            cut: false,
            next: end,
        });
    }
    Err(Reason::ZoneEndsInside.at(id))
}

// The field whose identifier stands at p, behind `fields`, which take the rows that are marked in `used`.
// In this order: 17 for half an identifier, 16, 20, 27, then the data with 18 and 17 as they come, and 19.
#[tactic(auto, using(crate::proofs::Turns::half, crate::proofs::Turns::whole, crate::proofs::Steps::so_long))]
fn read_field(
    text: &[u8],
    p: usize,
    fields: &Fields,
    used: &[bool; ROW_COUNT],
) -> Result<FieldRead, Refusal>
    requires { (p < length text.now) × (length text.now ≤ limit) × (length fields.now.items ≤ most_fields) × Marks used.now fields.now.items }
    ensures says { with_rest text.now fields.now.items result ≡ zone rows (most_fields - length fields.now.items) fields.now.items p (drop p text.now) }
    ensures fits { IfOk result (λ x. (p < x.next) × (x.next ≤ length text.now) × (x.field.row < row_count) × (length fields.now.items < most_fields)) }
{
    if p + 1 == text.len() {
        return Err(Reason::ZoneEndsInside.at(p));
    }
    let found = dictionary::find_row(text[p], text[p + 1]);
    let (number, row) = found.ok_or(Reason::UnknownIdentifier.at(p))?;
    prove!(number < ROW_COUNT);
    if used[number] {
        return Err(Reason::IdentifierRepeated.at(p));
    }
    if fields.is_full() {
        return Err(Reason::TooManyFields.at(p));
    }
    let data = read_data(row, text, p)?;
    if data.length < row.least {
        return Err(Reason::DataTooShort.at(p));
    }
    let field = Field {
        row: number as u16,
        cut: data.cut,
        start: (p + 2) as u32,
        length: data.length as u32,
    };
    Ok(FieldRead {
        field,
        next: data.next,
    })
}

// The fields in the order in which they stand, no identifier twice, perhaps none at all. The zone is the text's end from `start` on.
#[tactic(auto, using(crate::proofs::Zones::at_end, crate::proofs::Zones::marks_more))]
fn read_zone(text: &[u8], start: usize) -> Result<Fields, Refusal>
    requires { (start ≤ length text.now) × (length text.now ≤ limit) }
    ensures { turned (λ x. x.items) (says result) ≡ zone rows most_fields [] start (drop start text.now) }
{
    let mut used = [false; ROW_COUNT];
    let mut fields = Fields::new();
    let mut p = start;
    while p < text.len() {
        let x = read_field(text, p, &fields, &used)?;
        used[usize::from(x.field.row)] = true;
        fields.push(x.field);
        p = x.next;
    }
    Ok(fields)
}

// Behind the header: the zone up to the mark 31, then the signature behind it.
#[tactic(auto, using(crate::proofs::Whole::unkept, crate::proofs::Whole::signed_is, crate::proofs::Whole::rest_is))]
fn read_behind(text: &[u8], head: HeaderRead, mark: usize) -> Result<TextRead, Refusal>
    requires { (size head.version ≤ mark) × (mark < length text.now) × (length text.now ≤ limit) }
    ensures says { turned received (says result) ≡ behind head (slice (size head.version) mark text.now) (drop (suc mark) text.now) }
    ensures fits { IfOk result (λ x. x.signed_length ≤ length text.now) }
{
    let fields = read_zone(&text[..mark], head.version.size())?;
    let p = mark + 1;
    let signature = text::read_signature(&text[p..], p, head.version)?;
    Ok(TextRead {
        header: head.header,
        fields,
        signature,
        signed_length: mark,
    })
}

// A text, whose fields are to go into a lent list of `room` records. First 5 and 6, then the text itself.
#[tactic(auto, using(crate::proofs::Whole::headed), unfolding(text::specs::Text::read_text, text::specs::Text::reading))]
pub fn read_text(text: &[u8], room: usize) -> Result<TextRead, Refusal>
    ensures says { TextPromised text.now room result }
    ensures fits { IfOk result (λ x. x.signed_length ≤ length text.now) }
{
    if text.len() > LIMIT {
        return Err(Reason::TextTooLong.at(LIMIT));
    }
    if room < MOST_FIELDS {
        return Err(Reason::LentTooShort.at(0));
    }
    let head = header::read_header(text)?;
    let mark = text::find_mark(text, head.version.size()).ok_or(Reason::NoMark.at(text.len()))?;
    read_behind(text, head, mark)
}

// Header and zone, as a part of the caller's text that ends before the 31; of a refused text, nothing.
pub fn signed_part(text: &[u8]) -> &[u8]
    ensures { PartPromised text.now result.now }
{
    let Ok(read) = read_text(text, MOST_FIELDS) else {
        return &text[..0];
    };
    &text[..read.signed_length]
}
