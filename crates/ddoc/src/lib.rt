// The C interface (include/ddoc.h): every exported function, with its answer as numbers.

#![tactic(auto)]

ghost use Rattle.std.specs.Prelude.{◌≡◌, length};
ghost use Rattle.refusal.specs.Answers.{good, refused as refuses};
ghost use Rattle.refusal.specs.Said.{number_of};
ghost use Rattle.text_reader.specs.Answers.{received};
ghost use Rattle.codeword.specs.Reading.{read_symbol};
ghost use Rattle.symbol_reader.specs.Answers.{lent_after};
ghost use Rattle.symbol_writer.specs.Promise.{work_left};
ghost use Rattle.check_words.specs.Answers.{words_of, Left};
ghost use Rattle.day_file.specs.Promise.{adding, withdrawing, placing, slice_after};
ghost use Rattle.squeeze.specs.Squeeze.{squeezing, squeezed_slice, olds_after, news_after};
ghost use Rattle.tally.specs.Counting.{counting, tally_after};
ghost use Rattle.ddoc.specs.Answers.{accepted, refused, reading_answer, Writes, listing_answer, message_answer, ReadTextPromised, WriteTextPromised, ConformityAnswered};
ghost use Rattle.ddoc.specs.Files.{added_numbers, withdrawn_numbers, part_numbers, squeezed_numbers, tallied_numbers};

use dictionary::Field;
use header::Header;
use refusal::Refusal;
use tally::Tally;
use text_reader::TextRead;

// Accepted: number 0 and place 0. Refused: length and used 0.
#[repr(C)]
#[derive(Clone, Copy, Debug, PartialEq, Eq)]
pub struct Answer {
    pub number: usize,
    pub place: usize,
    pub length: usize,
    pub used: usize,
}

fn accepted(length: usize, used: usize) -> Answer
    ensures { result ≡ accepted length used }
{
    Answer {
        number: 0,
        place: 0,
        length,
        used,
    }
}

impl From<Refusal> for Answer {
    ghost from_gives = { λ w r. r ≡ refused (number_of w.reason) w.place };

    fn from(w: Refusal) -> Answer {
        Answer {
            number: usize::from(w.reason.number()),
            place: w.place,
            length: 0,
            used: 0,
        }
    }
}

#[unsafe(no_mangle)]
pub extern "C" fn ddoc_read_symbol(codewords: &[u8], text: &mut [u8]) -> Answer
    ensures answer { result ≡ reading_answer (read_symbol codewords.now (length text.old)) }
    ensures lent { text.new ≡ lent_after (read_symbol codewords.now (length text.old)) text.old }
{
    match symbol_reader::read_symbol(codewords, text) {
        Ok(read) => accepted(read.length, read.used),
        Err(w) => w.into(),
    }
}

// The answer's length is the capacity of the symbol written.
#[unsafe(no_mangle)]
pub extern "C" fn ddoc_write_symbol(
    text: &[u8],
    largest: usize,
    work: &mut [u16],
    symbol: &mut [u8],
) -> Answer
    ensures says { Writes text.now largest (length work.old) symbol.old symbol.new result }
    ensures lent { work.new ≡ work_left text.now largest work.old }
{
    match symbol_writer::write_symbol(text, largest, work, symbol) {
        Ok(written) => accepted(written.capacity, written.used),
        Err(w) => w.into(),
    }
}

// The answer's length is that of the list: the data and the check words.
#[unsafe(no_mangle)]
pub extern "C" fn ddoc_check_words(codewords: &[u8], list: &mut [u8]) -> Answer
    ensures answer { result ≡ listing_answer (words_of (length codewords.now) (length list.old)) }
    ensures lent { Left (words_of (length codewords.now) (length list.old)) codewords.now list.old list.new }
{
    match check_words::check_words(codewords, list) {
        Ok(words) => accepted(words, 0),
        Err(w) => w.into(),
    }
}

#[unsafe(no_mangle)]
pub extern "C" fn ddoc_conformity(type0: u8, type1: u8, fields: &[Field]) -> Answer
    ensures { ConformityAnswered type0 type1 fields.now result }
{
    match conformity::conforms(type0, type1, fields) {
        Ok(()) => accepted(0, 0),
        Err(w) => w.into(),
    }
}

// Accepted: number 0 and place 0, and `fields` records stored in the lent list. Refused: all else is zero.
#[repr(C)]
#[derive(Clone, Copy, Debug, PartialEq, Eq)]
pub struct Message {
    pub number: usize,
    pub place: usize,
    pub fields: usize,
    pub signature_length: usize,
    pub signed_length: usize,
    pub header: Header,
    pub signature: [u8; 132],
}

impl From<Refusal> for Message {
    ghost from_gives = { λ w m. m ≡ message_answer (refuses (number_of w.reason) w.place) };

    fn from(w: Refusal) -> Message {
        Message {
            number: usize::from(w.reason.number()),
            place: w.place,
            fields: 0,
            signature_length: 0,
            signed_length: 0,
            header: Header::default(),
            signature: [0; 132],
        }
    }
}

impl From<TextRead> for Message {
    ghost from_gives = { λ r m. m ≡ message_answer (good (received r)) };

    fn from(read: TextRead) -> Message {
        let mut signature = [0; 132];
        signature[..read.signature.len()].copy_from_slice(&read.signature);
        Message {
            number: 0,
            place: 0,
            fields: read.fields.len(),
            signature_length: read.signature.len(),
            signed_length: read.signed_length,
            header: read.header,
            signature,
        }
    }
}

// Where the text is refused the list is as it was.
#[unsafe(no_mangle)]
pub extern "C" fn ddoc_read_text(text: &[u8], fields: &mut [Field]) -> Message
    ensures { ReadTextPromised text.now fields.old fields.new result }
{
    match text_reader::read_text(text, fields.len()) {
        Ok(read) => {
            records::put_all(fields, &read.fields);
            Message::from(read)
        }
        Err(w) => Message::from(w),
    }
}

// The records' data stand in `source`. The answer's length is that of the text written. The list may lie where the output does, so its records are
// taken out of it before a byte is written; of more than 64 none is looked at.
#[unsafe(no_mangle)]
pub extern "C" fn ddoc_write_text(
    header: Header,
    fields: &[Field],
    source: &[u8],
    signature: &[u8],
    out: &mut [u8],
) -> Answer
    ensures { WriteTextPromised (record { header = header; fields = fields.now; signature = signature.now }) source.now out.old out.new result }
{
    let taken = records::take_fields(fields);
    let list = match &taken {
        Some(taken) => taken.as_slice(),
        None => fields,
    };
    match text_writer::write_text(header, list, source, signature, out) {
        Ok(length) => accepted(length, 0),
        Err(w) => w.into(),
    }
}

// A part of a lent slice. Refused: start and length 0.
#[repr(C)]
#[derive(Clone, Copy, Debug, PartialEq, Eq)]
pub struct Part {
    pub number: usize,
    pub place: usize,
    pub which: usize,
    pub start: usize,
    pub length: usize,
}

impl From<Refusal> for Part {
    ghost from_gives = { λ w r. r ≡ part_numbers (refuses (number_of w.reason) w.place) };

    fn from(w: Refusal) -> Part {
        Part {
            number: usize::from(w.reason.number()),
            place: w.place,
            which: 0,
            start: 0,
            length: 0,
        }
    }
}

// The answer's length is the file's now, and `used` the number of the record added.
#[unsafe(no_mangle)]
pub extern "C" fn ddoc_day_add(file: &mut [u8], len: usize, text: &[u8]) -> Answer
    ensures answer { result ≡ added_numbers (adding file.old len text.now) }
    ensures lent { file.new ≡ slice_after (adding file.old len text.now) file.old }
{
    match day_file::add(file, len, text) {
        Ok(added) => accepted(added.length, added.number),
        Err(w) => w.into(),
    }
}

// The answer's length is the file's, as it was.
#[unsafe(no_mangle)]
pub extern "C" fn ddoc_day_withdraw(file: &mut [u8], len: usize, number: usize) -> Answer
    ensures answer { result ≡ withdrawn_numbers len (withdrawing file.old len number) }
    ensures lent { file.new ≡ slice_after (withdrawing file.old len number) file.old }
{
    match day_file::withdraw(file, len, number) {
        Ok(()) => accepted(len, 0),
        Err(w) => w.into(),
    }
}

#[unsafe(no_mangle)]
pub extern "C" fn ddoc_day_fetch(file: &[u8], len: usize, number: usize) -> Part
    ensures { result ≡ part_numbers (placing file.now len number) }
{
    match day_file::place(file, len, number) {
        Ok(placed) => Part {
            number: 0,
            place: 0,
            which: 0,
            start: placed.start,
            length: placed.length,
        },
        Err(w) => w.into(),
    }
}

// The answer's length is the file's now, and `used` the count of live records.
#[unsafe(no_mangle)]
pub extern "C" fn ddoc_day_squeeze(
    file: &mut [u8],
    len: usize,
    old: &mut [u32],
    new: &mut [u32],
) -> Answer
    ensures answer { result ≡ squeezed_numbers (squeezing file.old len (length old.old) (length new.old)) }
    ensures lent { file.new ≡ squeezed_slice len (squeezing file.old len (length old.old) (length new.old)) file.old }
    ensures olds { old.new ≡ olds_after (squeezing file.old len (length old.old) (length new.old)) old.old }
    ensures news { new.new ≡ news_after (squeezing file.old len (length old.old) (length new.old)) new.old }
{
    match squeeze::squeeze(file, len, old, new) {
        Ok(squeezed) => accepted(squeezed.length, squeezed.live),
        Err(w) => w.into(),
    }
}

// The tally is lent and added to in place; refused, it is as it was.
#[unsafe(no_mangle)]
pub extern "C" fn ddoc_tally_add(t: &mut Tally, file: &[u8]) -> Answer
    ensures answer { result ≡ tallied_numbers (counting file.now t.old) }
    ensures lent { t.new ≡ tally_after (counting file.now t.old) t.old }
{
    match tally::count_file(*t, file) {
        Ok(more) => {
            *t = more;
            accepted(0, 0)
        }
        Err(w) => w.into(),
    }
}
