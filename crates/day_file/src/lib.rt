// The day file: records one behind the other, then a trailer that points back. It stands in a lent slice, with its length beside it.

#![tactic(auto)]

ghost use Rattle.std.specs.Prelude.{◌≡◌, ◌+◌, ◌*◌, ◌≤◌, ◌<◌, length, take, drop, IfOk};
ghost use Rattle.refusal.specs.Over.{over};
ghost use Rattle.refusal.specs.Said.{says, turned};
ghost use Rattle.day_file.specs.File.{most_bytes, four, record_of, body, bytes_of};
ghost use Rattle.day_file.specs.Opening.{two_at, four_at, standing, records, opened, scans};
ghost use Rattle.day_file.specs.Plain.{live};
ghost use Rattle.day_file.specs.Promise.{adding, withdrawing, fetching, slice_after, placing};
ghost use Rattle.day_file.specs.Opens.{finding};
ghost use Rattle.day_file.specs.Answers.{opened_answer, added_answer, withdrawn_answer, placed_answer, text_of};
ghost use Rattle.day_file.specs.Pieces.{put_at};

use refusal::{LIMIT, Reason, Refusal};

// A file has at most 32,768 bytes.
pub const MOST_BYTES: usize = 32768;

// The state of a record.
pub const LIVE: u8 = 1;

const WITHDRAWN: u8 = 0;

// A file that is good: how many records it has, and where its trailer starts.
#[derive(Clone, Copy, Debug, PartialEq, Eq)]
pub struct Opened {
    pub count: usize,
    pub trailer: usize,
}

// The number of the record that was added, and the file's new length.
#[derive(Clone, Copy, Debug, PartialEq, Eq)]
pub struct Added {
    pub number: usize,
    pub length: usize,
}

// Where a text starts in the file, and its length.
#[derive(Clone, Copy, Debug, PartialEq, Eq)]
pub struct Placed {
    pub start: usize,
    pub length: usize,
}

// The number in the two bytes from p on, high byte first.
pub fn two_at(s: &[u8], p: usize) -> usize
    requires { p + 2 ≤ length s.now }
    ensures is { result ≡ two_at s.now p }
    ensures small { result < 65536 }
{
    usize::from(u16::from_be_bytes([s[p], s[p + 1]]))
}

// The number in the four bytes from p on, high byte first.
fn four_at(s: &[u8], p: usize) -> usize
    requires { p + 4 ≤ length s.now }
    ensures is { result ≡ four_at s.now p }
    ensures small { result < 4294967296 }
{
    u32::from_be_bytes([s[p], s[p + 1], s[p + 2], s[p + 3]]) as usize
}

// A number put in the four bytes from p on, high byte first.
fn put_four(s: &mut [u8], p: usize, n: usize)
    requires { (p + 4 ≤ length s.old) × (n ≤ most_bytes) }
    ensures { s.new ≡ put_at s.old p (four n) }
{
    s[p..p + 4].copy_from_slice(&(n as u32).to_be_bytes());
}

impl Opened {
    // Where the record of a number starts, as the trailer has it.
    pub fn start(self, file: &[u8], number: usize) -> usize
        requires { self.trailer + 4 * number + 4 ≤ length file.now }
        ensures is { result ≡ four_at file.now (self.trailer + 4 * number) }
        ensures small { result < 4294967296 }
    {
        four_at(file, self.trailer + 4 * number)
    }

    // Whether so many records stand side by side up to the trailer, and it begins with their starts.
    #[tactic(auto, using(crate::proofs::Walk::stops_short, crate::proofs::Walk::stops_state, crate::proofs::Walk::stops_long, crate::proofs::Walk::stops_start, crate::proofs::Walk::goes_further, crate::proofs::Walk::ends))]
    fn stands(self, file: &[u8]) -> bool
        requires { self.trailer + 4 * self.count ≤ length file.now }
        ensures { result ≡ standing self.count 0 (take self.trailer file.now) (drop self.trailer file.now) }
    {
        let mut at = 0;
        for i in 0..self.count {
            if self.trailer < at + 3 || LIVE < file[at] {
                return false;
            }
            let n = 3 + two_at(file, at + 1);
            if self.trailer < at + n || self.start(file, i) != at {
                return false;
            }
            at += n;
        }
        at == self.trailer
    }
}

// The file that a slice is, whole.
#[tactic(auto, unfolding(crate::specs::Opening::records), using(crate::proofs::Opening::good_file))]
pub fn open_bytes(file: &[u8]) -> Result<Opened, Refusal>
    ensures { says result ≡ turned opened_answer (records file.now) }
{
    let len = file.len();
    if !(8..=MOST_BYTES).contains(&len) {
        return Err(Reason::BadFile.at(0));
    }
    let opened = Opened {
        count: four_at(file, len - 8),
        trailer: four_at(file, len - 4),
    };
    if opened.trailer + 4 * opened.count + 8 != len || !opened.stands(file) {
        return Err(Reason::BadFile.at(0));
    }
    Ok(opened)
}

// The file that stands in a lent slice.
#[tactic(auto, unfolding(crate::specs::Opening::opened))]
pub fn open_file(file: &[u8], len: usize) -> Result<Opened, Refusal>
    ensures { says result ≡ turned opened_answer (opened file.now len) }
{
    if file.len() < MOST_BYTES {
        return Err(Reason::LentTooShort.at(0));
    }
    if MOST_BYTES < len {
        return Err(Reason::BadFile.at(0));
    }
    open_bytes(&file[..len])
}

// A live record from the place p on.
fn put_record(file: &mut [u8], p: usize, text: &[u8])
    requires { (p + 3 + length text.now ≤ length file.old) × (length text.now ≤ most_bytes) }
    ensures { file.new ≡ put_at file.old p (record_of (live text.now)) }
{
    let n = text.len();
    file[p] = LIVE;
    file[p + 1..p + 3].copy_from_slice(&(n as u16).to_be_bytes());
    refusal::copy_whole(text, &mut file[p + 3..p + 3 + n]);
}

// The trailer behind the `count` records that stand up to t.
pub fn put_trailer(file: &mut [u8], count: usize, t: usize)
    requires { (body (scans count (take t file.old)) ≡ take t file.old) × (t + 4 * count + 8 ≤ most_bytes) × (most_bytes ≤ length file.old) }
    ensures { file.new ≡ over (bytes_of (scans count (take t file.old))) file.old }
{
    let mut at = 0;
    for i in 0..count {
        put_four(file, t + 4 * i, at);
        at += 3 + two_at(file, at + 1);
    }
    put_four(file, t + 4 * count, count);
    put_four(file, t + 4 * count + 4, t);
}

// The new record stands where the trailer stood, and the new trailer behind it.
#[tactic(auto, unfolding(crate::specs::Promise::adding))]
pub fn add(file: &mut [u8], len: usize, text: &[u8]) -> Result<Added, Refusal>
    ensures answer { says result ≡ turned added_answer (adding file.old len text.now) }
    ensures lent { file.new ≡ slice_after (adding file.old len text.now) file.old }
{
    let n = text.len();
    let opened = open_file(file, len)?;
    if LIMIT < n {
        return Err(Reason::TextTooLong.at(0));
    }
    if MOST_BYTES < len + (7 + n) {
        return Err(Reason::FileFull.at(0));
    }
    put_record(file, opened.trailer, text);
    put_trailer(file, opened.count + 1, opened.trailer + 3 + n);
    Ok(Added {
        number: opened.count,
        length: len + (7 + n),
    })
}

// Where the record of a number starts; refused unless it is live.
fn find(file: &[u8], len: usize, number: usize) -> Result<usize, Refusal>
    ensures answer { says result ≡ finding file.now len number }
    ensures room { IfOk result (λ start. start + 3 ≤ length file.now) }
{
    let opened = open_file(file, len)?;
    if opened.count <= number {
        return Err(Reason::NoScan.at(0));
    }
    let start = opened.start(file, number);
    if file[start] != LIVE {
        return Err(Reason::NoScan.at(0));
    }
    Ok(start)
}

// The record of a number becomes a withdrawn one.
#[tactic(auto, unfolding(crate::specs::Promise::withdrawing))]
pub fn withdraw(file: &mut [u8], len: usize, number: usize) -> Result<(), Refusal>
    ensures answer { says result ≡ turned withdrawn_answer (withdrawing file.old len number) }
    ensures lent { file.new ≡ slice_after (withdrawing file.old len number) file.old }
{
    let start = find(file, len, number)?;
    file[start] = WITHDRAWN;
    Ok(())
}

// Where the text of a number stands.
pub fn place(file: &[u8], len: usize, number: usize) -> Result<Placed, Refusal>
    ensures { says result ≡ turned placed_answer (placing file.now len number) }
{
    let start = find(file, len, number)?;
    let length = two_at(file, start + 1);
    if LIMIT < length {
        return Err(Reason::TextTooLong.at(0));
    }
    Ok(Placed {
        start: start + 3,
        length,
    })
}

// The text of a number, as a part of the slice; empty if refused.
pub fn fetch(file: &[u8], len: usize, number: usize) -> &[u8]
    ensures { result.now ≡ text_of (fetching file.now len number) }
{
    match place(file, len, number) {
        Ok(placed) => &file[placed.start..placed.start + placed.length],
        Err(_) => &[],
    }
}
