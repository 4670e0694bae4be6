// The lines that the program `week` prints, composed in a lent slice: the counts above zero, and a refused file.

#![tactic(auto)]

ghost use Rattle.std.specs.Prelude.{◌≡◌, ◌+◌, ◌≤◌, ◌++◌, length};
ghost use Rattle.refusal.specs.Over.{over};
ghost use Rattle.day_file.specs.Pieces.{put_at};
ghost use Rattle.lines.specs.Lines.{page, decimal, refused_name, name_of, line_of, lines_of, file_line};

// Room for the lines of 262 counts: 23 bytes at most for each.
pub const PAGE: usize = 6144;

// A word from `at` on; where it ends.
#[tactic(auto, using(day_file::proofs::Putting::part_put))]
fn put_word(out: &mut [u8], at: usize, word: &[u8]) -> usize
    requires { at + length word.now ≤ length out.old }
    ensures end { result ≡ at + length word.now }
    ensures lent { out.new ≡ put_at out.old at word.now }
{
    let end = at + word.len();
    out[at..end].copy_from_slice(word);
    end
}

// A number's digits from `at` on; where they end.
#[tactic(auto, using(crate::proofs::Decimal::printed))]
fn put_decimal(out: &mut [u8], at: usize, n: u64) -> usize
    requires { at + length (decimal n) ≤ length out.old }
    ensures end { result ≡ at + length (decimal n) }
    ensures lent { out.new ≡ put_at out.old at (decimal n) }
{
    put_word(out, at, itoa::Buffer::new().format(n).as_bytes())
}

// A number's digits and a word behind them, from `at` on; where the word ends.
#[tactic(auto, using(crate::proofs::Joined::next_put))]
fn put_number(out: &mut [u8], at: usize, n: u64, behind: &[u8]) -> usize
    requires { at + length (decimal n ++ behind.now) ≤ length out.old }
    ensures end { result ≡ at + length (decimal n ++ behind.now) }
    ensures lent { out.new ≡ put_at out.old at (decimal n ++ behind.now) }
{
    let end = put_decimal(out, at, n);
    put_word(out, end, behind)
}

// What the count of a slot is called, from `at` on; where the name ends.
#[tactic(auto, unfolding(crate::specs::Lines::name_of))]
fn put_name(out: &mut [u8], at: usize, slot: usize) -> usize
    requires { at + length (name_of slot) ≤ length out.old }
    ensures end { result ≡ at + length (name_of slot) }
    ensures lent { out.new ≡ put_at out.old at (name_of slot) }
{
    match slot {
        0 => put_word(out, at, b"type 00 "),
        1 => put_word(out, at, b"type 01 "),
        2 => put_word(out, at, b"type 02 "),
        3 => put_word(out, at, b"type B0 "),
        4 => put_word(out, at, b"type B1 "),
        5 => put_word(out, at, b"other "),
        _ => put_refused(out, at, slot - 6),
    }
}

// The word, a refusal's number and a space.
#[tactic(auto, using(crate::proofs::Joined::next_put))]
fn put_refused(out: &mut [u8], at: usize, number: usize) -> usize
    requires { at + length (refused_name number) ≤ length out.old }
    ensures end { result ≡ at + length (refused_name number) }
    ensures lent { out.new ≡ put_at out.old at (refused_name number) }
{
    let end = put_word(out, at, b"refused ");
    put_number(out, end, number as u64, b" ")
}

// The line of a count, from `at` on; where it ends. A count of zero has none.
fn put_line(out: &mut [u8], at: usize, slot: usize, count: u32) -> usize
    requires { at + length (line_of slot count) ≤ length out.old }
    ensures end { result ≡ at + length (line_of slot count) }
    ensures lent { out.new ≡ put_at out.old at (line_of slot count) }
{
    if count == 0 {
        return at;
    }
    let end = put_name(out, at, slot);
    put_number(out, end, u64::from(count), b"\n")
}

// The lines of 262 counts; their length.
pub fn put_counts(out: &mut [u8], counts: &[u32]) -> usize
    requires { (length counts.now ≤ 262) × (page ≤ length out.old) }
    ensures end { result ≡ length (lines_of 0 counts.now) }
    ensures lent { out.new ≡ over (lines_of 0 counts.now) out.old }
    ensures small { result ≤ page }
{
    let mut at = 0;
    for (slot, &count) in counts.iter().enumerate() {
        at = put_line(out, at, slot, count);
    }
    at
}

// The line of a refused file; its length.
pub fn put_file(out: &mut [u8], place: u64, number: u8) -> usize
    requires { page ≤ length out.old }
    ensures end { result ≡ length (file_line place number) }
    ensures lent { out.new ≡ over (file_line place number) out.old }
    ensures small { result ≤ page }
{
    let at = put_word(out, 0, b"file ");
    let at = put_number(out, at, place, b" refused ");
    put_number(out, at, u64::from(number), b"\n")
}
