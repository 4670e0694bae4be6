// Taking back the room of withdrawn scans: live records in their old order, the trailer rebuilt.

#![tactic(auto)]

ghost use Rattle.std.specs.Prelude.{◌≡◌, ◌≤◌, length, take, drop};
ghost use Rattle.refusal.specs.Over.{over};
ghost use Rattle.refusal.specs.Said.{says, turned};
ghost use Rattle.day_file.specs.File.{most_bytes, body, bytes_of};
ghost use Rattle.day_file.specs.Opening.{opened};
ghost use Rattle.day_file.specs.Opens.{Opens};
ghost use Rattle.squeeze.specs.Squeeze.{live_ones, old_numbers, up_from, squeezing, squeezed, squeezed_slice, olds_after, news_after};
ghost use Rattle.squeeze.specs.inner.Code.{scans_in};
ghost use Rattle.squeeze.specs.Answers.{squeezed_answer};

use day_file::{LIVE, Opened, open_file, put_trailer, two_at};
use refusal::{Reason, Refusal};

// The number of live records, and the file's new length.
#[derive(Clone, Copy, Debug, PartialEq, Eq)]
pub struct Squeezed {
    pub live: usize,
    pub length: usize,
}

// How many records are live.
fn count_live(file: &[u8], len: usize, day: Opened) -> usize
    requires { Opens (opened file.now len) day }
    ensures { result ≡ length (live_ones (scans_in file.now len)) }
{
    let mut n = 0;
    for i in 0..day.count {
        let at = day.start(file, i);
        if file[at] == LIVE {
            n += 1;
        }
    }
    n
}

// The old numbers of the live records.
fn list_old(file: &[u8], len: usize, day: Opened, old: &mut [u32])
    requires { (Opens (opened file.now len) day) × (length (live_ones (scans_in file.now len)) ≤ length old.old) }
    ensures { old.new ≡ over (old_numbers 0 (scans_in file.now len)) old.old }
{
    let mut j = 0;
    for i in 0..day.count {
        let at = day.start(file, i);
        if file[at] == LIVE {
            old[j] = i as u32;
            j += 1;
        }
    }
}

// Their new numbers.
fn list_new(new: &mut [u32], n: usize)
    requires { (n ≤ length new.old) × (n ≤ most_bytes) }
    ensures { new.new ≡ over (up_from 0 n) new.old }
{
    for (i, number) in new[..n].iter_mut().enumerate() {
        *number = i as u32;
    }
}

// The live records moved to the front, one behind the other; where they end.
fn gather(file: &mut [u8], len: usize, day: Opened) -> usize
    requires { Opens (opened file.old len) day }
    ensures answer { result ≡ length (body (live_ones (scans_in file.old len))) }
    ensures front { take result file.new ≡ body (live_ones (scans_in file.old len)) }
    ensures behind { drop day.trailer file.new ≡ drop day.trailer file.old }
{
    let mut to = 0;
    for i in 0..day.count {
        let from = day.start(file, i);
        if file[from] == LIVE {
            let n = 3 + two_at(file, from + 1);
            file.copy_within(from..from + n, to);
            to += n;
        }
    }
    to
}

// The live records gathered, zeros behind them up to the old end, and their trailer; the new length.
fn rebuild(file: &mut [u8], len: usize, day: Opened, live: usize) -> usize
    requires { (Opens (opened file.old len) day) × (live ≡ length (live_ones (scans_in file.old len))) }
    ensures answer { result ≡ length (bytes_of (live_ones (scans_in file.old len))) }
    ensures lent { file.new ≡ over (squeezed len (scans_in file.old len)) file.old }
{
    let to = gather(file, len, day);
    file[to..len].fill(0);
    put_trailer(file, live, to);
    to + 4 * live + 8
}

// Withdrawn records go, live ones move up in their order, and both lists get their numbers. In place: the trailer stays until the last record
// has moved, so that the starts can be read.
#[tactic(auto, unfolding(crate::specs::Squeeze::squeezing))]
pub fn squeeze(
    file: &mut [u8],
    len: usize,
    old: &mut [u32],
    new: &mut [u32],
) -> Result<Squeezed, Refusal>
    ensures answer { says result ≡ turned squeezed_answer (squeezing file.old len (length old.old) (length new.old)) }
    ensures lent { file.new ≡ squeezed_slice len (squeezing file.old len (length old.old) (length new.old)) file.old }
    ensures olds { old.new ≡ olds_after (squeezing file.old len (length old.old) (length new.old)) old.old }
    ensures news { new.new ≡ news_after (squeezing file.old len (length old.old) (length new.old)) new.old }
{
    let day = open_file(file, len)?;
    let live = count_live(file, len, day);
    if old.len() < live || new.len() < live {
        return Err(Reason::LentTooShort.at(0));
    }
    list_old(file, len, day, old);
    list_new(new, live);
    let length = rebuild(file, len, day, live);
    Ok(Squeezed { live, length })
}
