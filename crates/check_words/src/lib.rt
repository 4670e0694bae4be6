// The whole codeword list of a symbol with a single block: the data and behind them their check words (document 02, K3).

#![tactic(auto)]

ghost use Rattle.std.specs.Prelude.{◌≡◌, true, ◌+◌, ◌≤◌, ◌<◌, length, leb, Some, None, IfOk};
ghost use Rattle.refusal.specs.Pick.{pick};
ghost use Rattle.refusal.specs.Said.{says};
ghost use Rattle.codeword.specs.Sizes.{is_capacity};
ghost use Rattle.galois.specs.Tables.{element_of};
ghost use Rattle.galois.specs.Words.{plus, scale};
ghost use Rattle.check_words.specs.Sizes.{check_count, most_data};
ghost use Rattle.check_words.specs.Generator.{coeffs, grow};
ghost use Rattle.check_words.specs.Register.{feed, check_words};
ghost use Rattle.check_words.specs.Answers.{words_of, Left};

use refusal::{Reason, Refusal};

// The most check words of a size with a single block.
pub const MOST_CHECKS: usize = 68;

// The check words of the size with n data codewords, if it has a single block.
#[tactic(auto, using(crate::proofs::Sizes::several), unfolding(crate::specs::Sizes::check_count, crate::specs::Sizes::check_counts, crate::specs::Sizes::place_of, codeword::specs::Sizes::capacities))]
fn check_count(n: usize) -> Option<usize>
    requires { is_capacity n ≡ true }
    ensures { result ≡ pick (leb n most_data) (Some (check_count n)) None }
{
    match n {
        3 => Some(5),
        5 => Some(7),
        8 => Some(10),
        12 => Some(12),
        18 => Some(14),
        22 => Some(18),
        30 => Some(20),
        36 => Some(24),
        44 => Some(28),
        62 => Some(36),
        86 => Some(42),
        114 => Some(48),
        144 => Some(56),
        174 => Some(68),
        _ => None,
    }
}

// The generator's words for one root more, whose logarithm is m.
#[tactic(auto, using(crate::proofs::Growing::grow_next, crate::proofs::Growing::grow_end))]
fn grow_by(g: &mut [u8], m: usize)
    requires { m < 255 }
    ensures { g.new ≡ grow (element_of m) 1 g.old }
{
    let mut before = 1;
    for w in g.iter_mut() {
        let word = *w;
        *w = word ^ galois::times(m, before);
        before = word;
    }
}

// The generator's words, as many as g has.
#[tactic(auto, using(crate::proofs::Growing::grown_none, crate::proofs::Growing::grown_more, crate::proofs::Growing::grown_all))]
fn generate(g: &mut [u8])
    requires { length g.old ≤ MOST_CHECKS }
    ensures { g.new ≡ coeffs (length g.old) }
{
    g.fill(0);
    for j in 1..=g.len() {
        grow_by(g, j);
    }
}

// The register r takes the word d in: each word becomes the one behind it, and none behind the last, with its part of the generator added.
#[tactic(auto, using(crate::proofs::Feeding::feed_first))]
fn feed_one(g: &[u8], r: &mut [u8], d: u8)
    requires { (length g.now ≡ length r.old) × (1 ≤ length r.old) }
    ensures { r.new ≡ feed g.now r.old d }
{
    let m = galois::log_of(r[0] ^ d);
    let last = r.len() - 1;
    for i in 0..last {
        r[i] = r[i + 1] ^ galois::times(m, g[i]);
    }
    r[last] = galois::times(m, g[last]);
}

// The check words of the data into r, as many as r has.
#[tactic(auto, using(crate::proofs::Feeding::feeds_next, crate::proofs::Feeding::feeds_end))]
pub fn check_into(words: &[u8], r: &mut [u8])
    requires { (1 ≤ length r.old) × (length r.old ≤ MOST_CHECKS) }
    ensures { r.new ≡ check_words (length r.old) words.now }
{
    let mut buffer = [0; MOST_CHECKS];
    let g = &mut buffer[..r.len()];
    generate(g);
    r.fill(0);
    for &d in words {
        feed_one(g, r, d);
    }
}

// n data codewords, and room for so many words: the words of the list.
#[tactic(auto, unfolding(crate::specs::Answers::words_of), using(crate::proofs::Sizes::small))]
fn judge(n: usize, room: usize) -> Result<usize, Refusal>
    ensures answer { says result ≡ words_of n room }
    ensures fits { IfOk result (λ m. (m ≤ room) × (n + 1 ≤ m) × (m ≤ n + MOST_CHECKS)) }
{
    if !codeword::is_capacity(n) {
        return Err(Reason::CountNoCapacity.at(0));
    }
    let m = n + check_count(n).ok_or(Reason::SeveralBlocks.at(0))?;
    if room < m {
        return Err(Reason::LentTooShort.at(0));
    }
    Ok(m)
}

// The data codewords and behind them their check words, into the lent list; how many words they are.
#[tactic(auto, using(crate::proofs::Answers::listed))]
pub fn check_words(codewords: &[u8], list: &mut [u8]) -> Result<usize, Refusal>
    ensures answer { says result ≡ words_of (length codewords.now) (length list.old) }
    ensures lent { Left (words_of (length codewords.now) (length list.old)) codewords.now list.old list.new }
{
    let n = codewords.len();
    let m = judge(n, list.len())?;
    refusal::copy_whole(codewords, &mut list[..n]);
    check_into(codewords, &mut list[n..m]);
    Ok(m)
}
