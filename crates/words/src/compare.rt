// Two runs of words compared, up to the end of the shorter one. Every word up to there is read, whatever the words are.
ghost use Rattle.std.specs.Prelude.{◌≡◌, min, ◌*◌, ◌≤◌, length};
ghost use Rattle.words.specs.Run.{differing};

use crate::columns::{MOST_TURNS, total, turns};

// How many words differ from the word at the same place of the other run, up to the end of the shorter one.
#[inline(always)]
pub fn differing(a: &[u64], b: &[u64]) -> u64
    ensures { result ≡ differing a.now b.now (min (length a.now) (length b.now)) }
{
    let n = a.len().min(b.len());
    let turns = turns(n);
    let mut count = differing_in_turns(a, b, turns);
    // the rest, word by word, by the law of a word in a turn
    for i in 16 * turns..n {
        if a[i] != b[i] {
            count += 1;
        }
    }
    count
}

// The words that are the same are counted: a vector instruction tests for equal, and none for different. Loops, and no chain: a count by
// `zip` and `filter` takes 3.2 times as long.
#[inline(always)]
fn differing_in_turns(a: &[u64], b: &[u64], turns: usize) -> u64
    requires in_a { 16 * turns ≤ length a.now }
    requires in_b { 16 * turns ≤ length b.now }
    requires few { turns ≤ MOST_TURNS }
    ensures { result ≡ differing a.now b.now (16 * turns) }
{
    let mut same = [0u32; 4];
    for turn in 0..turns {
        for k in 0..16 {
            let i = 16 * turn + k;
            same[k % 4] += u32::from(a[i] == b[i]);
        }
    }
    let compared = 16 * turns as u64;
    compared - total(same)
}
