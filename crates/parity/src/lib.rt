// Which words of a run are odd, in one pass.
#![tactic(auto)]

ghost use Rattle.std.specs.Prelude.{◌≡◌, ◌+◌, ◌*◌, ◌<◌, ◌≤◌, length};
ghost use Rattle.parity.specs.Columns.{odd_in_front, with_odd};
ghost use Rattle.parity.specs.Odd.{bit_at, odd_of};

use words::columns::{MOST_TURNS, total, turns};

// None, one, at its place, or several: three cases of one thing, which an Option of an Option or a Result would tell less plainly.
#[derive(Clone, Copy)]
pub enum Odd {
    None,
    One(usize),
    Several,
}

// Every word is read, whatever the words are, and count and place come from the same pass.
pub fn find_odd(run: &[u64]) -> Odd
    ensures { result ≡ odd_of run.now }
{
    let turns = turns(run.len());
    let mut odd = odd_in_turns(run, turns);
    // the rest, word by word: a place is asked for
    for i in 16 * turns..run.len() {
        if run[i] % 2 == 1 {
            odd = odd.with(i);
        }
    }
    odd
}

impl Odd {
    // With an odd word behind those so far.
    fn with(self, place: usize) -> Odd
        ensures { result ≡ with_odd self place }
    {
        match self {
            Odd::None => Odd::One(place),
            _ => Odd::Several,
        }
    }
}

// In columns, as `words::columns` says. Each has its count of odd words, and the sum of this count over the turns: where one word is odd, the
// sums together are how many turns there are from it on. So there is no branch and no multiplication.
fn odd_in_turns(run: &[u64], turns: usize) -> Odd
    requires inside { 16 * turns ≤ length run.now }
    requires few { turns ≤ MOST_TURNS }
    ensures { result ≡ odd_in_front run.now (16 * turns) }
{
    let mut counts = [0u32; 4];
    let mut sums = [0u32; 4];
    for turn in 0..turns {
        for k in 0..16 {
            counts[k % 4] += (run[16 * turn + k] % 2) as u32;
        }
        for k in 0..4 {
            sums[k] = sums[k].wrapping_add(counts[k]);
        }
    }
    match total(counts) {
        0 => Odd::None,
        1 => {
            let from = 16 * (turns as u64 - total(sums));
            let [_, b, c, d] = counts;
            let first = from + u64::from(b) + 2 * u64::from(c) + 3 * u64::from(d);
            Odd::One(place_in_column(run, first as usize))
        }
        _ => Odd::Several,
    }
}

// The place of the one odd word among four of a column, of which this is the place of the first.
fn place_in_column(run: &[u64], first: usize) -> usize
    requires { first + 12 < length run.now }
    ensures { result ≡ first + 4 * bit_at run.now (first + 4) + 8 * bit_at run.now (first + 8)
        + 12 * bit_at run.now (first + 12) }
{
    let second = (run[first + 4] % 2) as usize;
    let third = (run[first + 8] % 2) as usize;
    let fourth = (run[first + 12] % 2) as usize;
    first + 4 * second + 8 * third + 12 * fourth
}
