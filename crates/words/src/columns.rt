// Runs of words taken in turns of 16, in which each word falls to one of four columns. A column has a count of 32 bits, so that the four
// counts are one vector: those of 64 bits would take twice the instructions. A turn is a loop of its own: one loop over all words takes 3.8
// times as long.
ghost use Rattle.std.specs.Prelude.{◌≡◌, ◌/◌, min, sum};

// So many turns at most are counted, so that no count passes 32 bits.
pub const MOST_TURNS: usize = 0x1000000;

// How many whole turns a run of n words has, or the most that are counted.
pub fn turns(n: usize) -> usize
    ensures { result ≡ min (n / 16) MOST_TURNS }
{
    (n / 16).min(MOST_TURNS)
}

// All that the columns count. (By their names: the sum of an iterator would have to be shown to fit at each call.)
pub fn total(counts: [u32; 4]) -> u64
    ensures { result ≡ sum counts }
{
    let [a, b, c, d] = counts;
    u64::from(a) + u64::from(b) + u64::from(c) + u64::from(d)
}
