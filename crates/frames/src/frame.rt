// Frames of memory, each a run of 512 words. In a frame that memory does not have whole, and at an index above 511, a word reads as
// zero and a change changes nothing.
#![tactic(auto, unfolding(crate::specs::Frame::frame_count, crate::specs::Frame::is_framed))]

ghost use Rattle.std.specs.Prelude.{◌≡◌, ◌+◌, ◌*◌, ◌<◌, ◌≤◌, length};
ghost use Rattle.frames.specs.Frame.{frame_count, is_framed, word_in, frame_in, zeros, put_word, put_frame, differing_in};

use std::ops::Range;
use words::{compare, run};

// How many whole frames memory has.
pub fn count(memory: &[u64]) -> usize
    ensures { result ≡ frame_count memory.now }
{
    memory.len() / 512
}

// Whether no part of a frame is left over at memory's end.
pub fn is_whole(memory: &[u64]) -> bool
    ensures { result ≡ is_framed memory.now }
{
    memory.len() % 512 == 0
}

// Where in memory the words of a frame stand.
fn range(memory: &[u64], frame: usize) -> Range<usize>
    requires { frame < frame_count memory.now }
    ensures start { result.start ≡ 512 * frame }
    ensures end { result.end ≡ 512 * frame + 512 }
    ensures inside { result.end ≤ length memory.now }
{
    let start = 512 * frame;
    start..start + 512
}

// The words of a frame, where they stand: a part of memory, which is empty where memory does not have the frame.
pub fn part(memory: &[u64], frame: usize) -> &[u64]
    ensures { result.now ≡ frame_in memory.now frame }
{
    if frame < count(memory) {
        let words = range(memory, frame);
        return &memory[words];
    }
    &memory[..0]
}

// A word of a frame.
pub fn word(memory: &[u64], frame: usize, index: usize) -> u64
    ensures { result ≡ word_in memory.now frame index }
{
    part(memory, frame).get(index).copied().unwrap_or(0)
}

// A word of a frame becomes `value`.
pub fn put_word(memory: &mut [u64], frame: usize, index: usize, value: u64)
    ensures { memory.new ≡ put_word memory.old frame index value }
{
    if frame < count(memory) && index < 512 {
        memory[512 * frame + index] = value;
    }
}

// Every word of a frame becomes zero.
pub fn zero(memory: &mut [u64], frame: usize)
    ensures { memory.new ≡ put_frame memory.old frame zeros }
{
    if frame < count(memory) {
        let words = range(memory, frame);
        run::zero(&mut memory[words]);
    }
}

// The words of a frame become `words`, which must be 512: any other run changes nothing. By way of a local array this is one memmove: of two
// slices the compiler is not told that they are apart, and it adds a test for that and two loops.
pub fn put(memory: &mut [u64], frame: usize, words: &[u64])
    ensures { memory.new ≡ put_frame memory.old frame words.now }
{
    if frame < count(memory) && words.len() == 512 {
        let range = range(memory, frame);
        let mut held = [0; 512];
        run::copy(&mut held, words);
        run::copy(&mut memory[range], &held);
    }
}

// The words of frame `from` stand in frame `to` too. By way of a local array, as in `put`: with `copy_within` it takes 91 ns, and so 48.
pub fn copy(memory: &mut [u64], from: usize, to: usize)
    ensures { memory.new ≡ put_frame memory.old to (frame_in memory.old from) }
{
    if from < count(memory) && to < count(memory) {
        let from = range(memory, from);
        let to = range(memory, to);
        let mut held = [0; 512];
        run::copy(&mut held, &memory[from]);
        run::copy(&mut memory[to], &held);
    }
}

// How many words of two frames differ; none where memory has not both.
#[inline(always)]
pub fn differing(memory: &[u64], one: usize, two: usize) -> u64
    ensures { result ≡ differing_in memory.now one two }
{
    if one < count(memory) && two < count(memory) {
        let one = range(memory, one);
        let two = range(memory, two);
        return compare::differing(&memory[one], &memory[two]);
    }
    0
}
