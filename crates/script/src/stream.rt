// A text that comes in pieces, each in the same run of bytes behind the line that the one before left unfinished.
ghost use Rattle.std.specs.Prelude.{◌≡◌, ◌≤◌, length, take};
ghost use Rattle.rules.specs.State.{state};
ghost use Rattle.format.specs.Piece.{cut, whole_lines, unfinished};
ghost use Rattle.format.specs.Text.{printed, after};
ghost use Rattle.numbers.specs.Buffer.{buffer, appended};

use crate::run::run;

// What a piece left: the bytes of an unfinished line, at the start of the text's bytes, and how many bytes were printed.
#[derive(Clone, Copy)]
pub struct Fed {
    pub kept: usize,
    pub printed: usize,
}

// Runs the whole lines of the first `filled` bytes of `text`, prints to the start of `out`, and moves the unfinished line that follows
// them to the start of `text`, 121 bytes of it at most: the next piece goes behind it. At the end of the input what was kept is the last
// line, and `run` runs it.
// `text` has a count beside it, and `out` too: the contract is of any count that a caller has read to, docs/PROMISES.md tells of it.
pub fn feed(
    table: &mut [u64],
    memory: &mut [u64],
    text: &mut [u8],
    filled: usize,
    out: &mut [u8],
) -> Fed
    ensures memory_after { state table.new memory.new
        ≡ after (state table.old memory.old) (whole_lines (take filled text.old)) }
    ensures printed_after { buffer out.new result.printed
        ≡ appended (buffer out.old 0)
        (printed (state table.old memory.old) (whole_lines (take filled text.old))) }
    ensures kept_after { buffer text.new result.kept
        ≡ appended (buffer text.old 0) (unfinished (take filled text.old)) }
{
    let held = filled.min(text.len());
    let whole = whole_lines(&text[..held]);
    let printed = run(table, memory, &text[..whole], out);
    let kept = (held - whole).min(121);
    text.copy_within(whole..whole + kept, 0);
    Fed { kept, printed }
}

// The place after the last line feed, or 0.
fn whole_lines(text: &[u8]) -> usize
    ensures within { result ≤ length text.now }
    ensures whole { result ≡ cut text.now (length text.now) }
{
    text.iter()
        .rposition(|&byte| byte == b'\n')
        .map_or(0, |last| last + 1)
}
