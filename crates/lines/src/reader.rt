// The script reader keeps the text and its place in it together. It is thin: `line_at`, which has a plain slice and a number, does the work.
ghost use Rattle.std.specs.Prelude.{◌≡◌, drop};
ghost use Rattle.format.specs.Text.{said_by};
ghost use Rattle.lines.specs.Read.{meant, left, IsLineAt};

use crate::line::{Line, line_at};
use monitor::Call;

// Its items are what the lines say, in their order: a call, or none, where a line is wrong.
#[derive(Clone, Copy)]
pub struct Reader<'a> {
    pub text: &'a [u8],
    pub at: usize,
}

impl<'a> Reader<'a> {
    // A reader at a place of a text.
    pub fn at(text: &'a [u8], at: usize) -> Reader<'a>
        ensures placed { (result.text ≡ text.entry) × (result.at ≡ at) }
        ensures lines { left result ≡ said_by (drop at text.now) }
    {
        Reader { text, at }
    }

    pub fn new(text: &'a [u8]) -> Reader<'a>
        ensures { left result ≡ said_by text.now }
    {
        Reader::at(text, 0)
    }

    // The line at the reader's place.
    pub fn line(self) -> Line
        ensures { IsLineAt self.entry.text.now self.entry.at result }
    {
        line_at(self.text, self.at)
    }
}

impl<'a> Iterator for Reader<'a> {
    ghost use Rattle.std.specs.Iterator.{YieldsFirstBy, item_count};

    type Item = Option<Call>;

    ghost next_gives = { YieldsFirstBy meant left };

    ghost remaining = { item_count left };

    #[tactic(auto, using(crate::proofs::Left::lines_left))]
    fn next(&mut self) -> Option<Option<Call>> {
        if self.at >= self.text.len() {
            return None;
        }
        let line = self.line();
        self.at = line.next;
        Some(line.said)
    }
}
