// Table and memory, lent to be looked at: the state of the rules, and what they read in it.
ghost use Rattle.std.specs.Prelude.{◌≡◌};

use entries::entry::{Entry, frame_of};
use entries::reason::Reason;
use frames::frame;
use rmp::table;
use std::marker::Model;

#[derive(Drop)]
pub struct State<'a> {
    table: &'a [u64],
    memory: &'a [u64],
}

impl<'a> Model for State<'a> {
    ghost use Rattle.rules.specs.State as rules;

    ghost Value = { rules.State };

    ghost view = { λ s. rules.state s.table.now s.memory.now };
}

impl<'a> State<'a> {
    ghost use Rattle.rmp.specs.Table.{address_in};
    ghost use Rattle.rules.specs.State.{state, N, M, sized, covers, entry_at, word_at, frame_at, differing_at};

    pub fn new(table: &'a [u64], memory: &'a [u64]) -> State<'a>
        ensures { result ≡ state table.now memory.now }
    {
        State { table, memory }
    }

    // How many frames the table covers.
    #[tactic(auto, unfolding(rules::specs::State::N))]
    pub fn covered(&self) -> usize
        ensures { result ≡ N self.now }
    {
        table::covered(self.table)
    }

    // How many frames memory has.
    #[tactic(auto, unfolding(rules::specs::State::M))]
    pub fn frames(&self) -> usize
        ensures { result ≡ M self.now }
    {
        frame::count(self.memory)
    }

    // Whether table and memory have the sizes that the rules ask for.
    pub fn sizes_hold(&self) -> bool
        ensures { result ≡ sized self.now }
    {
        let frames = self.frames();
        let covered = self.covered();
        table::is_whole(self.table)
            & frame::is_whole(self.memory)
            & (1 <= covered)
            & (covered <= 4096)
            & (covered <= frames)
            & (frames <= 8192)
    }

    // Whether the table covers the frame at an address.
    #[tactic(auto, unfolding(rules::specs::State::covers))]
    pub fn covers(&self, hpa: u64) -> bool
        ensures { result ≡ covers self.now hpa }
    {
        frame_of(hpa) < self.covered()
    }

    // A frame's entry.
    #[tactic(auto, unfolding(rules::specs::State::entry_at))]
    pub fn entry(&self, frame: usize) -> Result<Entry, Reason>
        ensures { result ≡ entry_at self.now frame }
    {
        table::read(self.table, frame)
    }

    // A frame's entry, quicker where it is SHARED.
    #[tactic(auto, unfolding(rules::specs::State::entry_at))]
    pub fn shared_entry(&self, frame: usize) -> Result<Entry, Reason>
        ensures { result ≡ entry_at self.now frame }
    {
        table::read_shared(self.table, frame)
    }

    // The address that stands in a frame's entry, whatever else does.
    pub fn address(&self, frame: usize) -> u64
        ensures { result ≡ address_in self.now.table frame }
    {
        table::address(self.table, frame)
    }

    // A word of a frame.
    #[tactic(auto, unfolding(rules::specs::State::word_at))]
    pub fn word(&self, frame: usize, index: usize) -> u64
        ensures { result ≡ word_at self.now frame index }
    {
        frame::word(self.memory, frame, index)
    }

    // The words of a frame, where they stand.
    #[tactic(auto, unfolding(rules::specs::State::frame_at))]
    pub fn frame(&self, frame: usize) -> &[u64]
        ensures { result.now ≡ frame_at self.now frame }
    {
        frame::part(self.memory, frame)
    }

    // How many words of two frames differ.
    #[inline(always)]
    #[tactic(auto, unfolding(rules::specs::State::differing_at))]
    pub fn differing(&self, one: usize, two: usize) -> u64
        ensures { result ≡ differing_at self.now one two }
    {
        frame::differing(self.memory, one, two)
    }
}
