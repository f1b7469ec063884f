// The table as a lent run of words: how many frames it covers, and a frame's entry in it. No other file knows where an entry's words
// lie.
ghost use Rattle.std.specs.Prelude.{◌≡◌, true, Ok};
ghost use Rattle.entries.specs.Entry.{zero_entry};
ghost use Rattle.rmp.specs.Table.{covered, is_whole, entry_in, address_in, put_entry};

use crate::encoding;
use entries::entry::Entry;
use entries::reason::Reason;

// How many frames the table covers, two words each. (Of memory, 512 words each, `frames::frame::count` tells: one function of both would be
// a division.)
#[tactic(auto, unfolding(crate::specs::Table::covered))]
pub fn covered(table: &[u64]) -> usize
    ensures { result ≡ covered table.now }
{
    table.len() / 2
}

// Whether no part of an entry is left over at the table's end.
#[tactic(auto, unfolding(crate::specs::Table::is_whole))]
pub fn is_whole(table: &[u64]) -> bool
    ensures { result ≡ is_whole table.now }
{
    table.len() % 2 == 0
}

// A frame's entry. A frame that the table does not cover has a bad one, with no reason.
#[tactic(auto, unfolding(crate::specs::Table::entry_in, crate::specs::Table::covered, words::specs::Choice::pick))]
pub fn read(table: &[u64], frame: usize) -> Result<Entry, Reason>
    ensures { result ≡ entry_in table.now frame }
{
    let n = table.len() / 2;
    if frame < n {
        let word0 = table[2 * frame];
        let word1 = table[2 * frame + 1];
        return encoding::decode(n, word0, word1);
    }
    Err(Reason::NoEntry)
}

// Whether both words of a frame's entry are zero: it is then SHARED.
fn is_blank(table: &[u64], frame: usize) -> bool
    ensures { result ≡ true → entry_in table.now frame ≡ Ok zero_entry }
{
    if frame < table.len() / 2 {
        return (table[2 * frame] == 0) & (table[2 * frame + 1] == 0);
    }
    false
}

// A frame's entry, as `read` answers it, and quicker where it is SHARED: for the tables of the host, which have to be.
pub fn read_shared(table: &[u64], frame: usize) -> Result<Entry, Reason>
    ensures { result ≡ entry_in table.now frame }
{
    if is_blank(table, frame) {
        return Ok(Entry::zero());
    }
    read(table, frame)
}

// The address that stands in a frame's entry, whatever else does: to pass over an entry without decoding it. A frame that the table does
// not cover has 0.
#[tactic(auto, unfolding(crate::specs::Table::address_in, crate::specs::Table::covered, words::specs::Choice::pick))]
pub fn address(table: &[u64], frame: usize) -> u64
    ensures { result ≡ address_in table.now frame }
{
    if frame < table.len() / 2 {
        return table[2 * frame + 1];
    }
    0
}

// A frame's entry becomes this one. A frame that the table does not cover has none, and nothing changes.
#[tactic(auto, unfolding(crate::specs::Table::put_entry, crate::specs::Table::covered, words::specs::Choice::pick))]
pub fn put(table: &mut [u64], frame: usize, e: Entry)
    ensures { table.new ≡ put_entry table.old frame e }
{
    if frame < table.len() / 2 {
        let words = encoding::encode(e);
        let word0 = words.0;
        let word1 = words.1;
        table[2 * frame] = word0;
        table[2 * frame + 1] = word1;
    }
}
