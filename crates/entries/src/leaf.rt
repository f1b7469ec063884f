// The words of a leaf page: a guest's number is the index of its word.
ghost use Rattle.std.specs.Prelude.{◌≡◌};
ghost use Rattle.entries.specs.Leaf.{leaf_word, present_at};

use crate::entry;

// What a word of a leaf page says of its guest: it has no place in the page, it has one at this guest address, or neither. The paper's three
// cases by their names: a `Result` of an `Option` would tell them less plainly.
#[derive(Clone, Copy)]
pub enum LeafWord {
    Absent,
    Present(u64),
    Misshapen,
}

#[tactic(auto, unfolding(crate::specs::Leaf::leaf_word, words::specs::Choice::pick))]
pub fn leaf_word(word: u64) -> LeafWord
    ensures { result ≡ leaf_word word }
{
    if word % 2 == 0 {
        return LeafWord::Absent;
    }
    let gpa = word - 1;
    if entry::is_address(gpa) {
        LeafWord::Present(gpa)
    } else {
        LeafWord::Misshapen
    }
}

// The word that says: present at this guest address.
#[tactic(auto, unfolding(crate::specs::Leaf::present_at))]
pub fn present_at(gpa: u64) -> u64
    ensures { result ≡ present_at gpa }
{
    gpa % entry::ADDRESS_LIMIT + 1
}
