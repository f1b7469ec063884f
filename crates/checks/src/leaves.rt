// The leaf of a fixed page, and the word consulted in it.
ghost use Rattle.std.specs.Prelude.{◌≡◌, ℕ};
ghost use Rattle.rules.specs.Answers.{Verdict};
ghost use Rattle.rules.specs.Leaves.{is_leaf, consulted, vacant, placed};
ghost use Rattle.checks.specs.Passed.{passed, past};

use crate::refusal::Refusal;
use crate::state::State;
use entries::entry::{Entry, LEAF, frame_of};
use entries::leaf::{LeafWord, leaf_word};
use entries::reason::Reason;

// Whether a decoded entry is a LEAF.
#[tactic(auto, unfolding(rules::specs::Leaves::is_leaf))]
pub fn is_leaf(decoded: Result<Entry, Reason>) -> bool
    ensures { result ≡ is_leaf decoded }
{
    let Ok(e) = decoded else {
        return false;
    };
    e.kind == LEAF
}

// The guest's word in the page's leaf. A leaf whose entry is not a well formed LEAF says as little as a misshapen word.
pub fn consulted(state: &State<'_>, page: Entry, guest: u64) -> LeafWord
    ensures { result ≡ consulted state.now page guest }
{
    let leaf = frame_of(page.address);
    if is_leaf(state.entry(leaf)) {
        return leaf_word(state.word(leaf, guest as usize));
    }
    LeafWord::Misshapen
}

// 12, then 14: PMERGE goes on only with a word that is absent.
#[tactic(auto, unfolding(crate::specs::Passed::past, rules::specs::Leaves::vacant))]
pub fn vacant(word: LeafWord) -> Result<(), Refusal>
    ensures { (v : Verdict) → past result v ≡ vacant word v }
{
    match word {
        LeafWord::Misshapen => Err(Refusal::BrokenLeaf),
        LeafWord::Present(_) => Err(Refusal::PlaceTaken),
        LeafWord::Absent => Ok(()),
    }
}

// 12, then 13: PUNMERGE goes on only with a word that is present, and so with the guest's address in the fixed page.
#[tactic(auto, unfolding(crate::specs::Passed::passed, rules::specs::Leaves::placed))]
pub fn placed(word: LeafWord) -> Result<u64, Refusal>
    ensures { (rest : ℕ → Verdict) → passed result rest ≡ placed word rest }
{
    match word {
        LeafWord::Misshapen => Err(Refusal::BrokenLeaf),
        LeafWord::Absent => Err(Refusal::NoPlace),
        LeafWord::Present(gpa) => Ok(gpa),
    }
}
