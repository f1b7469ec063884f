// 15: who uses a leaf. The check looks through the whole table.
ghost use Rattle.std.specs.Prelude.{◌≡◌, List, ℕ};
ghost use Rattle.rules.specs.Leaves.{names_leaf, leaf_in_use};
ghost use Rattle.rules.specs.State as rules;
ghost use Rattle.rules.specs.State.{N, entry_at};

use checks::state::State;

// 15: whether some well formed FIXED entry names the leaf at this address, which is so whatever memory holds. Compiled apart, so that the
// loop has the registers: inlined into PFIX it reads the address from the stack again for each entry.
#[inline(never)]
pub fn leaf_in_use(state: &State<'_>, leaf: u64) -> bool
    ensures { (memory : List ℕ) → result ≡ leaf_in_use (rules.state state.now.table memory) leaf (N state.now) }
{
    (0..state.covered()).any(|frame| names_leaf(state, frame, leaf))
}

// Only an entry in which the leaf's address stands is decoded: no other can name the leaf.
fn names_leaf(state: &State<'_>, frame: usize, leaf: u64) -> bool
    ensures { result ≡ names_leaf (entry_at state.now frame) leaf }
{
    let there = state.address(frame) == leaf;
    there
        && state
            .entry(frame)
            .is_ok_and(|e| e.fixed && e.address == leaf)
}
