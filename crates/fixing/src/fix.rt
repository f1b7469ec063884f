// PFIX: a page gets a leaf.
ghost use Rattle.std.specs.Prelude.{◌≡◌};
ghost use Rattle.entries.specs.Entry.{frame_of};
ghost use Rattle.rules.specs.Answers.{done, grant, settle};
ghost use Rattle.rules.specs.Merging.{fixing, pfix};
ghost use Rattle.rules.specs.State.{state};
ghost use Rattle.checks.specs.Answer.{gave};
ghost use Rattle.checks.specs.Passed.{passed};

use crate::scan;
use checks::answer::Answer;
use checks::begin::begin_two_frames;
use checks::ensure::ensure;
use checks::named;
use checks::refusal::Refusal;
use checks::state::State;
use entries::entry::{Entry, frame_of};
use entries::leaf::present_at;
use frames::frame;
use gates::fix_needs_met;
use rmp::table;

// The page at `hpa` is fixed, with the LEAF frame at `leaf` as its leaf: its owner is the first guest in it.
pub fn pfix(
    table: &mut [u64],
    memory: &mut [u64],
    caller: u64,
    hpa: u64,
    leaf: u64,
) -> Result<Answer, Refusal>
    ensures { gave result table.new memory.new
        ≡ pfix (state table.old memory.old) caller hpa leaf }
{
    let old = check_fix(&State::new(table, memory), caller, hpa, leaf)?;
    fix(table, memory, frame_of(hpa), old, leaf);
    Ok(Answer::Done)
}

// The table is looked through only where all else has passed.
fn check_fix(state: &State<'_>, caller: u64, hpa: u64, leaf: u64) -> Result<Entry, Refusal>
    ensures { pfix state.now caller hpa leaf
        ≡ settle state.now (passed result λ old.
        grant done (fixing state.now (frame_of hpa) old leaf)) }
{
    begin_two_frames(state, caller, hpa, leaf)?;
    let (old, leaf_entry) = named::both(state, hpa, leaf)?;
    fix_needs_met(old, leaf_entry)?;
    ensure(!scan::leaf_in_use(state, leaf), Refusal::LeafInUse)?;
    Ok(old)
}

// Two slices, of which each changes: a struct of two `&mut` would be made for this one call.
fn fix(table: &mut [u64], memory: &mut [u64], frame: usize, old: Entry, leaf: u64)
    ensures { state table.new memory.new
        ≡ fixing (state table.old memory.old) frame old leaf }
{
    let leaf_frame = frame_of(leaf);
    frame::zero(memory, leaf_frame);
    frame::put_word(
        memory,
        leaf_frame,
        old.asid as usize,
        present_at(old.address),
    );
    table::put(table, frame, old.to_fixed(leaf));
}
