// PMERGE: a guest's page moves into a fixed one of the same contents.
ghost use Rattle.std.specs.Prelude.{◌≡◌};
ghost use Rattle.entries.specs.Entry.{frame_of};
ghost use Rattle.rules.specs.Answers.{done, grant, settle};
ghost use Rattle.rules.specs.Merging.{merging, pmerge};
ghost use Rattle.rules.specs.State.{state};
ghost use Rattle.checks.specs.Answer.{gave};
ghost use Rattle.checks.specs.Passed.{passed};

use checks::answer::Answer;
use checks::begin::begin_two_frames;
use checks::ensure::ensure;
use checks::refusal::Refusal;
use checks::state::State;
use checks::{leaves, named};
use entries::entry::{Entry, frame_of};
use entries::leaf::present_at;
use frames::frame;
use gates::merge_needs_met;
use rmp::table;

// The page at `hpa2` moves into the fixed page at `hpa1`, and its frame becomes SHARED.
pub fn pmerge(
    table: &mut [u64],
    memory: &mut [u64],
    caller: u64,
    hpa1: u64,
    hpa2: u64,
) -> Result<Answer, Refusal>
    ensures { gave result table.new memory.new
        ≡ pmerge (state table.old memory.old) caller hpa1 hpa2 }
{
    let (one, two) = check_merge(&State::new(table, memory), caller, hpa1, hpa2)?;
    merge(table, memory, one, frame_of(hpa2), two);
    Ok(Answer::Done)
}

// The frames are compared only where all else has passed.
fn check_merge(
    state: &State<'_>,
    caller: u64,
    hpa1: u64,
    hpa2: u64,
) -> Result<(Entry, Entry), Refusal>
    ensures { pmerge state.now caller hpa1 hpa2
        ≡ settle state.now (passed result λ both.
        grant done (merging state.now both.0 (frame_of hpa2) both.1)) }
{
    begin_two_frames(state, caller, hpa1, hpa2)?;
    let (one, two) = named::both(state, hpa1, hpa2)?;
    merge_needs_met(one, two)?;
    leaves::vacant(leaves::consulted(state, one, two.asid))?;
    let differing = state.differing(frame_of(hpa1), frame_of(hpa2));
    ensure(differing == 0, Refusal::Contents)?;
    Ok((one, two))
}

// Two slices, of which each changes: a struct of two `&mut` would be made for this one call.
fn merge(table: &mut [u64], memory: &mut [u64], one: Entry, frame2: usize, two: Entry)
    ensures { state table.new memory.new
        ≡ merging (state table.old memory.old) one frame2 two }
{
    let leaf = frame_of(one.address);
    frame::put_word(memory, leaf, two.asid as usize, present_at(two.address));
    frame::zero(memory, frame2);
    let freed = Entry::zero();
    table::put(table, frame2, freed);
}
