// PUNMERGE: a guest moves out of a fixed page.
ghost use Rattle.std.specs.Prelude.{◌≡◌};
ghost use Rattle.entries.specs.Entry.{frame_of};
ghost use Rattle.rules.specs.Answers.{done, grant, settle};
ghost use Rattle.rules.specs.Merging.{punmerge};
ghost use Rattle.rules.specs.State.{state};
ghost use Rattle.checks.specs.Answer.{gave};
ghost use Rattle.checks.specs.Passed.{passed};
ghost use Rattle.merging.specs.Moved.{moving};

use checks::answer::Answer;
use checks::begin::begin_unmerge;
use checks::refusal::Refusal;
use checks::state::State;
use checks::{leaves, named};
use entries::entry::{Entry, frame_of};
use frames::frame;
use gates::unmerge_needs_met;
use rmp::table;

// The guest `asid` moves out of the fixed page at `hpa1` into the SHARED frame at `hpa2`.
pub fn punmerge(
    table: &mut [u64],
    memory: &mut [u64],
    caller: u64,
    hpa1: u64,
    hpa2: u64,
    asid: u64,
) -> Result<Answer, Refusal>
    ensures { gave result table.new memory.new
        ≡ punmerge (state table.old memory.old) caller hpa1 hpa2 asid }
{
    let (one, gpa) = check_unmerge(&State::new(table, memory), caller, hpa1, hpa2, asid)?;
    let frame1 = frame_of(hpa1);
    let frame2 = frame_of(hpa2);
    unmerge(table, memory, frame1, one, frame2, asid, gpa);
    Ok(Answer::Done)
}

// Entry 1, and the guest's place in its page.
fn check_unmerge(
    state: &State<'_>,
    caller: u64,
    hpa1: u64,
    hpa2: u64,
    asid: u64,
) -> Result<(Entry, u64), Refusal>
    ensures { punmerge state.now caller hpa1 hpa2 asid
        ≡ settle state.now (passed result λ place.
        grant done (moving state.now (frame_of hpa1) place.0 (frame_of hpa2) asid place.1)) }
{
    begin_unmerge(state, caller, hpa1, hpa2, asid)?;
    let (one, two) = named::both(state, hpa1, hpa2)?;
    unmerge_needs_met(one, two)?;
    let gpa = leaves::placed(leaves::consulted(state, one, asid))?;
    Ok((one, gpa))
}

// Two slices, of which each changes: a struct of two `&mut` would be made for this one call.
// Entry 2 is entry 1, moved.
fn unmerge(
    table: &mut [u64],
    memory: &mut [u64],
    frame1: usize,
    one: Entry,
    frame2: usize,
    asid: u64,
    gpa: u64,
)
    ensures { state table.new memory.new
        ≡ moving (state table.old memory.old) frame1 one frame2 asid gpa }
{
    frame::copy(memory, frame1, frame2);
    table::put(table, frame2, one.to_moved(asid, gpa));
    frame::put_word(memory, frame_of(one.address), asid as usize, 0);
}
