// A word of a table, read as READ reads it.
ghost use Rattle.std.specs.Prelude.{◌≡◌};
ghost use Rattle.paging.specs.Walk.{look};
ghost use Rattle.walk.specs.Walked.{seen};

use access::check::{READING, checked};
use checks::refusal::Refusal;
use checks::state::State;
use entries::entry::frame_of;

// A word of the caller's table at `gpa`, in the frame at `hpa`: the definition's parameters, one by one.
#[inline(always)]
#[tactic(auto, unfolding(paging::specs::Walk::look, paging::specs::Walk::let_through, checks::specs::Passed::past))]
pub fn look(
    state: &State<'_>,
    caller: u64,
    gpa: u64,
    hpa: u64,
    gtype: u64,
    ntype: u64,
    index: u64,
) -> Result<u64, Refusal>
    ensures { seen result ≡ look state.now caller gpa hpa gtype ntype index }
{
    checked(state, READING, caller, gpa, hpa, gtype, ntype, index)?;
    Ok(state.word(frame_of(hpa), index as usize))
}
