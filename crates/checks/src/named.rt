// The entries of the frames that a call names, decoded: a call goes on only with decoded entries.
ghost use Rattle.std.specs.Prelude.{◌≡◌};
ghost use Rattle.entries.specs.Entry.{frame_of};
ghost use Rattle.rules.specs.State.{entry_at};
ghost use Rattle.checks.specs.Named.{named, both_named};

use crate::refusal::Refusal;
use crate::state::State;
use entries::entry::{Entry, frame_of};

// 5 of the frame at `hpa`.
#[tactic(auto, unfolding(crate::specs::Named::named))]
pub fn entry(state: &State<'_>, hpa: u64) -> Result<Entry, Refusal>
    ensures { result ≡ named (entry_at state.now (frame_of hpa)) }
{
    Ok(state.entry(frame_of(hpa))?)
}

// 5 of the frame at `hpa1`, then of that at `hpa2`.
#[inline(always)]
#[tactic(auto, unfolding(crate::specs::Named::named, crate::specs::Named::and_named))]
pub fn both(state: &State<'_>, hpa1: u64, hpa2: u64) -> Result<(Entry, Entry), Refusal>
    ensures { result ≡ both_named (entry_at state.now (frame_of hpa1)) (entry_at state.now (frame_of hpa2)) }
{
    let one = entry(state, hpa1)?;
    let two = entry(state, hpa2)?;
    Ok((one, two))
}
