// The host half of the walk: a guest address through the host's tables.
ghost use Rattle.std.specs.Prelude.{◌≡◌};
ghost use Rattle.paging.specs.Walk.{down, host_reads, at_last, host_walk, host_half};
ghost use Rattle.walk.specs.Walked.{points, pointed};

use crate::entry::{Pointer, follow, index_at};
use crate::read::look;
use checks::ensure::ensure;
use checks::refusal::Refusal;
use checks::state::State;
use entries::entry::SHARED;

// One level down from a table.
#[inline(always)]
fn host_down(state: &State<'_>, level: u64, index: u64, from: Pointer) -> Result<Pointer, Refusal>
    ensures { pointed result ≡ down (host_reads state.now) at_last level index (points from) }
{
    let word = look(state, 0, 0, from.address, SHARED, SHARED, index)?;
    follow(level, level == 0, word)
}

// A guest page, by its number.
#[inline(always)]
fn host_walk(state: &State<'_>, host_root: u64, page: u64) -> Result<Pointer, Refusal>
    ensures { pointed result ≡ host_walk state.now host_root page }
{
    let mut at = Pointer {
        address: host_root,
        kind: SHARED,
    };
    for level in (0..4).rev() {
        at = host_down(state, level, index_at(level, page), at)?;
    }
    Ok(at)
}

#[inline(always)]
pub fn host_half(state: &State<'_>, host_root: u64, gpa: u64) -> Result<Pointer, Refusal>
    ensures { pointed result ≡ host_half state.now host_root gpa }
{
    ensure(gpa < 0x1000000000000, Refusal::Argument)?;
    host_walk(state, host_root, gpa / 4096)
}
