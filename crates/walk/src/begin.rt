// The checks that a call by virtual address begins with, and then its walk.
ghost use Rattle.std.specs.Prelude.{◌≡◌};
ghost use Rattle.rules.specs.State.{state};
ghost use Rattle.paging.specs.Entry.{is_virtual};
ghost use Rattle.paging.specs.Walk.{virtual_arguments, translated};
ghost use Rattle.walk.specs.Walked.{mapped, virtual_of};

use crate::guest::{Mapping, Virtual, walk};
use checks::arguments::is_host;
use checks::ensure::ensure;
use checks::refusal::Refusal;
use checks::state::State;
use entries::entry::{MERGEABLE, is_address, is_party};

// A multiple of 4,096 whose bits 63:47 are all clear, or all set.
fn is_virtual(va: u64) -> bool
    ensures { result ≡ is_virtual va }
{
    (va % 0x1000 == 0) & ((va / 0x800000000000 == 0) | (va / 0x800000000000 == 0x1ffff))
}

fn virtual_arguments(at: &Virtual) -> bool
    ensures { result ≡ virtual_arguments (virtual_of at.now) }
{
    is_party(at.caller)
        & is_address(at.root)
        & (at.root_type <= MERGEABLE)
        & is_address(at.host_root)
        & is_virtual(at.va)
}

// 1, 2 of all arguments, and 3 for caller 0; then on the way. `fits`: whatever other arguments the call has are as they must be.
// (A function of its own, which all calls by virtual address share. Table and memory come as slices, in registers: by a `&State` a walk
// took a tenth longer.)
#[inline(never)]
pub fn translate(
    table: &[u64],
    memory: &[u64],
    at: &Virtual,
    fits: bool,
) -> Result<Mapping, Refusal>
    ensures { mapped result
        ≡ translated (state table.now memory.now) (virtual_of at.now) fits }
{
    let state = State::new(table, memory);
    ensure(state.sizes_hold(), Refusal::Geometry)
        .and(ensure(virtual_arguments(at) & fits, Refusal::Argument))
        .and(ensure(!is_host(at.caller), Refusal::Caller))?;
    walk(&state, at)
}
