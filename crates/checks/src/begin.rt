// The checks that each call begins with: 1 the sizes, 2 the arguments, 3 the party, 4 the named frames. The arguments stand one by one, as in
// C's functions and in the rules' definitions: a struct would be built once a call, and taken apart here.
ghost use Rattle.std.specs.Prelude.{◌≡◌, not, ltb};
ghost use Rattle.words.specs.Choice.{◌and◌};
ghost use Rattle.entries.specs.Entry.{frame_of, is_guest};
ghost use Rattle.rules.specs.Answers.{Verdict, unless, begins};
ghost use Rattle.rules.specs.Arguments.{is_host, update_arguments, validate_arguments, two_frame_arguments, unmerge_arguments};
ghost use Rattle.rules.specs.Arguments.{one_frame_arguments, access_arguments, may_access};
ghost use Rattle.rules.specs.Refusals.{GEOMETRY, ARGUMENT};
ghost use Rattle.rules.specs.State.{sized, covers, M};
ghost use Rattle.checks.specs.Passed.{past};

use crate::arguments::{
    access_arguments, is_host, may_access, one_frame_arguments, two_frame_arguments,
    unmerge_arguments, update_arguments, validate_arguments,
};
use crate::ensure::ensure;
use crate::refusal::Refusal;
use crate::state::State;
use entries::entry::{frame_of, is_guest};

fn begin(state: &State<'_>, arguments: bool, party: bool, inside: bool) -> Result<(), Refusal>
    ensures { (v : Verdict) → past result v
        ≡ begins state.now arguments party inside v }
{
    ensure(state.sizes_hold(), Refusal::Geometry)
        .and(ensure(arguments, Refusal::Argument))
        .and(ensure(party, Refusal::Caller))
        .and(ensure(inside, Refusal::Outside))
}

pub fn begin_update(
    state: &State<'_>,
    caller: u64,
    hpa: u64,
    gpa: u64,
    asid: u64,
    kind: u64,
) -> Result<(), Refusal>
    ensures { (v : Verdict) → past result v
        ≡ begins state.now
        (update_arguments caller hpa gpa asid kind) (is_host caller)
        (covers state.now hpa) v }
{
    let given = update_arguments(caller, hpa, gpa, asid, kind);
    let party = is_host(caller);
    begin(state, given, party, state.covers(hpa))
}

pub fn begin_validate(
    state: &State<'_>,
    caller: u64,
    gpa: u64,
    hpa: u64,
    kind: u64,
) -> Result<(), Refusal>
    ensures { (v : Verdict) → past result v
        ≡ begins state.now
        (validate_arguments caller gpa hpa kind) (not (is_host caller))
        (covers state.now hpa) v }
{
    let given = validate_arguments(caller, gpa, hpa, kind);
    let party = !is_host(caller);
    begin(state, given, party, state.covers(hpa))
}

// PFIX and PMERGE.
pub fn begin_two_frames(state: &State<'_>, caller: u64, hpa1: u64, hpa2: u64) -> Result<(), Refusal>
    ensures { (v : Verdict) → past result v
        ≡ begins state.now
        (two_frame_arguments caller hpa1 hpa2) (is_host caller)
        (covers state.now hpa1
        and covers state.now hpa2) v }
{
    let given = two_frame_arguments(caller, hpa1, hpa2);
    let party = is_host(caller);
    begin(state, given, party, state.covers(hpa1) & state.covers(hpa2))
}

pub fn begin_unmerge(
    state: &State<'_>,
    caller: u64,
    hpa1: u64,
    hpa2: u64,
    asid: u64,
) -> Result<(), Refusal>
    ensures { (v : Verdict) → past result v
        ≡ begins state.now
        (unmerge_arguments caller hpa1 hpa2 asid) (is_host caller)
        (covers state.now hpa1
        and covers state.now hpa2) v }
{
    let given = unmerge_arguments(caller, hpa1, hpa2, asid);
    let party = is_host(caller);
    begin(state, given, party, state.covers(hpa1) & state.covers(hpa2))
}

pub fn begin_unfix(state: &State<'_>, caller: u64, hpa: u64) -> Result<(), Refusal>
    ensures { (v : Verdict) → past result v
        ≡ begins state.now
        (one_frame_arguments caller hpa) (is_host caller)
        (covers state.now hpa) v }
{
    let given = one_frame_arguments(caller, hpa);
    let party = is_host(caller);
    begin(state, given, party, state.covers(hpa))
}

// READ and WRITE, which may name any frame of memory.
pub fn begin_access(
    state: &State<'_>,
    caller: u64,
    gpa: u64,
    hpa: u64,
    gtype: u64,
    ntype: u64,
    index: u64,
) -> Result<(), Refusal>
    ensures { (v : Verdict) → past result v
        ≡ begins state.now
        (access_arguments caller gpa hpa gtype ntype index) (may_access caller gtype ntype)
        (ltb (frame_of hpa) (M state.now)) v }
{
    let given = access_arguments(caller, gpa, hpa, gtype, ntype, index);
    let party = may_access(caller, gtype, ntype);
    let inside = frame_of(hpa) < state.frames();
    begin(state, given, party, inside)
}

// CENSUS has no caller and names no frame.
pub fn begin_census(state: &State<'_>, asid: u64) -> Result<(), Refusal>
    ensures { (v : Verdict) → past result v
        ≡ unless (sized state.now) GEOMETRY
        (unless (is_guest asid) ARGUMENT v) }
{
    ensure(state.sizes_hold(), Refusal::Geometry).and(ensure(is_guest(asid), Refusal::Argument))
}
