// The checks of READ and WRITE, which are the same but for a fixed page, in three parts: what an access begins with, the frame that it
// reaches, and what is allowed there. They are compiled into every function that makes an access, by their `inline` attributes: as functions
// of their own they took READ 1.4 and a walk 2.9 times Rust's time.
#![tactic(auto, unfolding(rules::specs::Access::fixed_access, checks::specs::Passed::past, words::specs::Choice::pick))]

ghost use Rattle.std.specs.Prelude.{◌≡◌, eqb, ltb};
ghost use Rattle.entries.specs.Entry.{frame_of};
ghost use Rattle.rules.specs.Access.{fixed_access, access};
ghost use Rattle.rules.specs.Answers.{Verdict, unless, begins};
ghost use Rattle.rules.specs.Arguments.{access_arguments, may_access};
ghost use Rattle.rules.specs.Refusals.{TYPE};
ghost use Rattle.rules.specs.State.{M, covers, entry_at};
ghost use Rattle.checks.specs.Passed.{past};
ghost use Rattle.access.specs.Reached.{reached, covered_reached, frame_reached, page_access};

use checks::begin::begin_access;
use checks::ensure::ensure;
use checks::leaves;
use checks::refusal::Refusal;
use checks::state::State;
use entries::entry::{Entry, SHARED, frame_of};
use entries::reason::Reason;
use gates::{access_type_met, fixed_access_met, unfixed_access_met};

// Whether an access writes: a `bool`, as the rules have it, and what `gates` branches on; an enum would only be turned into it.
pub const READING: bool = false;

pub const WRITING: bool = true;

// The three parts together. (The numbers stay parameters, as C's functions and the rules have them: a struct would be built at each of the calls, and
// taken apart in each check.)
#[inline(always)]
pub fn checked(
    state: &State<'_>,
    writes: bool,
    caller: u64,
    gpa: u64,
    hpa: u64,
    gtype: u64,
    ntype: u64,
    index: u64,
) -> Result<(), Refusal>
    ensures { (v : Verdict) → past result v ≡ access state.now writes caller gpa hpa gtype ntype index v }
{
    begun(state, caller, gpa, hpa, gtype, ntype, index)?;
    let frame = reach_named(state, hpa, writes, gtype);
    allowed(state, writes, caller, gpa, frame)
}

// 1 to 4, and 6 of the two types that the call names.
#[inline(always)]
pub fn begun(
    state: &State<'_>,
    caller: u64,
    gpa: u64,
    hpa: u64,
    gtype: u64,
    ntype: u64,
    index: u64,
) -> Result<(), Refusal>
    ensures { (v : Verdict) → past result v
        ≡ begins state.now
        (access_arguments caller gpa hpa gtype ntype index) (may_access caller gtype ntype)
        (ltb (frame_of hpa) (M state.now))
        (unless (eqb gtype ntype) TYPE v) }
{
    let begun = begin_access(state, caller, gpa, hpa, gtype, ntype, index);
    begun.and(ensure(gtype == ntype, Refusal::PageType))
}

// A frame's entry. One that is named as SHARED is mostly of two zero words: that is quicker than to decode them.
#[inline(always)]
fn entry(state: &State<'_>, frame: usize, gtype: u64) -> Result<Entry, Reason>
    ensures { result ≡ entry_at state.now frame }
{
    if gtype == SHARED {
        return state.shared_entry(frame);
    }
    state.entry(frame)
}

// The frame that the call names. Its entry is decoded only where the table covers it.
#[inline(always)]
#[tactic(auto, unfolding(crate::specs::Reached::frame_reached, words::specs::Choice::pick))]
fn reach_named(
    state: &State<'_>,
    hpa: u64,
    writes: bool,
    gtype: u64,
) -> Result<Option<Entry>, Refusal>
    ensures { (v : Verdict) (page : Entry → Verdict) → reached result v page
        ≡ frame_reached (covers state.now hpa) (entry_at state.now (frame_of hpa)) gtype v page }
{
    if state.covers(hpa) {
        return reach(true, entry(state, frame_of(hpa), gtype), writes, gtype);
    }
    reach(false, Err(Reason::NoEntry), writes, gtype)
}

// Of a frame that the table covers, with its entry: 5, 6. Of any other: 6 unless SHARED. A SHARED one needs no more checks: there is no page
// then.
#[inline(always)]
#[tactic(auto, unfolding(crate::specs::Reached::reached, crate::specs::Reached::frame_reached, rules::specs::Answers::unless, checks::specs::Passed::past, words::specs::Choice::pick))]
pub fn reach(
    covered: bool,
    here: Result<Entry, Reason>,
    writes: bool,
    gtype: u64,
) -> Result<Option<Entry>, Refusal>
    ensures { (v : Verdict) (page : Entry → Verdict) → reached result v page ≡ frame_reached covered here gtype v page }
{
    if covered {
        return reach_covered(here, writes, gtype);
    }
    ensure(gtype == SHARED, Refusal::PageType)?;
    Ok(None)
}

// Of a covered frame.
#[inline(always)]
#[tactic(auto, unfolding(crate::specs::Reached::reached, crate::specs::Reached::covered_reached, rules::specs::Answers::entered, rules::specs::Answers::unless, checks::specs::Passed::past, words::specs::Choice::pick))]
fn reach_covered(
    here: Result<Entry, Reason>,
    writes: bool,
    gtype: u64,
) -> Result<Option<Entry>, Refusal>
    ensures { (v : Verdict) (page : Entry → Verdict) → reached result v page ≡ covered_reached here gtype v page }
{
    let page = here?;
    access_type_met(writes, page.kind, gtype)?;
    if gtype == SHARED {
        return Ok(None);
    }
    Ok(Some(page))
}

// What is left to check of the frame that was reached.
#[inline(always)]
#[tactic(auto, unfolding(crate::specs::Reached::reached, crate::specs::Reached::page_access, checks::specs::Passed::past, words::specs::Choice::pick))]
pub fn allowed(
    state: &State<'_>,
    writes: bool,
    caller: u64,
    gpa: u64,
    frame: Result<Option<Entry>, Refusal>,
) -> Result<(), Refusal>
    ensures { (v : Verdict) → past result v
        ≡ reached frame v λ page. page_access state.now writes caller gpa page v }
{
    let Some(page) = frame? else {
        return Ok(());
    };
    if page.fixed {
        return fixed_checked(state, writes, caller, gpa, page);
    }
    unfixed_access_met(writes, page, caller, gpa)
}

// Of a fixed page: the caller's word in its leaf decides.
#[inline(always)]
fn fixed_checked(
    state: &State<'_>,
    writes: bool,
    caller: u64,
    gpa: u64,
    page: Entry,
) -> Result<(), Refusal>
    ensures { (v : Verdict) → past result v ≡ fixed_access state.now writes caller gpa page v }
{
    fixed_access_met(writes)?;
    let held = leaves::placed(leaves::consulted(state, page, caller))?;
    ensure(held == gpa, Refusal::Address)
}
