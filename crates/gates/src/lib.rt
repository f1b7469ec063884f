// What each instruction needs of the frames that it names: the constant table of types and flags, and the checks that read it, with what
// the rules check between them.
#![tactic(auto)]

pub mod table;

ghost use Rattle.std.specs.Prelude.{◌≡◌, eqb};
ghost use Rattle.words.specs.Choice.{◌and◌};
ghost use Rattle.entries.specs.Entry.{SHARED, MERGEABLE, LEAF};
ghost use Rattle.rules.specs.Access.{unfixed_access};
ghost use Rattle.rules.specs.Answers.{Verdict, unless, when};
ghost use Rattle.rules.specs.Refusals.{TYPE, OWNER, ADDRESS, NOT_VALIDATED, FIXED, NOT_FIXED};
ghost use Rattle.checks.specs.Answer.{means};
ghost use Rattle.checks.specs.Passed.{past};
ghost use Rattle.needs.specs.Needed.{fixed_refusal, flags_needed, one_frame_needed, two_frames_needed, access_need};

use crate::table::needs;
use checks::ensure::ensure;
use checks::refusal::Refusal;
use entries::entry::Entry;
use needs::need::{FlagNeed, Need};
use needs::table::TwoFrames;

// RMPUPDATE: 6, 10.
#[tactic(auto, using(needs::proofs::Rows::update_row))]
pub fn update_needs_met(old: Entry) -> Result<(), Refusal>
    ensures { (v : Verdict) → past result v ≡ when (eqb old.kind LEAF) TYPE (when old.fixed FIXED v) }
{
    one_frame_met(needs().rmpupdate, old)
}

// PVALIDATE: 6, 7, 10, 8.
#[tactic(auto, using(crate::proofs::Chained::chained, needs::proofs::Rows::validate_kind, needs::proofs::Rows::validate_flags))]
pub fn validate_needs_met(page: Entry, caller: u64, gpa: u64, kind: u64) -> Result<(), Refusal>
    ensures { (v : Verdict) → past result v
        ≡ unless (eqb page.kind kind) TYPE
        (unless (eqb page.asid caller) OWNER
        (when page.fixed FIXED
        (unless (eqb page.address gpa) ADDRESS v))) }
{
    let need = needs().pvalidate;
    let typed = ensure(need.kind.met(page.kind, Some(kind)), Refusal::PageType);
    let owned = typed.and(ensure(page.asid == caller, Refusal::Owner));
    let flagged = owned.and(flags_met(need, page));
    flagged.and(ensure(page.address == gpa, Refusal::Address))
}

// PFIX: 6 of both, 10, 9.
#[tactic(auto, using(needs::proofs::Rows::fix_row))]
pub fn fix_needs_met(old: Entry, leaf: Entry) -> Result<(), Refusal>
    ensures { (v : Verdict) → past result v
        ≡ unless (eqb old.kind MERGEABLE and eqb leaf.kind LEAF) TYPE
        (when old.fixed FIXED
        (unless old.validated NOT_VALIDATED v)) }
{
    two_frames_met(needs().pfix, old, leaf)
}

// PMERGE: 6 of both, 11 of the first, 10 and 9 of the second.
#[tactic(auto, using(needs::proofs::Rows::merge_row))]
pub fn merge_needs_met(one: Entry, two: Entry) -> Result<(), Refusal>
    ensures { (v : Verdict) → past result v
        ≡ unless (eqb one.kind MERGEABLE and eqb two.kind MERGEABLE) TYPE
        (unless one.fixed NOT_FIXED
        (when two.fixed FIXED
        (unless two.validated NOT_VALIDATED v))) }
{
    two_frames_met(needs().pmerge, one, two)
}

// PUNMERGE: 6 of both, 11.
#[tactic(auto, using(needs::proofs::Rows::unmerge_row))]
pub fn unmerge_needs_met(one: Entry, two: Entry) -> Result<(), Refusal>
    ensures { (v : Verdict) → past result v
        ≡ unless (eqb one.kind MERGEABLE and eqb two.kind SHARED) TYPE (unless one.fixed NOT_FIXED v) }
{
    two_frames_met(needs().punmerge, one, two)
}

// PUNFIX: 6, 11.
#[tactic(auto, using(needs::proofs::Rows::unfix_row))]
pub fn unfix_needs_met(old: Entry) -> Result<(), Refusal>
    ensures { (v : Verdict) → past result v
        ≡ unless (eqb old.kind MERGEABLE) TYPE (unless old.fixed NOT_FIXED v) }
{
    one_frame_met(needs().punfix, old)
}

// What a row needs of the one frame that its instruction names: 6, then the flags.
#[tactic(auto, using(crate::proofs::Chained::chained), unfolding(needs::specs::Needed::one_frame_needed))]
fn one_frame_met(need: Need, page: Entry) -> Result<(), Refusal>
    ensures { (v : Verdict) → past result v ≡ one_frame_needed need page v }
{
    ensure(need.kind.met(page.kind, None), Refusal::PageType).and(flags_met(need, page))
}

// What a row needs of two frames: 6 of both, then the flags of the first and those of the second.
#[tactic(auto, using(crate::proofs::Chained::chained), unfolding(needs::specs::Needed::two_frames_needed))]
#[inline(always)]
fn two_frames_met(row: TwoFrames, one: Entry, two: Entry) -> Result<(), Refusal>
    ensures { (v : Verdict) → past result v ≡ two_frames_needed row one two v }
{
    let typed = row.first.kind.met(one.kind, None) & row.second.kind.met(two.kind, None);
    ensure(typed, Refusal::PageType)
        .and(flags_met(row.first, one))
        .and(flags_met(row.second, two))
}

// The flags of a page: FIXED, then VALIDATED.
#[tactic(auto, using(crate::proofs::Chained::chained), unfolding(needs::specs::Needed::flags_needed))]
fn flags_met(need: Need, page: Entry) -> Result<(), Refusal>
    ensures { (v : Verdict) → past result v ≡ flags_needed need page v }
{
    let fixed = ensure(need.fixed.met(page.fixed), fixed_refusal(need.fixed));
    let validated = ensure(need.validated.met(page.validated), Refusal::NotValidated);
    fixed.and(validated)
}

// 11 where FIXED must be set, else 10.
#[tactic(auto, unfolding(needs::specs::Needed::fixed_refusal))]
fn fixed_refusal(need: FlagNeed) -> Refusal
    ensures { means result ≡ fixed_refusal need }
{
    match need {
        FlagNeed::Set => Refusal::NotFixed,
        FlagNeed::Clear | FlagNeed::Either => Refusal::Fixed,
    }
}

// What WRITE needs, or READ.
#[tactic(auto, unfolding(needs::specs::Needed::access_need, words::specs::Choice::pick))]
fn access_need(writes: bool) -> Need
    ensures { result ≡ access_need writes }
{
    if writes { needs().write } else { needs().read }
}

// READ and WRITE: 6, of a page of the type `kind`.
#[tactic(auto, using(needs::proofs::AccessNeeds::kind_called), unfolding(needs::specs::Needs::kind_met))]
pub fn access_type_met(writes: bool, kind: u64, gtype: u64) -> Result<(), Refusal>
    ensures { (v : Verdict) → past result v ≡ unless (eqb kind gtype) TYPE v }
{
    let need = access_need(writes);
    ensure(need.kind.met(kind, Some(gtype)), Refusal::PageType)
}

// READ and WRITE of a fixed page: 10.
#[tactic(auto, using(needs::proofs::AccessNeeds::fixed_meets), unfolding(rules::specs::Answers::when))]
pub fn fixed_access_met(writes: bool) -> Result<(), Refusal>
    ensures { (v : Verdict) → past result v ≡ when writes FIXED v }
{
    ensure(access_need(writes).fixed.met(true), Refusal::Fixed)
}

// READ and WRITE of a page that is not fixed: 7, 8, 9. The row's FIXED is held against it too: one that needs it set breaks this promise.
#[tactic(auto, using(crate::proofs::Chained::chained, needs::proofs::AccessNeeds::validated_set, needs::proofs::AccessNeeds::unfixed_meets), unfolding(needs::specs::Needs::flag_met, rules::specs::Access::unfixed_access, rules::specs::Answers::unless, words::specs::Choice::pick))]
pub fn unfixed_access_met(writes: bool, page: Entry, caller: u64, gpa: u64) -> Result<(), Refusal>
    ensures { (v : Verdict) → past result v ≡ unfixed_access caller gpa page v }
{
    let need = access_need(writes);
    ensure(need.fixed.met(false), Refusal::NotFixed)
        .and(ensure(page.asid == caller, Refusal::Owner))
        .and(ensure(page.address == gpa, Refusal::Address))
        .and(ensure(need.validated.met(page.validated), Refusal::NotValidated))
}
