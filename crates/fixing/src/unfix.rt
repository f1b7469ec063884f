// PUNFIX: a page gives its leaf back, and becomes the page of the one guest that is left in it, or nobody's.
ghost use Rattle.std.specs.Prelude.{◌≡◌, ℕ};
ghost use Rattle.frames.specs.Frame.{zeros};
ghost use Rattle.entries.specs.Entry.{frame_of, zero_entry, to_moved};
ghost use Rattle.rules.specs.Answers.{unfixed, Verdict, grant, settle};
ghost use Rattle.rules.specs.Leaves.{leaf_frame, of_guest, remaining};
ghost use Rattle.rules.specs.Merging.{unfixing, punfix};
ghost use Rattle.rules.specs.State.{state, with_frame};
ghost use Rattle.checks.specs.Answer.{gave};
ghost use Rattle.checks.specs.Passed.{passed};
ghost use Rattle.fixing.specs.Left.{by_left};

use checks::answer::Answer;
use checks::begin::begin_unfix;
use checks::ensure::ensure;
use checks::leaves::is_leaf;
use checks::named;
use checks::refusal::Refusal;
use checks::state::State;
use entries::entry::{Entry, frame_of, is_guest};
use entries::leaf::{LeafWord, leaf_word};
use frames::frame;
use gates::unfix_needs_met;
use parity::{Odd, find_odd};
use rmp::table;

// The one guest that is left in a fixed page: its number, and its address there.
#[derive(Clone, Copy)]
struct Guest {
    asid: u64,
    gpa: u64,
}

// The page at `hpa` becomes the page of the one guest that is left in it, or SHARED where nobody is, and its leaf SHARED.
pub fn punfix(
    table: &mut [u64],
    memory: &mut [u64],
    caller: u64,
    hpa: u64,
) -> Result<Answer, Refusal>
    ensures { gave result table.new memory.new
        ≡ punfix (state table.old memory.old) caller hpa }
{
    let (old, left) = check_unfix(&State::new(table, memory), caller, hpa)?;
    let frame = frame_of(hpa);
    match left {
        Some(guest) => {
            unfix(
                table,
                memory,
                frame,
                old,
                old.to_moved(guest.asid, guest.gpa),
            );
            Ok(Answer::Unfixed(guest.asid))
        }
        None => {
            free(table, memory, frame, old);
            Ok(Answer::Unfixed(0))
        }
    }
}

// The page's entry, and who is left in the page.
fn check_unfix(state: &State<'_>, caller: u64, hpa: u64) -> Result<(Entry, Option<Guest>), Refusal>
    ensures { punfix state.now caller hpa
        ≡ settle state.now (passed result λ page.
        by_left page.1
        (λ guest gpa. grant (unfixed guest)
        (unfixing state.now (frame_of hpa) page.0 (to_moved page.0 guest gpa)))
        (grant (unfixed 0)
        (unfixing (with_frame state.now (frame_of hpa) zeros) (frame_of hpa) page.0 zero_entry))) }
{
    begin_unfix(state, caller, hpa)?;
    let old = named::entry(state, hpa)?;
    unfix_needs_met(old)?;
    let leaf = state.entry(frame_of(old.address));
    ensure(is_leaf(leaf), Refusal::BrokenLeaf)?;
    let left = left_in_leaf(state, old)?;
    Ok((old, left))
}

// The leaf is looked through once, whatever it holds.
#[inline(always)]
fn left_in_leaf(state: &State<'_>, old: Entry) -> Result<Option<Guest>, Refusal>
    ensures { (one : ℕ → ℕ → Verdict) (none : Verdict) → passed result (λ left. by_left left one none)
        ≡ remaining state.now (leaf_frame old) one none }
{
    let leaf = frame_of(old.address);
    match find_odd(state.frame(leaf)) {
        Odd::None => Ok(None),
        Odd::One(index) => {
            let asid = index as u64;
            let gpa = of_guest(asid, leaf_word(state.word(leaf, index)))?;
            Ok(Some(Guest { asid, gpa }))
        }
        Odd::Several => Err(Refusal::StillShared),
    }
}

// The one that is left has to be a guest, at an address.
fn of_guest(index: u64, word: LeafWord) -> Result<u64, Refusal>
    ensures { (rest : ℕ → Verdict) → passed result rest ≡ of_guest index word rest }
{
    let LeafWord::Present(gpa) = word else {
        return Err(Refusal::BrokenLeaf);
    };
    ensure(is_guest(index), Refusal::BrokenLeaf)?;
    Ok(gpa)
}

// Two slices, of which each changes: a struct of two `&mut` would be made for this one call.
// The page gets another entry, and its leaf becomes SHARED.
fn unfix(table: &mut [u64], memory: &mut [u64], frame: usize, old: Entry, new: Entry)
    ensures { state table.new memory.new
        ≡ unfixing (state table.old memory.old) frame old new }
{
    let leaf = frame_of(old.address);
    table::put(table, frame, new);
    table::put(table, leaf, Entry::zero());
    frame::zero(memory, leaf);
}

// The page is zeroed and becomes SHARED, and so does its leaf.
fn free(table: &mut [u64], memory: &mut [u64], frame: usize, old: Entry)
    ensures { state table.new memory.new
        ≡ unfixing (with_frame (state table.old memory.old) frame zeros) frame old zero_entry }
{
    frame::zero(memory, frame);
    unfix(table, memory, frame, old, Entry::zero());
}
