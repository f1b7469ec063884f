// RMPUPDATE: the host gives a frame to a guest, or takes it back.
ghost use Rattle.std.specs.Prelude.{◌≡◌, Ok};
ghost use Rattle.entries.specs.Entry.{frame_of};
ghost use Rattle.rules.specs.Answers.{grant, settle};
ghost use Rattle.rules.specs.Assignment.{assigning, update_answer, rmpupdate};
ghost use Rattle.rules.specs.State.{state};
ghost use Rattle.checks.specs.Answer.{told, gave};
ghost use Rattle.checks.specs.Passed.{passed};

use checks::answer::Answer;
use checks::begin::begin_update;
use checks::named;
use checks::refusal::Refusal;
use checks::state::State;
use entries::entry::{Entry, frame_of};
use frames::frame;
use gates::update_needs_met;
use rmp::table;

// The host gives the frame at `hpa` to the guest `asid` at its address `gpa`, as a page of the type `kind`, or takes it back.
pub fn rmpupdate(
    table: &mut [u64],
    memory: &mut [u64],
    caller: u64,
    hpa: u64,
    gpa: u64,
    asid: u64,
    kind: u64,
) -> Result<Answer, Refusal>
    ensures { gave result table.new memory.new
        ≡ rmpupdate (state table.old memory.old) caller hpa gpa asid kind }
{
    let old = check_update(&State::new(table, memory), caller, hpa, gpa, asid, kind)?;
    assign(table, memory, frame_of(hpa), old, gpa, asid, kind);
    Ok(update_answer(old))
}

fn check_update(
    state: &State<'_>,
    caller: u64,
    hpa: u64,
    gpa: u64,
    asid: u64,
    kind: u64,
) -> Result<Entry, Refusal>
    ensures { rmpupdate state.now caller hpa gpa asid kind
        ≡ settle state.now (passed result λ old.
        grant (update_answer old) (assigning state.now (frame_of hpa) old gpa asid kind)) }
{
    begin_update(state, caller, hpa, gpa, asid, kind)?;
    let old = named::entry(state, hpa)?;
    update_needs_met(old)?;
    Ok(old)
}

// The frame gets a new entry, and is zeroed unless its owner stays.
// Table and memory stay two slices here and in the other changes: a struct of two `&mut` would be made for one call of each.
fn assign(
    table: &mut [u64],
    memory: &mut [u64],
    frame: usize,
    old: Entry,
    gpa: u64,
    asid: u64,
    kind: u64,
)
    ensures { state table.new memory.new
        ≡ assigning (state table.old memory.old) frame old gpa asid kind }
{
    let owner_changes = asid != old.asid;
    if owner_changes {
        frame::zero(memory, frame);
    }
    let new = Entry {
        asid,
        kind,
        validated: false,
        fixed: false,
        address: gpa,
    };
    table::put(table, frame, new);
}

#[tactic(auto, unfolding(rules::specs::Assignment::update_answer, words::specs::Choice::pick))]
fn update_answer(old: Entry) -> Answer
    ensures { told (Ok result) ≡ update_answer old }
{
    if old.validated {
        Answer::Closed {
            asid: old.asid,
            gpa: old.address,
        }
    } else {
        Answer::None
    }
}
