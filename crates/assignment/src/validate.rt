// PVALIDATE: a guest accepts a page.
ghost use Rattle.std.specs.Prelude.{◌≡◌, Ok};
ghost use Rattle.entries.specs.Entry.{frame_of};
ghost use Rattle.rules.specs.Answers.{grant, settle};
ghost use Rattle.rules.specs.Assignment.{validating, validate_answer, pvalidate};
ghost use Rattle.rules.specs.State.{state};
ghost use Rattle.checks.specs.Answer.{told, gave};
ghost use Rattle.checks.specs.Passed.{passed};

use checks::answer::Answer;
use checks::begin::begin_validate;
use checks::named;
use checks::refusal::Refusal;
use checks::state::State;
use entries::entry::{Entry, frame_of};
use gates::validate_needs_met;
use rmp::table;

// The guest `caller` accepts the frame at `hpa` as its page at `gpa`.
pub fn pvalidate(
    table: &mut [u64],
    memory: &[u64],
    caller: u64,
    gpa: u64,
    hpa: u64,
    kind: u64,
) -> Result<Answer, Refusal>
    ensures { gave result table.new memory.now
        ≡ pvalidate (state table.old memory.now) caller gpa hpa kind }
{
    let page = check_validate(&State::new(table, memory), caller, gpa, hpa, kind)?;
    table::put(table, frame_of(hpa), page.to_validated());
    Ok(validate_answer(page))
}

fn check_validate(
    state: &State<'_>,
    caller: u64,
    gpa: u64,
    hpa: u64,
    kind: u64,
) -> Result<Entry, Refusal>
    ensures { pvalidate state.now caller gpa hpa kind
        ≡ settle state.now (passed result λ page.
        grant (validate_answer page) (validating state.now (frame_of hpa) page)) }
{
    begin_validate(state, caller, gpa, hpa, kind)?;
    let page = named::entry(state, hpa)?;
    validate_needs_met(page, caller, gpa, kind)?;
    Ok(page)
}

#[tactic(auto, unfolding(rules::specs::Assignment::validate_answer, words::specs::Choice::pick))]
fn validate_answer(page: Entry) -> Answer
    ensures { told (Ok result) ≡ validate_answer page }
{
    if page.validated {
        Answer::Already
    } else {
        Answer::Opened
    }
}
