// Whole SHARED pages, for a disk driver: the part of memory that is a frame, 512 words written to a frame, and the check alone. The host
// may ask for them, and each guest. Each function promises two things: the reply, and table and memory after it, are the rule's; and it is
// a request of a run, so that demand 3 is kept by every run of them.
#![tactic(auto)]

ghost use Rattle.std.specs.Prelude.{◌≡◌};
ghost use Rattle.rules.specs.Answers.{Verdict};
ghost use Rattle.rules.specs.State.{state, covers};
ghost use Rattle.requests.specs.Asked.{asked};
ghost use Rattle.requests.specs.Pages.{shared_access, page_read, page_check, page_write};
ghost use Rattle.requests.specs.Requests.{PAGE_READ, PAGE_WRITE, PAGE_CHECK, hands, response, telling};
ghost use Rattle.requests.specs.Run.{Ruled};
ghost use Rattle.checks.specs.Answer.{gave};
ghost use Rattle.checks.specs.Passed.{past};

use access::check::{READING, WRITING, allowed, begun, reach};
use checks::answer::Answer;
use checks::ensure::ensure;
use checks::refusal::Refusal;
use checks::state::State;
use entries::entry::{SHARED, frame_of};
use frames::frame;

// The checks of a SHARED access to word 0, in the three parts of an access. Each call asks whether the table covers the frame.
#[inline(always)]
fn shared_checked(
    state: &State<'_>,
    writes: bool,
    caller: u64,
    gpa: u64,
    hpa: u64,
    covered: bool,
) -> Result<(), Refusal>
    requires { covered ≡ covers state.now hpa }
    ensures { (v : Verdict) → past result v ≡ shared_access state.now writes caller gpa hpa v }
{
    begun(state, caller, gpa, hpa, SHARED, SHARED, 0)?;
    let here = state.shared_entry(frame_of(hpa));
    let frame = reach(covered, here, writes, SHARED);
    allowed(state, writes, caller, gpa, frame)
}

// Whether the page at `hpa` may be read.
#[tactic(auto, unfolding(requests::specs::Requests::respond, requests::specs::Pages::page_check, requests::specs::Pages::readable, rules::specs::Answers::settle, checks::specs::Passed::past))]
pub fn page_check(
    table: &[u64],
    memory: &[u64],
    caller: u64,
    gpa: u64,
    hpa: u64,
) -> Result<Answer, Refusal>
    ensures memory_value { gave result table.now memory.now
        ≡ page_check (state table.now memory.now) caller gpa hpa }
    ensures ruled { Ruled (asked (PAGE_CHECK caller gpa hpa) (state table.now memory.now)
        (telling (gave result table.now memory.now))) }
{
    let state = State::new(table, memory);
    shared_checked(&state, READING, caller, gpa, hpa, state.covers(hpa))?;
    Ok(Answer::Done)
}

// The 512 words of the page at `hpa`, where they stand in memory; no words where it may not be read, as the rule has it.
#[tactic(auto, unfolding(requests::specs::Requests::respond, requests::specs::Pages::page_read, requests::specs::Pages::readable, requests::specs::Pages::handed, rules::specs::State::frame_at, checks::specs::Passed::past))]
pub fn page_read<'a>(table: &[u64], memory: &'a [u64], caller: u64, gpa: u64, hpa: u64) -> &'a [u64]
    ensures result_value { result.now ≡ page_read (state table.now memory.now) caller gpa hpa }
    ensures ruled { Ruled (asked (PAGE_READ caller gpa hpa) (state table.now memory.now)
        (response (hands result.now) (state table.now memory.now))) }
{
    let state = State::new(table, memory);
    match shared_checked(&state, READING, caller, gpa, hpa, state.covers(hpa)) {
        Ok(()) => frame::part(memory, frame_of(hpa)),
        Err(_) => &memory[..0],
    }
}

// `words`, which must be 512, become the words of the page at `hpa`.
#[tactic(auto, unfolding(requests::specs::Requests::respond, requests::specs::Pages::page_write, rules::specs::Answers::settle, rules::specs::State::with_frame, checks::specs::Passed::past))]
pub fn page_write(
    table: &[u64],
    memory: &mut [u64],
    caller: u64,
    gpa: u64,
    hpa: u64,
    words: &[u64],
) -> Result<Answer, Refusal>
    ensures memory_after { gave result table.now memory.new
        ≡ page_write (state table.now memory.old) caller gpa hpa words.now }
    ensures ruled { Ruled (asked (PAGE_WRITE caller gpa hpa words.now) (state table.now memory.old)
        (telling (gave result table.now memory.new))) }
{
    let state = State::new(table, memory);
    ensure(state.sizes_hold(), Refusal::Geometry)?;
    ensure(words.len() == 512, Refusal::Argument)?;
    shared_checked(&state, WRITING, caller, gpa, hpa, state.covers(hpa))?;
    frame::put(memory, frame_of(hpa), words);
    Ok(Answer::Done)
}
