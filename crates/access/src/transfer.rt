// READ and WRITE.
ghost use Rattle.std.specs.Prelude.{◌≡◌};
ghost use Rattle.rules.specs.Access.{read, write};
ghost use Rattle.rules.specs.State.{state};
ghost use Rattle.checks.specs.Answer.{gave};

use crate::check::{READING, WRITING, checked};
use checks::answer::Answer;
use checks::refusal::Refusal;
use checks::state::State;
use entries::entry::frame_of;
use frames::frame;

// `caller` reads a word of its page at `gpa`, in the frame at `hpa`.
#[tactic(auto, unfolding(rules::specs::Access::read, rules::specs::Answers::settle, checks::specs::Passed::past))]
pub fn read(
    table: &[u64],
    memory: &[u64],
    caller: u64,
    gpa: u64,
    hpa: u64,
    gtype: u64,
    ntype: u64,
    index: u64,
) -> Result<Answer, Refusal>
    ensures { gave result table.now memory.now
        ≡ read (state table.now memory.now) caller gpa hpa gtype ntype index }
{
    let state = State::new(table, memory);
    checked(&state, READING, caller, gpa, hpa, gtype, ntype, index)?;
    Ok(Answer::Word(state.word(frame_of(hpa), index as usize)))
}

// `caller` writes a word of its page at `gpa`, in the frame at `hpa`.
#[tactic(auto, unfolding(rules::specs::Access::write, rules::specs::Answers::settle, rules::specs::State::with_word, checks::specs::Passed::past))]
pub fn write(
    table: &[u64],
    memory: &mut [u64],
    caller: u64,
    gpa: u64,
    hpa: u64,
    gtype: u64,
    ntype: u64,
    index: u64,
    value: u64,
) -> Result<Answer, Refusal>
    ensures { gave result table.now memory.new
        ≡ write (state table.now memory.old) caller gpa hpa gtype ntype index value }
{
    let state = State::new(table, memory);
    checked(&state, WRITING, caller, gpa, hpa, gtype, ntype, index)?;
    frame::put_word(memory, frame_of(hpa), index as usize, value);
    Ok(Answer::Done)
}
