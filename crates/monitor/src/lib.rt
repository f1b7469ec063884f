// The monitor, whole: the nine calls on a lent table and a lent memory, and `step`, which makes any of them. Nothing is asked of a
// caller: every call checks its arguments, the table and memory itself, and answers.
#![tactic(auto)]

ghost use Rattle.rules.specs.History.{made, Promised};
ghost use Rattle.rules.specs.State.{state};
ghost use Rattle.checks.specs.Answer.{gave};
ghost use Rattle.monitor.specs.Call.{called};

pub use access::transfer::{read, write};
pub use assignment::{pvalidate, rmpupdate};
pub use census::census;
pub use checks::answer::Answer;
pub use checks::refusal::Refusal;
pub use fixing::{pfix, punfix};
pub use merging::{pmerge, punmerge};

// A call as a value, with its arguments in the order of the function that makes it.
#[derive(Clone, Copy)]
pub enum Call {
    // caller, hpa, gpa, asid, type
    Rmpupdate(u64, u64, u64, u64, u64),
    // caller, gpa, hpa, type
    Pvalidate(u64, u64, u64, u64),
    // caller, hpa, leaf
    Pfix(u64, u64, u64),
    // caller, hpa1, hpa2
    Pmerge(u64, u64, u64),
    // caller, hpa1, hpa2, asid
    Punmerge(u64, u64, u64, u64),
    // caller, hpa
    Punfix(u64, u64),
    // caller, gpa, hpa, gtype, ntype, index
    Read(u64, u64, u64, u64, u64, u64),
    // caller, gpa, hpa, gtype, ntype, index, value
    Write(u64, u64, u64, u64, u64, u64, u64),
    // asid
    Census(u64),
}

// Makes the call by its function. `Promised` is the equation: answer, table and memory are those of the rules' `step`. So it is a request
// of a run (`CallIsRuled` of `requests`), and what is said of runs there, demand 3 among it, is said of this.
#[tactic(auto, unfolding(rules::specs::Calls::step))]
pub fn step(table: &mut [u64], memory: &mut [u64], call: Call) -> Result<Answer, Refusal>
    ensures { Promised (made (called call) (state table.old memory.old)
        (gave result table.new memory.new)) }
{
    match call {
        Call::Rmpupdate(caller, hpa, gpa, asid, kind) => {
            rmpupdate(table, memory, caller, hpa, gpa, asid, kind)
        }
        Call::Pvalidate(caller, gpa, hpa, kind) => pvalidate(table, memory, caller, gpa, hpa, kind),
        Call::Pfix(caller, hpa, leaf) => pfix(table, memory, caller, hpa, leaf),
        Call::Pmerge(caller, hpa1, hpa2) => pmerge(table, memory, caller, hpa1, hpa2),
        Call::Punmerge(caller, hpa1, hpa2, asid) => {
            punmerge(table, memory, caller, hpa1, hpa2, asid)
        }
        Call::Punfix(caller, hpa) => punfix(table, memory, caller, hpa),
        Call::Read(caller, gpa, hpa, gtype, ntype, index) => {
            read(table, memory, caller, gpa, hpa, gtype, ntype, index)
        }
        Call::Write(caller, gpa, hpa, gtype, ntype, index, value) => {
            write(table, memory, caller, gpa, hpa, gtype, ntype, index, value)
        }
        Call::Census(asid) => census(table, memory, asid),
    }
}
