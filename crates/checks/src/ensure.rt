// One check. A chain of checks is written with `?`, or with `and` where none of them costs much: the chain then branches once.
ghost use Rattle.std.specs.Prelude.{◌≡◌};
ghost use Rattle.rules.specs.Answers.{Verdict, unless};
ghost use Rattle.checks.specs.Answer.{means};
ghost use Rattle.checks.specs.Passed.{past};

use crate::refusal::Refusal;

// The refusal, unless the check passes.
#[tactic(auto, unfolding(crate::specs::Passed::past, rules::specs::Answers::unless, words::specs::Choice::pick))]
pub fn ensure(passes: bool, refusal: Refusal) -> Result<(), Refusal>
    ensures { (v : Verdict) → past result v ≡ unless passes (means refusal) v }
{
    if passes { Ok(()) } else { Err(refusal) }
}
