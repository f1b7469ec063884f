// An answer as a struct of numbers, which C can take.
#![tactic(auto)]

ghost use Rattle.std.specs.Prelude.{◌≡◌, Ok};
ghost use Rattle.checks.specs.Answer.{told};
ghost use Rattle.flat.specs.Flat.{flat};

use checks::answer::Answer;
use checks::refusal::Refusal;

pub mod virtual_address;

// The kinds of answers: numbers, as include/skorbilek.h has them.
pub const REFUSED: u64 = 0;

pub const DONE: u64 = 1;

pub const NONE: u64 = 2;

pub const CLOSED: u64 = 3;

pub const OPENED: u64 = 4;

pub const ALREADY: u64 = 5;

pub const WORD: u64 = 6;

pub const COUNT: u64 = 7;

pub const UNFIXED: u64 = 8;

// `refusal` is the number of a refusal, or 0. `reason` comes with 5 alone: what is bad in the entry. What an answer does not have is 0.
#[repr(C)]
#[derive(Clone, Copy, Default)]
pub struct Flat {
    pub refusal: u64,
    pub kind: u64,
    pub asid: u64,
    pub gpa: u64,
    pub value: u64,
    pub reason: u64,
}

impl From<Result<Answer, Refusal>> for Flat {
    ghost from_gives = { λ answer r. r ≡ flat (told answer) };

    #[tactic(auto, unfolding(crate::specs::Flat::flat))]
    fn from(answer: Result<Answer, Refusal>) -> Flat {
        match answer {
            Ok(answer) => Flat::accepted(answer),
            Err(refusal) => Flat {
                refusal: refusal.number(),
                kind: REFUSED,
                reason: refusal.reason(),
                ..Flat::default()
            },
        }
    }
}

impl Flat {
    // Of a call that is not refused.
    #[tactic(auto, unfolding(crate::specs::Flat::flat))]
    fn accepted(answer: Answer) -> Flat
        ensures { result ≡ flat (told (Ok answer)) }
    {
        let none = Flat::default();
        match answer {
            Answer::Done => Flat { kind: DONE, ..none },
            Answer::None => Flat { kind: NONE, ..none },
            Answer::Closed { asid, gpa } => Flat {
                kind: CLOSED,
                asid,
                gpa,
                ..none
            },
            Answer::Opened => Flat {
                kind: OPENED,
                ..none
            },
            Answer::Already => Flat {
                kind: ALREADY,
                ..none
            },
            Answer::Unfixed(owner) => Flat {
                kind: UNFIXED,
                asid: owner,
                ..none
            },
            Answer::Word(value) => Flat {
                kind: WORD,
                value,
                ..none
            },
            Answer::Count(value) => Flat {
                kind: COUNT,
                value,
                ..none
            },
        }
    }
}
