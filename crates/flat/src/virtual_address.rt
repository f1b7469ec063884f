// What a walk yields, as a struct of numbers, and an answer with the guest address that it names.
ghost use Rattle.std.specs.Prelude.{◌≡◌};
ghost use Rattle.walk.specs.Walked.{mapped};
ghost use Rattle.flat.specs.Virtual.{may_name, name_in, flat_mapping};

use crate::{ALREADY, DONE, Flat, OPENED, WORD};
use checks::refusal::Refusal;
use walk::guest::Mapping;

// Where a virtual address leads. `refusal` is the number of the refusal, or 0; `reason` comes with 5 alone. With a refusal the rest is 0.
#[repr(C)]
#[derive(Clone, Copy, Default)]
pub struct FlatMapping {
    pub refusal: u64,
    pub reason: u64,
    pub gpa: u64,
    pub hpa: u64,
    pub gtype: u64,
    pub ntype: u64,
}

impl From<Result<Mapping, Refusal>> for FlatMapping {
    ghost from_gives = { λ found r. r ≡ flat_mapping (mapped found) };

    #[tactic(auto, unfolding(crate::specs::Virtual::flat_mapping))]
    fn from(found: Result<Mapping, Refusal>) -> FlatMapping {
        let none = FlatMapping::default();
        match found {
            Ok(at) => FlatMapping {
                gpa: at.gpa,
                hpa: at.hpa,
                gtype: at.gtype,
                ntype: at.ntype,
                ..none
            },
            Err(refusal) => FlatMapping {
                refusal: refusal.number(),
                reason: refusal.reason(),
                ..none
            },
        }
    }
}

// Whether an answer of this kind is that of an accepted PVALIDATE, READ or WRITE. (By `matches!` no proof closed: its tests have no names
// that an answer may cite.)
fn may_name(kind: u64) -> bool
    ensures { result ≡ may_name kind }
{
    (kind == OPENED) | (kind == ALREADY) | (kind == WORD) | (kind == DONE)
}

// The answer with the guest address, where it was accepted.
#[tactic(auto, unfolding(crate::specs::Virtual::name_in, words::specs::Choice::pick))]
pub fn name(answer: Flat, gpa: u64) -> Flat
    ensures { result ≡ name_in gpa answer }
{
    if may_name(answer.kind) {
        return Flat { gpa, ..answer };
    }
    answer
}
