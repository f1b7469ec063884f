// Why a call was refused.
ghost use Rattle.std.specs.Prelude.{◌≡◌};
ghost use Rattle.checks.specs.Answer.{means};
ghost use Rattle.checks.specs.declared.refusal.Refusal.TheVariants as refusals;

use entries::reason::Reason;

#[derive(Clone, Copy, Debug, PartialEq, Eq)]
pub enum Refusal {
    Geometry,
    Argument,
    Caller,
    Outside,
    BadEntry(Reason),
    PageType,
    Owner,
    Address,
    NotValidated,
    Fixed,
    NotFixed,
    BrokenLeaf,
    NoPlace,
    PlaceTaken,
    LeafInUse,
    Contents,
    StillShared,
    // on the way of a walk
    AbsentEntry,
    LargePage,
}

impl Refusal {
    // Its number in the rules. (A method, and no `From`: a refusal has two numbers.)
    pub fn number(self) -> u64
        ensures { result ≡ (means self).number }
    {
        match self {
            Refusal::Geometry => 1,
            Refusal::Argument => 2,
            Refusal::Caller => 3,
            Refusal::Outside => 4,
            Refusal::BadEntry(_) => 5,
            Refusal::PageType => 6,
            Refusal::Owner => 7,
            Refusal::Address => 8,
            Refusal::NotValidated => 9,
            Refusal::Fixed => 10,
            Refusal::NotFixed => 11,
            Refusal::BrokenLeaf => 12,
            Refusal::NoPlace => 13,
            Refusal::PlaceTaken => 14,
            Refusal::LeafInUse => 15,
            Refusal::Contents => 16,
            Refusal::StillShared => 17,
            Refusal::AbsentEntry => 18,
            Refusal::LargePage => 19,
        }
    }

    // What is bad in the entry that 5 is given for; 0 with any other, as the rules' refusals have it.
    pub fn reason(self) -> u64
        ensures { result ≡ (means self).reason }
    {
        if let Refusal::BadEntry(reason) = self {
            return u64::from(reason);
        }
        0
    }
}

// "A call goes on only with a decoded entry": `?` takes it out, or refuses with 5.
impl From<Reason> for Refusal {
    ghost from_gives = { λ reason refusal. refusal ≡ refusals.BadEntry reason };

    fn from(reason: Reason) -> Refusal {
        Refusal::BadEntry(reason)
    }
}
