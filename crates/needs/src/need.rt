// What an instruction needs of a frame that it names: a type and flags, and when these are met.
ghost use Rattle.std.specs.Prelude.{◌≡◌};
ghost use Rattle.needs.specs.Needs.{kind_met, flag_met};

use entries::entry::LEAF;

// The type that is needed: this one, any but LEAF, or the one that the call names.
#[derive(Clone, Copy, Debug, PartialEq, Eq)]
pub enum TypeNeed {
    Only(u64),
    NotLeaf,
    AsCalled,
}

// A flag that must be clear, that must be set, and that may be either.
#[derive(Clone, Copy, Debug, PartialEq, Eq)]
pub enum FlagNeed {
    Clear,
    Set,
    Either,
}

// What is needed of one frame.
#[derive(Clone, Copy)]
pub struct Need {
    pub kind: TypeNeed,
    pub validated: FlagNeed,
    pub fixed: FlagNeed,
}

impl TypeNeed {
    // Whether a page of the type `kind` meets the need, in a call that names the type `called`, or names none.
    #[tactic(auto, unfolding(crate::specs::Needs::kind_met))]
    pub fn met(self, kind: u64, called: Option<u64>) -> bool
        ensures { result ≡ kind_met self kind called }
    {
        match self {
            TypeNeed::Only(needed) => kind == needed,
            TypeNeed::NotLeaf => kind != LEAF,
            TypeNeed::AsCalled => called == Some(kind),
        }
    }
}

impl FlagNeed {
    #[tactic(auto, unfolding(crate::specs::Needs::flag_met))]
    pub fn met(self, flag: bool) -> bool
        ensures { result ≡ flag_met self flag }
    {
        match self {
            FlagNeed::Clear => !flag,
            FlagNeed::Set => flag,
            FlagNeed::Either => true,
        }
    }
}
