// What is bad in an entry: the rule that it breaks first.
ghost use Rattle.std.specs.Prelude.{◌≡◌};
ghost use Rattle.entries.specs.Reasons.{reason_number};

#[derive(Clone, Copy, Debug, PartialEq, Eq)]
pub enum Reason {
    SpareBits,
    Asid,
    Flags,
    Address,
    // There is no entry: the table does not cover the frame.
    NoEntry,
}

// Its number in the rules.
impl From<Reason> for u64 {
    ghost from_gives = { λ reason number. number ≡ reason_number reason };

    fn from(reason: Reason) -> u64 {
        match reason {
            Reason::SpareBits => 1,
            Reason::Asid => 2,
            Reason::Flags => 3,
            Reason::Address => 4,
            Reason::NoEntry => 0,
        }
    }
}
