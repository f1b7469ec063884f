// What a call answers that is not refused.
#[derive(Clone, Copy, Debug, PartialEq, Eq)]
pub enum Answer {
    // PFIX, PMERGE, PUNMERGE and WRITE
    Done,
    // RMPUPDATE
    None,
    Closed { asid: u64, gpa: u64 },
    // PVALIDATE
    Opened,
    Already,
    // PUNFIX, with the new owner, or 0 where there is none, as the rule's `unfixed` and C have it
    Unfixed(u64),
    // READ
    Word(u64),
    // CENSUS
    Count(u64),
}
