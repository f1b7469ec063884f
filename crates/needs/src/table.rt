// The shape of the table of needs: rows by instruction, columns by named frame.
use crate::need::Need;

// The row of an instruction that names two frames. That of one which names one frame is a need.
#[derive(Clone, Copy)]
pub struct TwoFrames {
    pub first: Need,
    pub second: Need,
}

#[derive(Clone, Copy)]
pub struct Needs {
    pub rmpupdate: Need,
    pub pvalidate: Need,
    pub pfix: TwoFrames,
    pub pmerge: TwoFrames,
    pub punmerge: TwoFrames,
    pub punfix: Need,
    pub read: Need,
    pub write: Need,
}
