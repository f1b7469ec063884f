// The type and flags that each instruction needs of the frames that it names.
ghost use Rattle.std.specs.Prelude.{◌≡◌};
ghost use Rattle.needs.specs.Needs.{needs_table};

use entries::entry::{LEAF, MERGEABLE, SHARED};
use needs::need::FlagNeed::{Clear, Either, Set};
use needs::need::Need;
use needs::need::TypeNeed::{AsCalled, NotLeaf, Only};
use needs::table::{Needs, TwoFrames};

// READ and WRITE need the flags of a page of a guest alone: a SHARED frame has none.
#[rattlefmt::skip]
const NEEDS: Needs = Needs {
    rmpupdate: Need { kind: NotLeaf, validated: Either, fixed: Clear },
    pvalidate: Need { kind: AsCalled, validated: Either, fixed: Clear },
    pfix: TwoFrames {
        first: Need { kind: Only(MERGEABLE), validated: Set, fixed: Clear },
        second: Need { kind: Only(LEAF), validated: Either, fixed: Either },
    },
    pmerge: TwoFrames {
        first: Need { kind: Only(MERGEABLE), validated: Either, fixed: Set },
        second: Need { kind: Only(MERGEABLE), validated: Set, fixed: Clear },
    },
    punmerge: TwoFrames {
        first: Need { kind: Only(MERGEABLE), validated: Either, fixed: Set },
        second: Need { kind: Only(SHARED), validated: Either, fixed: Either },
    },
    punfix: Need { kind: Only(MERGEABLE), validated: Either, fixed: Set },
    read: Need { kind: AsCalled, validated: Set, fixed: Either },
    write: Need { kind: AsCalled, validated: Set, fixed: Clear },
};

// The constant, with the promise that it is the definition's table.
#[tactic(auto, unfolding(needs::specs::Needs::needs_table))]
pub fn needs() -> Needs
    ensures { result ≡ needs_table }
{
    NEEDS
}
