// What arguments must be, and who may call. They stand one by one, as in the definitions of the same names.
ghost use Rattle.std.specs.Prelude.{◌≡◌};
ghost use Rattle.rules.specs.Arguments.{is_host, update_arguments, validate_arguments, two_frame_arguments, unmerge_arguments};
ghost use Rattle.rules.specs.Arguments.{one_frame_arguments, access_arguments, may_access};

use entries::entry::{
    LEAF, MERGEABLE, SHARED, is_address, is_guest, is_owned, is_party, is_unowned,
};

pub fn is_host(caller: u64) -> bool
    ensures { result ≡ is_host caller }
{
    caller == 0
}

// Of RMPUPDATE: a page of a guest has an owner, any other page has neither owner nor address.
pub fn update_arguments(caller: u64, hpa: u64, gpa: u64, asid: u64, kind: u64) -> bool
    ensures { result ≡ update_arguments caller hpa gpa asid kind }
{
    is_party(caller)
        & is_address(hpa)
        & is_address(gpa)
        & is_party(asid)
        & (kind <= LEAF)
        & (!is_unowned(kind) | ((asid == 0) & (gpa == 0)))
        & (!is_owned(kind) | !(asid == 0))
}

// Of PVALIDATE.
pub fn validate_arguments(caller: u64, gpa: u64, hpa: u64, kind: u64) -> bool
    ensures { result ≡ validate_arguments caller gpa hpa kind }
{
    is_party(caller) & is_address(gpa) & is_address(hpa) & is_owned(kind)
}

// Of PFIX and PMERGE.
pub fn two_frame_arguments(caller: u64, hpa1: u64, hpa2: u64) -> bool
    ensures { result ≡ two_frame_arguments caller hpa1 hpa2 }
{
    is_party(caller) & is_address(hpa1) & is_address(hpa2)
}

// Of PUNMERGE.
pub fn unmerge_arguments(caller: u64, hpa1: u64, hpa2: u64, asid: u64) -> bool
    ensures { result ≡ unmerge_arguments caller hpa1 hpa2 asid }
{
    two_frame_arguments(caller, hpa1, hpa2) & is_guest(asid)
}

// Of PUNFIX.
pub fn one_frame_arguments(caller: u64, hpa: u64) -> bool
    ensures { result ≡ one_frame_arguments caller hpa }
{
    is_party(caller) & is_address(hpa)
}

// Of READ and WRITE.
pub fn access_arguments(caller: u64, gpa: u64, hpa: u64, gtype: u64, ntype: u64, index: u64) -> bool
    ensures { result ≡ access_arguments caller gpa hpa gtype ntype index }
{
    is_party(caller)
        & is_address(gpa)
        & is_address(hpa)
        & (gtype <= MERGEABLE)
        & (ntype <= MERGEABLE)
        & (index <= 511)
}

// The host may read and write SHARED pages alone.
pub fn may_access(caller: u64, gtype: u64, ntype: u64) -> bool
    ensures { result ≡ may_access caller gtype ntype }
{
    !is_host(caller) | ((gtype == SHARED) & (ntype == SHARED))
}
