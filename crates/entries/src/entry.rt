// An entry of the RMP, and the numbers in it.
ghost use Rattle.std.specs.Prelude.{◌≡◌};
ghost use Rattle.entries.specs.Entry.{is_address, frame_of, is_party, is_guest, is_owned, is_unowned};
ghost use Rattle.entries.specs.Entry.{zero_entry, to_validated, to_fixed, to_moved};

// The types of a page. Numbers, and no enum: a call names a type by any 64-bit number from C, an entry's is compared with it, and `encode` and
// the rules' definitions are of every number.
pub const SHARED: u64 = 0;

pub const PRIVATE: u64 = 1;

pub const MERGEABLE: u64 = 2;

pub const LEAF: u64 = 3;

// `address` is the guest's address of the page or, where the page is fixed, the address of its leaf. (A field and a flag, and no enum of
// both: `fields` and `encoded` are of every two words, also of those that break the rules.)
#[derive(Clone, Copy, Default)]
pub struct Entry {
    pub asid: u64,
    pub kind: u64,
    pub validated: bool,
    pub fixed: bool,
    pub address: u64,
}

// The two words of an entry.
#[derive(Clone, Copy)]
pub struct Words(pub u64, pub u64);

// Addresses are below 2^52.
pub const ADDRESS_LIMIT: u64 = 0x10000000000000;

// A multiple of 4,096 below that.
pub fn is_address(a: u64) -> bool
    ensures { result ≡ is_address a }
{
    (a % 4096 == 0) & (a < ADDRESS_LIMIT)
}

// The number of the frame at an address.
#[tactic(auto, unfolding(crate::specs::Entry::frame_of))]
pub fn frame_of(hpa: u64) -> usize
    ensures { result ≡ frame_of hpa }
{
    (hpa / 4096) as usize
}

// A guest's number, or 0, the host's.
#[tactic(auto, unfolding(crate::specs::Entry::is_party))]
pub fn is_party(asid: u64) -> bool
    ensures { result ≡ is_party asid }
{
    asid <= 511
}

// A guest's number.
pub fn is_guest(asid: u64) -> bool
    ensures { result ≡ is_guest asid }
{
    (1 <= asid) & (asid <= 511)
}

// PRIVATE or MERGEABLE: a type of pages that belong to a guest.
pub fn is_owned(kind: u64) -> bool
    ensures { result ≡ is_owned kind }
{
    (kind == PRIVATE) | (kind == MERGEABLE)
}

// SHARED or LEAF: a type of pages that belong to no guest.
pub fn is_unowned(kind: u64) -> bool
    ensures { result ≡ is_unowned kind }
{
    (kind == SHARED) | (kind == LEAF)
}

impl Entry {
    // The entry of two zero words: SHARED.
    #[tactic(auto, unfolding(crate::specs::Entry::zero_entry, crate::specs::Entry::entry))]
    pub fn zero() -> Entry
        ensures { result ≡ zero_entry }
    {
        Entry::default()
    }

    // The entry with VALIDATED set.
    #[tactic(auto, unfolding(crate::specs::Entry::to_validated, crate::specs::Entry::entry))]
    pub fn to_validated(self) -> Entry
        ensures { result ≡ to_validated self }
    {
        Entry {
            validated: true,
            ..self
        }
    }

    // The entry with FIXED set, at the address of its leaf.
    #[tactic(auto, unfolding(crate::specs::Entry::to_fixed, crate::specs::Entry::entry))]
    pub fn to_fixed(self, leaf: u64) -> Entry
        ensures { result ≡ to_fixed self leaf }
    {
        Entry {
            fixed: true,
            address: leaf,
            ..self
        }
    }

    // The entry with FIXED clear, of this guest and at its address.
    #[tactic(auto, unfolding(crate::specs::Entry::to_moved, crate::specs::Entry::entry))]
    pub fn to_moved(self, asid: u64, gpa: u64) -> Entry
        ensures { result ≡ to_moved self asid gpa }
    {
        Entry {
            asid,
            fixed: false,
            address: gpa,
            ..self
        }
    }
}
