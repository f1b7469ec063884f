// The two words of an entry: what they hold, and the words of an entry that is put.
ghost use Rattle.std.specs.Prelude.{◌≡◌, ◌<◌};
ghost use Rattle.words.specs.Choice.{pick, ◌and◌};
ghost use Rattle.entries.specs.Entry.{asid_fits, flags_fit, address_fits, fields, decoded, encoded};
ghost use Rattle.entries.specs.declared.reason.Reason.TheVariants as reasons;

use entries::entry::{Entry, MERGEABLE, Words, frame_of, is_address, is_guest, is_owned};
use entries::reason::Reason;

// Whether the fields of an entry obey the rules: its ASID, its flags, and flags and address together. (Not a
// chain of `?`: with the tests one by one CENSUS took 1.26 of Rust's time.)
#[derive(Clone, Copy)]
struct Fits {
    asid: bool,
    flags: bool,
    rest: bool,
}

// The type is looked at once, and then what it asks for: every entry that a call reads passes through here.
fn fields_fit(e: Entry, frames: usize) -> Fits
    requires { e.kind < 4 }
    ensures asid_value { result.asid ≡ asid_fits e }
    ensures flags_value { result.flags ≡ flags_fit e }
    ensures rest_value { result.rest ≡ flags_fit e and address_fits frames e }
{
    if is_owned(e.kind) {
        let asid = is_guest(e.asid);
        if e.fixed {
            let flags = (e.kind == MERGEABLE) & e.validated;
            let address = is_address(e.address) & (frame_of(e.address) < frames);
            return Fits {
                asid,
                flags,
                rest: flags & address,
            };
        }
        return Fits {
            asid,
            flags: true,
            rest: is_address(e.address),
        };
    }
    let flags = !e.validated & !e.fixed;
    Fits {
        asid: e.asid == 0,
        flags,
        rest: flags & (e.address == 0),
    }
}

// The reason of a bad entry: the first rule that it breaks. Where the first three hold it breaks the last.
#[tactic(auto, unfolding(words::specs::Choice::pick))]
fn first_broken(clear: bool, asid: bool, flags: bool) -> Reason
    ensures { result ≡ pick clear (pick asid (pick flags reasons.Address reasons.Flags) reasons.Asid) reasons.SpareBits }
{
    if clear {
        if asid {
            if flags {
                return Reason::Address;
            }
            return Reason::Flags;
        }
        return Reason::Asid;
    }
    Reason::SpareBits
}

// The fields of two words, whatever they are.
#[tactic(auto, unfolding(entries::specs::Entry::fields, entries::specs::Entry::entry))]
fn fields(word0: u64, word1: u64) -> Entry
    ensures { result ≡ fields word0 word1 }
{
    Entry {
        asid: word0 % 0x10000,
        kind: word0 / 0x10000 % 4,
        validated: word0 / 0x40000 % 2 == 1,
        fixed: word0 / 0x80000 % 2 == 1,
        address: word1,
    }
}

// What two words of a table of so many frames hold. (No `TryFrom`: it takes the size of the table too.)
pub fn decode(frames: usize, word0: u64, word1: u64) -> Result<Entry, Reason>
    ensures { result ≡ decoded frames word0 word1 }
{
    let e = fields(word0, word1);
    let clear = word0 / 0x100000 == 0;
    let fits = fields_fit(e, frames);
    if clear & fits.asid & fits.rest {
        return Ok(e);
    }
    Err(first_broken(clear, fits.asid, fits.flags))
}

// The two words of an entry. (`encode` by its name: the promises and the edits of both tell of it.)
pub fn encode(e: Entry) -> Words
    ensures { result ≡ encoded e }
{
    Words(
        e.asid % 0x10000
            + 0x10000 * (e.kind % 4)
            + 0x40000 * u64::from(e.validated)
            + 0x80000 * u64::from(e.fixed),
        e.address,
    )
}
