// An entry of a page table, and what it points to.
#![tactic(auto, unfolding(paging::specs::Entry::is_present, paging::specs::Entry::is_large, paging::specs::Entry::address_of, paging::specs::Entry::type_of))]

ghost use Rattle.std.specs.Prelude.{◌≡◌, ◌<◌};
ghost use Rattle.paging.specs.Entry.{is_present, is_large, address_of, type_of, index_at};
ghost use Rattle.paging.specs.Walk.{follow};
ghost use Rattle.walk.specs.Walked.{pointed};

use checks::ensure::ensure;
use checks::refusal::Refusal;
use entries::entry::LEAF;

// What an entry points to, a table or at the end a page.
#[derive(Clone, Copy)]
pub struct Pointer {
    pub address: u64,
    pub kind: u64,
}

fn is_present(word: u64) -> bool
    ensures { result ≡ is_present word }
{
    word % 2 == 1
}

fn is_large(word: u64) -> bool
    ensures { result ≡ is_large word }
{
    word / 0x80 % 2 == 1
}

fn address_of(word: u64) -> u64
    ensures { result ≡ address_of word }
{
    word / 0x1000 % 0x10000000000 * 0x1000
}

fn type_of(word: u64) -> u64
    ensures { result ≡ type_of word }
{
    word / 0x10000000000000 % 4
}

// The index of a page, by its number, in a table with so many levels below it.
pub(crate) fn index_at(level: u64, page: u64) -> u64
    requires { level < 4 }
    ensures { result ≡ index_at level page }
{
    (page >> (9 * level)) % 512
}

// `level` is how many levels there are below the entry's table; `leaf_refused` is a flag, as in the definition.
#[inline(always)]
pub fn follow(level: u64, leaf_refused: bool, word: u64) -> Result<Pointer, Refusal>
    ensures { pointed result ≡ follow level leaf_refused word }
{
    ensure(is_present(word), Refusal::AbsentEntry)?;
    ensure((level == 0) | !is_large(word), Refusal::LargePage)?;
    let kind = type_of(word);
    ensure(!(leaf_refused & (kind == LEAF)), Refusal::PageType)?;
    let address = address_of(word);
    Ok(Pointer { address, kind })
}
