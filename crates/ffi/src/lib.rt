// The nine calls, and the two of whole pages that answer a number, for C and for Rust: each hands its arguments on and its answer back as a
// struct of numbers. `include/skorbilek.h` declares them. A slice is a pointer and then a length, in words, on the other side.
// Each promises two things: what it returns and leaves is the rule's outcome, flattened; and it is a request of a run, so that demand 3 is
// kept by every run of them.
#![tactic(auto)]

ghost use Rattle.std.specs.Prelude.{◌≡◌};
ghost use Rattle.rules.specs.Access.{read, write};
ghost use Rattle.rules.specs.Assignment.{rmpupdate, pvalidate};
ghost use Rattle.rules.specs.Calls.{RMPUPDATE, PVALIDATE, PFIX, PMERGE, PUNMERGE, PUNFIX, READ, WRITE, CENSUS};
ghost use Rattle.rules.specs.Census.{census};
ghost use Rattle.rules.specs.Merging.{pfix, pmerge, punmerge, punfix};
ghost use Rattle.rules.specs.State.{state};
ghost use Rattle.requests.specs.Asked.{asked};
ghost use Rattle.requests.specs.Pages.{page_check, page_write};
ghost use Rattle.requests.specs.Requests.{CALL, PAGE_WRITE, PAGE_CHECK, telling};
ghost use Rattle.requests.specs.Run.{Ruled};
ghost use Rattle.flat.specs.Flat.{returned, flattened, said};

use flat::Flat;

#[unsafe(no_mangle)]
pub extern "C" fn skorbilek_rmpupdate(
    table: &mut [u64],
    memory: &mut [u64],
    caller: u64,
    hpa: u64,
    gpa: u64,
    asid: u64,
    kind: u64,
) -> Flat
    ensures memory_after { returned result table.new memory.new
        ≡ flattened (rmpupdate (state table.old memory.old) caller hpa gpa asid kind) }
    ensures ruled { Ruled (asked (CALL (RMPUPDATE caller hpa gpa asid kind)) (state table.old memory.old)
        (telling (said result table.new memory.new))) }
{
    Flat::from(monitor::rmpupdate(table, memory, caller, hpa, gpa, asid, kind))
}

#[unsafe(no_mangle)]
pub extern "C" fn skorbilek_pvalidate(
    table: &mut [u64],
    memory: &[u64],
    caller: u64,
    gpa: u64,
    hpa: u64,
    kind: u64,
) -> Flat
    ensures memory_after { returned result table.new memory.now
        ≡ flattened (pvalidate (state table.old memory.now) caller gpa hpa kind) }
    ensures ruled { Ruled (asked (CALL (PVALIDATE caller gpa hpa kind)) (state table.old memory.now)
        (telling (said result table.new memory.now))) }
{
    Flat::from(monitor::pvalidate(table, memory, caller, gpa, hpa, kind))
}

#[unsafe(no_mangle)]
pub extern "C" fn skorbilek_pfix(
    table: &mut [u64],
    memory: &mut [u64],
    caller: u64,
    hpa: u64,
    leaf: u64,
) -> Flat
    ensures memory_after { returned result table.new memory.new
        ≡ flattened (pfix (state table.old memory.old) caller hpa leaf) }
    ensures ruled { Ruled (asked (CALL (PFIX caller hpa leaf)) (state table.old memory.old)
        (telling (said result table.new memory.new))) }
{
    Flat::from(monitor::pfix(table, memory, caller, hpa, leaf))
}

#[unsafe(no_mangle)]
pub extern "C" fn skorbilek_pmerge(
    table: &mut [u64],
    memory: &mut [u64],
    caller: u64,
    hpa1: u64,
    hpa2: u64,
) -> Flat
    ensures memory_after { returned result table.new memory.new
        ≡ flattened (pmerge (state table.old memory.old) caller hpa1 hpa2) }
    ensures ruled { Ruled (asked (CALL (PMERGE caller hpa1 hpa2)) (state table.old memory.old)
        (telling (said result table.new memory.new))) }
{
    Flat::from(monitor::pmerge(table, memory, caller, hpa1, hpa2))
}

#[unsafe(no_mangle)]
pub extern "C" fn skorbilek_punmerge(
    table: &mut [u64],
    memory: &mut [u64],
    caller: u64,
    hpa1: u64,
    hpa2: u64,
    asid: u64,
) -> Flat
    ensures memory_after { returned result table.new memory.new
        ≡ flattened (punmerge (state table.old memory.old) caller hpa1 hpa2 asid) }
    ensures ruled { Ruled (asked (CALL (PUNMERGE caller hpa1 hpa2 asid)) (state table.old memory.old)
        (telling (said result table.new memory.new))) }
{
    Flat::from(monitor::punmerge(table, memory, caller, hpa1, hpa2, asid))
}

#[unsafe(no_mangle)]
pub extern "C" fn skorbilek_punfix(
    table: &mut [u64],
    memory: &mut [u64],
    caller: u64,
    hpa: u64,
) -> Flat
    ensures memory_after { returned result table.new memory.new
        ≡ flattened (punfix (state table.old memory.old) caller hpa) }
    ensures ruled { Ruled (asked (CALL (PUNFIX caller hpa)) (state table.old memory.old)
        (telling (said result table.new memory.new))) }
{
    Flat::from(monitor::punfix(table, memory, caller, hpa))
}

#[unsafe(no_mangle)]
pub extern "C" fn skorbilek_read(
    table: &[u64],
    memory: &[u64],
    caller: u64,
    gpa: u64,
    hpa: u64,
    gtype: u64,
    ntype: u64,
    index: u64,
) -> Flat
    ensures memory_value { returned result table.now memory.now
        ≡ flattened (read (state table.now memory.now) caller gpa hpa gtype ntype index) }
    ensures ruled { Ruled (asked (CALL (READ caller gpa hpa gtype ntype index)) (state table.now memory.now)
        (telling (said result table.now memory.now))) }
{
    Flat::from(monitor::read(table, memory, caller, gpa, hpa, gtype, ntype, index))
}

#[unsafe(no_mangle)]
pub extern "C" fn skorbilek_write(
    table: &[u64],
    memory: &mut [u64],
    caller: u64,
    gpa: u64,
    hpa: u64,
    gtype: u64,
    ntype: u64,
    index: u64,
    value: u64,
) -> Flat
    ensures memory_after { returned result table.now memory.new
        ≡ flattened (write (state table.now memory.old) caller gpa hpa gtype ntype index value) }
    ensures ruled { Ruled (asked (CALL (WRITE caller gpa hpa gtype ntype index value)) (state table.now memory.old)
        (telling (said result table.now memory.new))) }
{
    Flat::from(monitor::write(table, memory, caller, gpa, hpa, gtype, ntype, index, value))
}

#[unsafe(no_mangle)]
pub extern "C" fn skorbilek_census(table: &[u64], memory: &[u64], asid: u64) -> Flat
    ensures memory_value { returned result table.now memory.now
        ≡ flattened (census (state table.now memory.now) asid) }
    ensures ruled { Ruled (asked (CALL (CENSUS asid)) (state table.now memory.now)
        (telling (said result table.now memory.now))) }
{
    Flat::from(monitor::census(table, memory, asid))
}

#[unsafe(no_mangle)]
pub extern "C" fn skorbilek_page_check(
    table: &[u64],
    memory: &[u64],
    caller: u64,
    gpa: u64,
    hpa: u64,
) -> Flat
    ensures memory_value { returned result table.now memory.now
        ≡ flattened (page_check (state table.now memory.now) caller gpa hpa) }
    ensures ruled { Ruled (asked (PAGE_CHECK caller gpa hpa) (state table.now memory.now)
        (telling (said result table.now memory.now))) }
{
    Flat::from(pages::page_check(table, memory, caller, gpa, hpa))
}

#[unsafe(no_mangle)]
pub extern "C" fn skorbilek_page_write(
    table: &[u64],
    memory: &mut [u64],
    caller: u64,
    gpa: u64,
    hpa: u64,
    words: &[u64],
) -> Flat
    ensures memory_after { returned result table.now memory.new
        ≡ flattened (page_write (state table.now memory.old) caller gpa hpa words.now) }
    ensures ruled { Ruled (asked (PAGE_WRITE caller gpa hpa words.now) (state table.now memory.old)
        (telling (said result table.now memory.new))) }
{
    Flat::from(pages::page_write(table, memory, caller, gpa, hpa, words))
}
