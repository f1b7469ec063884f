// The walk and the calls by virtual address, for C and for Rust: each hands its arguments on and its answer back as a struct of numbers. A
// call by virtual address is PVALIDATE, READ or WRITE on what the walk yields. Each promises two things: what it returns and leaves is the
// rule's reply, flattened; and it is a request of a run, so that demand 3 is kept by every run of them.
//
// The three calls by virtual address stay three bodies: through one function with the call as a closure each promise would have to say what
// the closure changes.
//
// They are built apart from the other exported functions (`ffi`), and put into one archive with them: in one build PVALIDATE, READ and
// WRITE would have two callers each, and would be compiled into neither.
#![tactic(auto)]

ghost use Rattle.std.specs.Prelude.{◌≡◌, true};
ghost use Rattle.rules.specs.State.{state};
ghost use Rattle.paging.specs.Walk.{virtual, translated};
ghost use Rattle.requests.specs.Asked.{asked};
ghost use Rattle.requests.specs.Requests.{WALK, BY_VA, respond};
ghost use Rattle.requests.specs.Run.{Ruled};
ghost use Rattle.requests.specs.Virtual.{VALIDATE, LOAD, STORE};
ghost use Rattle.flat.specs.Flat.{returned};
ghost use Rattle.flat.specs.Virtual.{flat_mapping, said_mapping, flattened_reply, said_named};

use access::transfer::{read, write};
use assignment::pvalidate;
use entries::entry::is_owned;
use flat::Flat;
use flat::virtual_address::{FlatMapping, name};
use walk::begin::translate;
use walk::guest::Virtual;

#[unsafe(no_mangle)]
pub extern "C" fn skorbilek_walk(
    table: &[u64],
    memory: &[u64],
    caller: u64,
    root: u64,
    root_type: u64,
    host_root: u64,
    va: u64,
) -> FlatMapping
    ensures value { result
        ≡ flat_mapping (translated (state table.now memory.now)
        (virtual caller root root_type host_root va) true) }
    ensures ruled { Ruled (asked (WALK (virtual caller root root_type host_root va))
        (state table.now memory.now)
        (said_mapping result table.now memory.now)) }
{
    let at = Virtual {
        caller,
        root,
        host_root,
        root_type,
        va,
    };
    FlatMapping::from(translate(table, memory, &at, true))
}

#[unsafe(no_mangle)]
pub extern "C" fn skorbilek_pvalidate_va(
    table: &mut [u64],
    memory: &[u64],
    caller: u64,
    root: u64,
    root_type: u64,
    host_root: u64,
    va: u64,
    kind: u64,
) -> Flat
    ensures memory_after { returned result table.new memory.now
        ≡ flattened_reply (respond (state table.old memory.now)
        (BY_VA (virtual caller root root_type host_root va) (VALIDATE kind))) }
    ensures ruled { Ruled (asked (BY_VA (virtual caller root root_type host_root va) (VALIDATE kind))
        (state table.old memory.now)
        (said_named result table.new memory.now)) }
{
    let at = Virtual {
        caller,
        root,
        host_root,
        root_type,
        va,
    };
    match translate(table, memory, &at, is_owned(kind)) {
        Ok(page) => {
            let answer = pvalidate(table, memory, caller, page.gpa, page.hpa, kind);
            name(Flat::from(answer), page.gpa)
        }
        Err(refusal) => Flat::from(Err(refusal)),
    }
}

#[unsafe(no_mangle)]
pub extern "C" fn skorbilek_read_va(
    table: &[u64],
    memory: &[u64],
    caller: u64,
    root: u64,
    root_type: u64,
    host_root: u64,
    va: u64,
    index: u64,
) -> Flat
    ensures memory_value { returned result table.now memory.now
        ≡ flattened_reply (respond (state table.now memory.now)
        (BY_VA (virtual caller root root_type host_root va) (LOAD index))) }
    ensures ruled { Ruled (asked (BY_VA (virtual caller root root_type host_root va) (LOAD index))
        (state table.now memory.now)
        (said_named result table.now memory.now)) }
{
    let at = Virtual {
        caller,
        root,
        host_root,
        root_type,
        va,
    };
    match translate(table, memory, &at, index <= 511) {
        Ok(page) => {
            let answer = read(
                table, memory, caller, page.gpa, page.hpa, page.gtype, page.ntype, index,
            );
            name(Flat::from(answer), page.gpa)
        }
        Err(refusal) => Flat::from(Err(refusal)),
    }
}

#[unsafe(no_mangle)]
pub extern "C" fn skorbilek_write_va(
    table: &[u64],
    memory: &mut [u64],
    caller: u64,
    root: u64,
    root_type: u64,
    host_root: u64,
    va: u64,
    index: u64,
    value: u64,
) -> Flat
    ensures memory_after { returned result table.now memory.new
        ≡ flattened_reply (respond (state table.now memory.old)
        (BY_VA (virtual caller root root_type host_root va) (STORE index value))) }
    ensures ruled { Ruled (asked (BY_VA (virtual caller root root_type host_root va) (STORE index value))
        (state table.now memory.old)
        (said_named result table.now memory.new)) }
{
    let at = Virtual {
        caller,
        root,
        host_root,
        root_type,
        va,
    };
    match translate(table, memory, &at, index <= 511) {
        Ok(page) => {
            let answer = write(
                table, memory, caller, page.gpa, page.hpa, page.gtype, page.ntype, index, value,
            );
            name(Flat::from(answer), page.gpa)
        }
        Err(refusal) => Flat::from(Err(refusal)),
    }
}
