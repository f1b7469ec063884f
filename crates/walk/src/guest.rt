// The guest's walk: a virtual address through its tables, each of which is reached through the host's, and so is the page at the end.
ghost use Rattle.std.specs.Prelude.{◌≡◌, true};
ghost use Rattle.paging.specs.Walk.{onward, follow, look, walked};
ghost use Rattle.walk.specs.Walked.{pointed, mapped, virtual_of};

use crate::entry::{Pointer, follow, index_at};
use crate::host::host_half;
use crate::read::look;
use checks::refusal::Refusal;
use checks::state::State;

// How a guest names a virtual address: its number, the root of its tables with the type, the host's root, and the address. (The host's
// root comes before the root's type, so that an exported function, which gets root, type, host's root and address on the stack in this
// order, hands no two neighbours on: copied in one piece, they cost a walk 15 ns.)
#[derive(Clone, Copy)]
pub struct Virtual {
    pub caller: u64,
    pub root: u64,
    pub host_root: u64,
    pub root_type: u64,
    pub va: u64,
}

// Where it leads.
#[derive(Clone, Copy)]
pub struct Mapping {
    pub gpa: u64,
    pub hpa: u64,
    pub gtype: u64,
    pub ntype: u64,
}

// One level down from the table at a guest address, which lies in this frame.
#[inline(always)]
fn guest_down(
    state: &State<'_>,
    caller: u64,
    level: u64,
    index: u64,
    from: Pointer,
    frame: Pointer,
) -> Result<Pointer, Refusal>
    ensures { pointed result
        ≡ onward (look state.now caller from.address frame.address from.kind frame.kind index)
        (λ w. follow level true w) }
{
    let word = look(
        state,
        caller,
        from.address,
        frame.address,
        from.kind,
        frame.kind,
        index,
    )?;
    follow(level, true, word)
}

// Four levels down, and then the frame of the page.
#[inline(always)]
pub fn walk(state: &State<'_>, at: &Virtual) -> Result<Mapping, Refusal>
    ensures { mapped result ≡ walked state.now (virtual_of at.now) }
{
    let page = at.va / 4096;
    let mut from = Pointer {
        address: at.root,
        kind: at.root_type,
    };
    // By a `for` over the levels, and the page's frame after it, the host's walk stands here twice: that took a tenth longer.
    let mut level = 4;
    loop {
        let frame = host_half(state, at.host_root, from.address)?;
        if level == 0 {
            return Ok(Mapping {
                gpa: from.address,
                hpa: frame.address,
                gtype: from.kind,
                ntype: frame.kind,
            });
        }
        level -= 1;
        from = guest_down(state, at.caller, level, index_at(level, page), from, frame)?;
    }
}
