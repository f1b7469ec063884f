// The run of a text: its lines in order, each one's call made, and what is printed for it appended.
ghost use Rattle.std.specs.Prelude.{◌≡◌};
ghost use Rattle.rules.specs.State.{state};
ghost use Rattle.format.specs.Text.{printed, after};
ghost use Rattle.lines.specs.Read.{meant};
ghost use Rattle.numbers.specs.Buffer.{buffer, appended};
ghost use Rattle.numbers.specs.Held.{Appends};
ghost use Rattle.format.specs.Response.{response, following};

use lines::reader::Reader;
use monitor::{Call, step};
use numbers::buffer::Buffer;
use replies::reply::append_reply;

// Runs the calls that `text` says, and prints to the start of `out`, as much as there is room for. Answers how many bytes it printed.
// 54 bytes of `out` for each byte of `text` are always enough.
// Table and memory are two slices, and `out` has a count beside it: docs/PROMISES.md tells of this contract.
pub fn run(table: &mut [u64], memory: &mut [u64], text: &[u8], out: &mut [u8]) -> usize
    ensures memory_after { state table.new memory.new
        ≡ after (state table.old memory.old) text.now }
    ensures result_after { buffer out.new result
        ≡ appended (buffer out.old 0) (printed (state table.old memory.old) text.now) }
{
    let mut replies = Buffer::new(out);
    for said in Reader::new(text) {
        respond(table, memory, said, &mut replies);
    }
    replies.filled()
}

// Makes the call that a line says, if it says one, and appends what is printed for it.
#[tactic(auto, unfolding(format::specs::Response::response, format::specs::Response::following, format::specs::Reply::wrong_reply))]
pub fn respond(table: &mut [u64], memory: &mut [u64], said: Option<Call>, out: &mut Buffer<'_>)
    ensures memory_after { state table.new memory.new
        ≡ following (state table.old memory.old) (meant said) }
    ensures out_after { Appends out.old (response (state table.old memory.old) (meant said)) out.new }
{
    match said {
        Some(call) => {
            let answer = step(table, memory, call);
            append_reply(out, call, answer);
        }
        None => out.append(b"?\n"),
    }
}
