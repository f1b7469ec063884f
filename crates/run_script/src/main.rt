// The script program: runs a script from standard input on an empty table with N = 8, M = 10 and zeroed memory, and prints one line a
// call. It reads a piece, prints what the piece's whole lines answer, and goes on, in the same memory however long the script is.
#![tactic(auto)]

ghost use Rattle.std.specs.Prelude.{[], ◌≡◌, ◌+◌, ◌≤◌, ◌<◌, length, take, IfSome};
ghost use Rattle.rules.specs.State.{state};
ghost use Rattle.run_script.specs.Turn.{Roomy, count, Turned, Ran};

use script::run::run;
use script::stream::feed;
use std::io;
use std::io::{Print, Read};

// The text's bytes hold an unfinished line, of which 121 bytes at most are kept, and the next piece behind it. For each of them there are
// 54 bytes of output, so that all that is printed has room.
const TEXT: usize = 4096;

const OUT: usize = 54 * TEXT;

// All the memory that the program has.
#[derive(Drop)]
struct Program {
    table: [u64; 16],
    memory: [u64; 5120],
    text: [u8; TEXT],
    out: [u8; OUT],
    ghost roomy: { Roomy text out },
}

// What a turn did: how many bytes it handed on to be written, and, where another turn follows, how many bytes of an unfinished line it
// kept for it.
#[derive(Drop)]
struct Turn {
    handed: usize,
    next: Option<usize>,
}

fn main(rt: HostRuntime) {
    let mut program = Program {
        table: [0; 16],
        memory: [0; 5120],
        text: [0; TEXT],
        out: [0; OUT],
    };
    program.run_all(&rt);
}

impl Program {
    // A proved loop has to end, and nothing says that the input does. So the turns are counted, to a number that no run reaches.
    fn run_all(&mut self, rt: &HostRuntime)
        ensures { Ran (state self.old.table self.old.memory) [] (state self.new.table self.new.memory) }
    {
        let mut kept = 0;
        for _ in 0..u64::MAX {
            let got = read_behind(rt, &mut self.text, kept);
            let turn = self.run_piece(rt, kept, got);
            let Some(next) = turn.next else {
                return;
            };
            kept = next;
        }
    }

    // Runs the `kept` bytes of an unfinished line and what was read behind them, and hands the answers on. At the end of the input the
    // unfinished line is the last one. Where a read failed it is not run: it may not be whole.
    fn run_piece(&mut self, rt: &HostRuntime, kept: usize, got: io::Result<usize>) -> Turn
        requires { (kept ≤ 121) × (kept + count got ≤ length self.old.text) }
        ensures kept_bound { IfSome result.next (λ next. next ≤ 121) }
        ensures turned { Turned got result.next
            (state self.old.table self.old.memory) (take (kept + count got) self.old.text)
            (state self.new.table self.new.memory) (take result.handed self.new.out) self.new.text }
    {
        match got {
            Ok(0) => {
                let printed = run(
                    &mut self.table,
                    &mut self.memory,
                    &self.text[..kept],
                    &mut self.out,
                );
                print(rt, &self.out[..printed], None)
            }
            Ok(n) => {
                let fed = feed(
                    &mut self.table,
                    &mut self.memory,
                    &mut self.text,
                    kept + n,
                    &mut self.out,
                );
                print(rt, &self.out[..fed.printed], Some(fed.kept))
            }
            Err(_) => {
                complain(rt, b"run_script: the script can't be read further\n");
                Turn {
                    handed: 0,
                    next: None,
                }
            }
        }
    }
}

// Reads once, behind the first `kept` bytes, of which it promises that they stay.
fn read_behind(rt: &HostRuntime, text: &mut [u8], kept: usize) -> io::Result<usize>
    requires { kept < length text.old }
    ensures text_unchanged { take kept text.new ≡ take kept text.old }
    ensures result_in_bounds { kept + count result ≤ length text.old }
{
    rt.stdin().read(&mut text[kept..])
}

// Hands a part of the output on to be written. Where not all of it goes out, no turn follows.
fn print(rt: &HostRuntime, part: &[u8], next: Option<usize>) -> Turn
    ensures handed { result.handed ≡ length part.now }
    ensures next { IfSome result.next (λ kept. next ≡ Some kept) }
{
    let written = rt.stdout().write_all(part);
    if written.is_err() {
        complain(rt, b"run_script: the answers can't be written further\n");
    }
    Turn {
        handed: part.len(),
        next: written.ok().and(next),
    }
}

// Tells of a fault on standard error. Where that fails too, nothing can be told.
fn complain(rt: &HostRuntime, fault: &[u8]) {
    let _ = rt.stderr().write_all(fault);
}
