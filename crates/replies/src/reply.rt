// What is printed for a call.
ghost use Rattle.std.specs.Prelude.{◌≡◌, Ok};
ghost use Rattle.monitor.specs.Call.{called};
ghost use Rattle.checks.specs.Answer.{told};
ghost use Rattle.format.specs.Reply.{answered, reply};
ghost use Rattle.format.specs.Written.{letter};
ghost use Rattle.numbers.specs.Held.{Appends};

use monitor::{Answer, Call, Refusal};
use numbers::buffer::Buffer;

// Appends the line that is printed for a call and its answer.
// Not by `write!` and `Display`: they promise their text only where they answer `Ok`, and nothing promises that they do.
pub fn append_reply(out: &mut Buffer<'_>, call: Call, answer: Result<Answer, Refusal>)
    ensures { Appends out.old (reply (called call) (told answer)) out.new }
{
    out.append(&[letter(call)]);
    append_answer(out, answer);
    out.append(b"\n");
}

// The letter of a call, by the word of the definition.
#[tactic(auto, unfolding(format::specs::Written::letter))]
pub fn letter(call: Call) -> u8
    ensures { result ≡ letter (called call) }
{
    match call {
        Call::Rmpupdate(..) => b'U',
        Call::Pvalidate(..) => b'V',
        Call::Pfix(..) => b'F',
        Call::Pmerge(..) => b'M',
        Call::Punmerge(..) => b'D',
        Call::Punfix(..) => b'X',
        Call::Read(..) => b'R',
        Call::Write(..) => b'W',
        Call::Census(_) => b'C',
    }
}

// Appends what follows the letter.
#[tactic(auto, using(numbers::proofs::BufferLaws::Appends_append))]
pub fn append_answer(out: &mut Buffer<'_>, answer: Result<Answer, Refusal>)
    ensures { Appends out.old (answered (told answer)) out.new }
{
    match answer {
        Ok(answer) => append_accepted(out, answer),
        Err(refusal) => {
            out.append(b" no ");
            out.append_decimal(refusal.number());
        }
    }
}

#[tactic(auto, unfolding(format::specs::Reply::answered))]
fn append_accepted(out: &mut Buffer<'_>, answer: Answer)
    ensures { Appends out.old (answered (told (Ok answer))) out.new }
{
    match answer {
        Answer::Done => out.append(b" ok"),
        Answer::None => out.append(b" ok none"),
        Answer::Closed { asid, gpa } => {
            out.append(b" ok closed ");
            out.append_hex(asid);
            out.append(b" ");
            out.append_hex(gpa);
        }
        Answer::Opened => out.append(b" ok opened"),
        Answer::Already => out.append(b" ok already"),
        Answer::Unfixed(number) | Answer::Word(number) | Answer::Count(number) => {
            out.append(b" ok ");
            out.append_hex(number);
        }
    }
}
