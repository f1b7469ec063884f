// Lines of a script: what a line says, and the line at a place of a text.
ghost use Rattle.std.specs.Prelude.{◌≡◌, length};
ghost use Rattle.format.specs.Line.{said, asks, asked, fields};
ghost use Rattle.format.specs.Place.{up_to};
ghost use Rattle.lines.specs.Read.{meant, IsLineAt};

use arrayvec::ArrayVec;
use monitor::Call;
use numbers::number;

// A line that was read: the call that it says, or none, where it is wrong, and the place in the text after it.
#[derive(Clone, Copy)]
pub struct Line {
    pub said: Option<Call>,
    pub next: usize,
}

const LINE_FEED: u8 = b'\n';

const SPACE: u8 = b' ';

// The call that a line says. A wrong line says none.
#[tactic(auto, using(crate::proofs::Asked::said_tests))]
pub fn parse(line: &[u8]) -> Option<Call>
    ensures { meant result ≡ said line.now }
{
    if line.len() > 120 {
        return None;
    }
    match line {
        &[letter, SPACE, ref rest @ ..] => parse_numbers(letter, rest),
        _ => None,
    }
}

// The call that is said by a letter and the fields after it.
fn parse_numbers(letter: u8, rest: &[u8]) -> Option<Call>
    ensures { meant result ≡ asks letter (fields rest.now) }
{
    let mut values = ArrayVec::<u64, 7>::new();
    for field in rest.split(|&byte| byte == SPACE) {
        values.try_push(number::parse(field)?).ok()?;
    }
    ask(letter, &values)
}

// The call of a letter with these numbers.
#[tactic(auto, using(crate::proofs::Asked::asked_tests))]
fn ask(letter: u8, values: &[u64]) -> Option<Call>
    ensures { meant result ≡ asked letter values.now }
{
    match (letter, values) {
        (b'U', &[caller, hpa, gpa, asid, kind]) => {
            Some(Call::Rmpupdate(caller, hpa, gpa, asid, kind))
        }
        (b'V', &[caller, gpa, hpa, kind]) => Some(Call::Pvalidate(caller, gpa, hpa, kind)),
        (b'F', &[caller, hpa, leaf]) => Some(Call::Pfix(caller, hpa, leaf)),
        (b'M', &[caller, hpa1, hpa2]) => Some(Call::Pmerge(caller, hpa1, hpa2)),
        (b'D', &[caller, hpa1, hpa2, asid]) => Some(Call::Punmerge(caller, hpa1, hpa2, asid)),
        (b'X', &[caller, hpa]) => Some(Call::Punfix(caller, hpa)),
        (b'R', &[caller, gpa, hpa, gtype, ntype, index]) => {
            Some(Call::Read(caller, gpa, hpa, gtype, ntype, index))
        }
        (b'W', &[caller, gpa, hpa, gtype, ntype, index, value]) => {
            Some(Call::Write(caller, gpa, hpa, gtype, ntype, index, value))
        }
        (b'C', &[asid]) => Some(Call::Census(asid)),
        _ => None,
    }
}

// The line at a place of a text. (A plain slice and a number: the paper wants the
// reader, which keeps both together, to hand the work on to such functions.)
pub fn line_at(text: &[u8], at: usize) -> Line
    ensures { IsLineAt text.now at result }
{
    if at >= text.len() {
        return Line {
            said: None,
            next: at,
        };
    }
    let rest = &text[at..];
    let length = until(rest, LINE_FEED);
    let said = parse(&rest[..length]);
    let end = at + length;
    let next = if end < text.len() { end + 1 } else { end };
    Line { said, next }
}

// How many bytes stand before the first `mark`, or in all, where there is none.
fn until(bytes: &[u8], mark: u8) -> usize
    ensures { result ≡ length (up_to mark bytes.now) }
{
    bytes
        .iter()
        .position(|&byte| byte == mark)
        .unwrap_or(bytes.len())
}
