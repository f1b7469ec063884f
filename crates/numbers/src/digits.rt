// Numbers as they are printed.
ghost use Rattle.std.specs.Prelude.{◌≡◌, ◌≤◌, ◌<◌};
ghost use Rattle.format.specs.Number.{digit, digits, hex, decimal};
ghost use Rattle.numbers.specs.Held.{Appends};

use crate::buffer::Buffer;

impl Buffer<'_> {
    // Appends a number in hex, with no leading zeros.
    #[tactic(auto, unfolding(format::specs::Number::hex))]
    pub fn append_hex(&mut self, n: u64)
        ensures { Appends self.old (hex n) self.new }
    {
        self.append_digits::<16>(n);
    }

    // Appends a number in decimal, with no leading zeros.
    #[tactic(auto, unfolding(format::specs::Number::decimal))]
    pub fn append_decimal(&mut self, n: u64)
        ensures { Appends self.old (decimal n) self.new }
    {
        self.append_digits::<10>(n);
    }

    // Spells a number from its last digit on, and appends its digits. No word has more than twenty.
    // By hand: `write!` promises its text only where it answers `Ok`, and nothing promises that it does.
    fn append_digits<const BASE: u64>(&mut self, n: u64)
        requires { (1 < BASE) × (BASE ≤ 16) }
        ensures { Appends self.old (digits BASE 20 n) self.new }
    {
        let mut spelt = [0u8; 20];
        let mut from = spelt.len();
        let mut rest = n;
        for i in (0..spelt.len()).rev() {
            spelt[i] = digit(rest % BASE);
            from = i;
            if rest < BASE {
                break;
            }
            rest /= BASE;
        }
        self.append(&spelt[from..]);
    }
}

// The digit of a value below 16.
#[tactic(auto, unfolding(format::specs::Number::digit, words::specs::Choice::pick))]
fn digit(n: u64) -> u8
    requires { n < 16 }
    ensures { result ≡ digit n }
{
    if n < 10 {
        b'0' + n as u8
    } else {
        b'a' + (n - 10) as u8
    }
}
