// Bytes that are filled from the start.
ghost use Rattle.std.specs.Prelude.{◌≡◌};
ghost use Rattle.numbers.specs.Buffer.{buffer};
ghost use Rattle.numbers.specs.Held.{held, lent, Appends};

// Bytes that are lent, and how many of them are filled: any number may be.
#[derive(Drop)]
pub struct Buffer<'a> {
    bytes: &'a mut [u8],
    pub filled: usize,
}

impl<'a> Buffer<'a> {
    // So many of the bytes count as filled.
    pub fn at(bytes: &'a mut [u8], filled: usize) -> Buffer<'a>
        ensures same_reference { (lent result).ghost_name ≡ bytes.entry.ghost_name }
        ensures filled { held result ≡ buffer bytes.old filled }
    {
        Buffer { bytes, filled }
    }

    // None of the bytes is filled.
    pub fn new(bytes: &'a mut [u8]) -> Buffer<'a>
        ensures same_reference { (lent result).ghost_name ≡ bytes.entry.ghost_name }
        ensures empty { held result ≡ buffer bytes.old 0 }
    {
        Buffer::at(bytes, 0)
    }

    pub fn filled(&self) -> usize
        ensures { result ≡ (held self.now).filled }
    {
        self.filled
    }

    // Puts `more` behind what is there, as much of it as there is room for. Where more counts as filled than there is, there is none.
    // (Inlined, and with a branch for what fits whole, so that a short text is a store or two: as a call of memcpy for each text a wrong line
    // took 1.7 times as long.)
    #[inline(always)]
    pub fn append(&mut self, more: &[u8])
        ensures { Appends self.old more.now self.new }
    {
        let at = self.filled.min(self.bytes.len());
        let n = more.len().min(self.bytes.len() - at);
        self.filled += n;
        let bytes = &mut *self.bytes;
        if n == more.len() {
            bytes[at..at + n].copy_from_slice(more);
        } else {
            bytes[at..at + n].copy_from_slice(&more[..n]);
        }
    }
}
