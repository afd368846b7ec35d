// A lent buffer that text is put into, piece after piece.
ghost use Rattle.std.specs.Prelude.{length, decimal};
ghost use Rattle.text.specs.Dump.{column};
ghost use Rattle.text.specs.Number.{hex};
ghost use Rattle.text.specs.Steps.{HasRoom, Puts, most_digits, most_column};

// The digits of a number of 32 bits in hexadecimal.
const HEX_DIGITS: usize = 8;

// The buffer, and where the text in it ends.
#[derive(Drop)]
pub(crate) struct Page<'a> {
    pub(crate) out: &'a mut [u8],
    pub(crate) end: usize,
}

impl Page<'_> {
    pub(crate) fn text(&mut self, text: &[u8])
        requires { HasRoom self.old (length text.now) }
        ensures { Puts self.old text.now (length text.now) self.new }
    {
        let end = self.end + text.len();
        self.out[self.end..end].copy_from_slice(text);
        self.end = end;
    }

    // A number in decimal.
    pub(crate) fn decimal(&mut self, n: u64)
        requires { HasRoom self.old (length (decimal n)) }
        ensures { Puts self.old (decimal n) most_digits self.new }
    {
        self.text(itoa::Buffer::new().format(n).as_bytes());
    }

    // A number of 32 bits in decimal, and the space after it.
    pub(crate) fn column(&mut self, n: u32)
        requires { HasRoom self.old most_column }
        ensures { Puts self.old (column n) most_column self.new }
    {
        self.decimal(n as u64);
        self.text(b" ");
    }

    // A number as eight hexadecimal digits.
    pub(crate) fn hex(&mut self, n: u32)
        requires { HasRoom self.old 8 }
        ensures { Puts self.old (hex n) 8 self.new }
    {
        let mut digits = [0u8; 16];
        let count = io::hex(n as u64, HEX_DIGITS, &mut digits);
        self.text(&digits[..count]);
    }
}
