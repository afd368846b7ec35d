// Unsigned numbers of 1, 2, 4 and 8 bytes, least byte first, read from a slice and written into one.
// A wider number is two halves of the next narrower width, so one law on halves proves each width.
#![tactic(auto)]

ghost use Rattle.std.specs.Prelude.{◌≡◌, ℕ, ◌+◌, ◌≤◌, length};
ghost use Rattle.le.specs.Le.{le, put};

// A number of so many bytes: where it stands in a slice, and what writing it there leaves.
pub trait LittleEndian: Copy {
    ghost width: { ℕ };

    ghost value: { Self → ℕ };

    fn read_le(s: &[u8], at: usize) -> Self
        requires { at + width ≤ length s.now }
        ensures { value result ≡ le width s.now at };

    fn write_le(self, out: &mut [u8], at: usize)
        requires { at + width ≤ length out.old }
        ensures { out.new ≡ put width out.old at (value self) };
}

impl LittleEndian for u8 {
    ghost width = { 1 };

    ghost value = { λ x. x };

    fn read_le(s: &[u8], at: usize) -> u8 {
        s[at]
    }

    fn write_le(self, out: &mut [u8], at: usize) {
        out[at] = self;
    }
}

impl LittleEndian for u16 {
    ghost width = { 2 };

    ghost value = { λ x. x };

    fn read_le(s: &[u8], at: usize) -> u16 {
        let low = u8::read_le(s, at) as u16;
        let high = u8::read_le(s, at + 1) as u16;
        low + high * 256
    }

    fn write_le(self, out: &mut [u8], at: usize) {
        let low = (self % 256) as u8;
        let high = (self / 256) as u8;
        low.write_le(out, at);
        high.write_le(out, at + 1);
    }
}

impl LittleEndian for u32 {
    ghost width = { 4 };

    ghost value = { λ x. x };

    fn read_le(s: &[u8], at: usize) -> u32 {
        let low = u16::read_le(s, at) as u32;
        let high = u16::read_le(s, at + 2) as u32;
        low + high * 65536
    }

    fn write_le(self, out: &mut [u8], at: usize) {
        let low = (self % 65536) as u16;
        let high = (self / 65536) as u16;
        low.write_le(out, at);
        high.write_le(out, at + 2);
    }
}

impl LittleEndian for u64 {
    ghost width = { 8 };

    ghost value = { λ x. x };

    fn read_le(s: &[u8], at: usize) -> u64 {
        let low = u32::read_le(s, at) as u64;
        let high = u32::read_le(s, at + 4) as u64;
        low + high * 4294967296
    }

    fn write_le(self, out: &mut [u8], at: usize) {
        let low = (self % 4294967296) as u32;
        let high = (self / 4294967296) as u32;
        low.write_le(out, at);
        high.write_le(out, at + 4);
    }
}
