// errata.rs as published, as a rule table: users need not write it. specs/Intel.antt says which records each row stands for.
ghost use Rattle.std.specs.Prelude.{◌≡◌};
ghost use Rattle.rules.specs.Intel.{intel, intel_out};

// The numbers of the table: 40 rows of three.
pub const WORDS: usize = 120;

pub const RULES: [u32; WORDS] = [
    0x00ffff00, 0x0002f000, 1, 0x00ffff00, 0x00082000, 1, 0x00ffff00, 0x0008e000, 1, 0x3fffff00,
    0x0402f000, 4, 0x3fffff00, 0x04082000, 4, 0x3fffff00, 0x0408e000, 4, 0x00ffdf00, 0x0005d000, 2,
    0x00ffef00, 0x0005e000, 2, 0x00ffff00, 0x000b6000, 2, 0x3df7f000, 0x04005000, 8, 0x3df8f000,
    0x04000000, 8, 0x3dfa0100, 0x04000100, 8, 0x3dfa0200, 0x04000200, 8, 0x3dfa0400, 0x04000400, 8,
    0x3dfa0800, 0x04000800, 8, 0x3dfa3000, 0x04000000, 8, 0x3dfa4000, 0x04000000, 8, 0x3dfa8000,
    0x04000000, 8, 0x3dfc0100, 0x04000100, 8, 0x3dfc0200, 0x04000200, 8, 0x3dfc0400, 0x04000400, 8,
    0x3dfc0800, 0x04000800, 8, 0x3dfc1000, 0x04000000, 8, 0x3dfc2000, 0x04000000, 8, 0x3dfc4000,
    0x04000000, 8, 0x3dfc8000, 0x04000000, 8, 0x3dfd0000, 0x04010000, 8, 0x3dfd0000, 0x04040000, 8,
    0x3dfe0000, 0x04000000, 8, 0x3ff6a000, 0x06000000, 8, 0x3ff70100, 0x06000100, 8, 0x3ff70200,
    0x06000200, 8, 0x3ff70400, 0x06000400, 8, 0x3ff70800, 0x06000800, 8, 0x3ff71000, 0x06001000, 8,
    0x3ff72000, 0x06000000, 8, 0x3ff7c000, 0x06004000, 8, 0x3ff7c000, 0x06008000, 8, 0x3ff7c000,
    0x06010000, 8, 0x3ffe0000, 0x06060000, 8,
];

// The table.
pub fn table() -> [u32; WORDS]
    ensures { result ≡ intel }
{
    RULES
}

// How many numbers the table has; they are written to the start of the output where they fit.
pub fn write(out: &mut [u32]) -> u32
    ensures { (out.new, result) ≡ intel_out out.old }
{
    if out.len() < WORDS {
        return WORDS as u32;
    }
    copies::copy(&table(), &mut out[..WORDS]);
    WORDS as u32
}
