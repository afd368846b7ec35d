// The bits of a number, and laws on lists and on yes and no that several crates use.
#![tactic(auto)]

ghost use Rattle.std.specs.Prelude.{◌≡◌, ◌<◌};
ghost use Rattle.basics.specs.Bits.{has};

// Whether a number has a bit.
pub fn has_bit(bits: u32, bit: u32) -> bool
    requires { 0 < bit }
    ensures { result ≡ has bits bit }
{
    bits / bit % 2 == 1
}
