// Recipe numbers: how many bits there are, and each of them.
ghost use Rattle.std.specs.Prelude.{◌≡◌};
ghost use Rattle.line.specs.Width.{bits, bit_of};

// The bits of w, 0 standing for 1.
#[tactic(auto, unfolding(crate::specs::Width::bits))]
pub fn bits(w: u8) -> u8
    ensures { result ≡ bits w }
{
    w.max(1)
}

// Bit b of a number.
pub fn bit(number: u8, b: u8) -> u8
    ensures { result ≡ bit_of number b }
{
    if b < 8 { (number >> b) % 2 } else { 0 }
}
