// Text put into a lent buffer, as far as the buffer goes. Each function puts its bytes from a place on and answers the place after them, also where that
// is past the buffer's end, so that a text can be put piece by piece and its whole length is told. That is what `Puts` says, and no `write!` says it: so
// decimals are printed here.
#![tactic(auto)]

ghost use Rattle.std.specs.Prelude.{◌≡◌, [], ◌∷◌, ◌<◌};
ghost use Rattle.text.specs.Decimal.{space, digit, numeral};
ghost use Rattle.text.specs.Laid.{Puts};

// A byte.
pub fn byte(out: &mut [u8], at: usize, b: u8) -> usize
    ensures { Puts out.old out.new at (b ∷ []) result }
{
    if at < out.len() {
        out[at] = b;
    }
    at.saturating_add(1)
}

// The bytes of a word.
pub fn word(out: &mut [u8], at: usize, bytes: &[u8]) -> usize
    ensures { Puts out.old out.new at bytes.now result }
{
    let mut place = at;
    for b in bytes {
        place = byte(out, place, *b);
    }
    place
}

fn digit(out: &mut [u8], at: usize, d: u64) -> usize
    requires { d < 10 }
    ensures { Puts out.old out.new at (digit d ∷ []) result }
{
    byte(out, at, b'0' + d as u8)
}

// A number in decimal, without leading zeros.
pub fn number(out: &mut [u8], at: usize, x: u64) -> usize
    ensures { Puts out.old out.new at (numeral x) result }
{
    if x < 10 {
        return digit(out, at, x);
    }
    let b = number(out, at, x / 10);
    digit(out, b, x % 10)
}

// A number after a space.
pub fn field(out: &mut [u8], at: usize, x: u64) -> usize
    ensures { Puts out.old out.new at (space ∷ numeral x) result }
{
    let a = byte(out, at, b' ');
    number(out, a, x)
}
