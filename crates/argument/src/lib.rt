// A number among a program's arguments.
#![tactic(auto)]

ghost use Rattle.std.specs.Prelude.{◌≡◌};
ghost use Rattle.argument.specs.Argument.{argument};

// The decimal number that an argument's bytes are; one above 255 is told as 255.
pub fn number(bytes: &[u8]) -> Option<u8>
    ensures { result ≡ argument bytes.now }
{
    let mut x: u8 = 0;
    for b in bytes {
        if !b.is_ascii_digit() {
            return None;
        }
        x = x.saturating_mul(10).saturating_add(*b - b'0');
    }
    if bytes.is_empty() { None } else { Some(x) }
}
