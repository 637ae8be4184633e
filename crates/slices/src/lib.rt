// What is asked of slices everywhere: the byte at a place that may be past the end, one byte everywhere, and the shorter of two lengths.
#![tactic(auto)]

ghost use Rattle.std.specs.Prelude.{◌≡◌, ◌≤◌, min, length, get_or, replicate};

// The byte at a place, 0 past the end.
pub fn at(bytes: &[u8], place: usize) -> u8
    ensures { result ≡ get_or bytes.now place 0 }
{
    bytes.get(place).copied().unwrap_or(0)
}

// One byte everywhere.
pub fn fill(bytes: &mut [u8], b: u8)
    ensures { bytes.new ≡ replicate (length bytes.old) b }
{
    bytes.fill(b);
}

// The shorter of two lengths.
pub fn shorter(len: usize, most: usize) -> usize
    ensures { (result ≡ min len most) × (result ≤ len) × (result ≤ most) }
{
    len.min(most)
}
