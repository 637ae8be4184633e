// Marks: bit i - 1 of a number marks station i as bad. Stations are counted from 0 here, so station k has bit k.
ghost use Rattle.std.specs.Prelude.{◌≡◌};
ghost use Rattle.line.specs.Marks.{marked};

// Whether the station counted k from 0 is marked.
pub fn is_marked(marks: u32, k: u8) -> bool
    ensures { result ≡ marked marks k }
{
    k < 32 && (marks >> k) % 2 == 1
}
