// One step of the generator's state, 32 bits.
#![tactic(auto)]

ghost use Rattle.std.specs.Prelude.{◌≡◌};
ghost use Rattle.xorshift.specs.State.{next};

// The state after this one. What a shift takes beyond 32 bits is dropped.
pub fn next(state: u32) -> u32
    ensures { result ≡ next state }
{
    let a = state ^ (state << 13);
    let b = a ^ (a >> 17);
    b ^ (b << 5)
}
