// The library for C of the lent station: the call of crate lent under the same name, which promises what that one promises. C hands over the struct's ten bytes.
#![tactic(auto)]

ghost use Rattle.lent.specs.Lent.{AdvancesLent};

use state::Station;

// The lent station takes the row that it received in the current round. The answer is 0, or the number of the cause by which the row is refused; nothing is
// written then.
#[unsafe(no_mangle)]
pub extern "C" fn vembopu_advance_lent(s: &mut Station, row: &[u8]) -> u8
    ensures { AdvancesLent s.old row.now s.new result }
{
    lent::vembopu_advance_lent(s, row)
}
