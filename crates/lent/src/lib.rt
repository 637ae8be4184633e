// A lent station: the caller's own is advanced by one row where it stands. Crate lent_c has the call for C.
#![tactic(auto)]

ghost use Rattle.std.specs.Prelude.{◌≡◌};
ghost use Rattle.lent.specs.Lent.{AdvancesLent};

use state::Station;

// The lent station takes the row that it received in the current round. The answer is 0, or the number of the cause by which the row is refused; nothing is
// written then.
pub fn vembopu_advance_lent(s: &mut Station, row: &[u8]) -> u8
    ensures { AdvancesLent s.old row.now s.new result }
{
    match station::advance(*s, row) {
        Ok(next) => {
            *s = next;
            0
        }
        Err(cause) => cause.number(),
    }
}
