// The lent table, written once every record is judged.
ghost use Rattle.std.specs.Prelude.{◌≡◌, ◌<◌, length};
ghost use Rattle.reader.specs.Loops.{Holds, place_in, ballot_in, put_at, laid};

use line::Line;

// A chained record's ballot, with its place in all bits' tables, as one number: 4,096 of them are cleared for every sheet. As a number and a byte side by side
// they take twice the stack, and a sheet of few records more than twice the time.
#[derive(Clone, Copy)]
pub(crate) struct Placed {
    packed: u32,
}

impl Placed {
    // Nothing yet.
    pub(crate) const NONE: Placed = Placed { packed: 0 };

    pub(crate) fn new(place: usize, ballot: u8) -> Placed
        requires { place < 294912 }
        ensures { Holds result place ballot }
    {
        Placed {
            packed: 256 * place as u32 + u32::from(ballot),
        }
    }

    #[tactic(auto, unfolding(crate::specs::Loops::place_in))]
    fn place(self) -> usize
        ensures { result ≡ place_in self }
    {
        (self.packed / 256) as usize
    }

    #[tactic(auto, unfolding(crate::specs::Loops::ballot_in))]
    fn ballot(self) -> u8
        ensures { result ≡ ballot_in self }
    {
        (self.packed % 256) as u8
    }
}

// A ballot at its place of all bits' tables, if it is in this one, which begins at the place `start`.
fn put(table: &mut [u8], start: usize, placed: Placed)
    ensures { table.new ≡ put_at table.old start placed }
{
    let place = placed.place();
    if start <= place && place - start < table.len() {
        table[place - start] = placed.ballot();
    }
}

// 255 everywhere, then the ballots that have their places in the table.
pub(crate) fn fill(kept: &[Placed], start: usize, table: &mut [u8])
    ensures { table.new ≡ laid kept.now start (length table.old) (length kept.now) }
{
    slices::fill(table, Line::SILENCE);
    for placed in kept {
        put(table, start, *placed);
    }
}
