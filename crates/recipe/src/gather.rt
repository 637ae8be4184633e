// A bit's outcomes added to those of the bits below it, station by station.
ghost use Rattle.std.specs.Prelude.{◌≡◌, length};
ghost use Rattle.line.specs.Writing.{Each};
ghost use Rattle.recipe.specs.Gathered.{with_bit, joined, added};
ghost use Rattle.recipe.specs.Loops.{Alike};

use line::Line;

// The number m with d at bit b.
fn with_bit(b: u8, d: u8, m: u8) -> u8
    ensures { result ≡ with_bit b d m }
{
    m.wrapping_add(d.unbounded_shl(u32::from(b)))
}

// A station's outcome; a bad one, told by its grade, keeps its bytes.
fn add_station(b: u8, part: &[u8; 4], outcome: &mut [u8])
    requires { length outcome.old ≡ 4 }
    ensures { Each 4 outcome.new (joined b part.now outcome.old 0) }
{
    if outcome[1] == 255 {
        return;
    }
    let [value, grade, flag, garbled] = *part;
    let joined = [
        with_bit(b, value, outcome[0]),
        grade.min(outcome[1]),
        if flag == 1 { 1 } else { outcome[2] },
        garbled.max(outcome[3]),
    ];
    outcome.copy_from_slice(&joined);
}

// Those of all stations.
pub(crate) fn add(b: u8, part: &[u8], outcomes: &mut [u8])
    requires { Alike part.now outcomes.old }
    ensures { outcomes.new ≡ added b part.now outcomes.old }
{
    let (stations, _) = part.as_chunks::<{ Line::OUTCOME }>();
    // The outcomes by places: a proof knows nothing of what is written through `as_chunks_mut`.
    for (i, station) in stations.iter().enumerate() {
        let at = Line::OUTCOME * i;
        add_station(b, station, &mut outcomes[at..at + Line::OUTCOME]);
    }
}
