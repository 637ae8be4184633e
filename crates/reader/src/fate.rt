// What becomes of a chain, and with it of the walk.
ghost use Rattle.std.specs.Prelude.{◌≡◌};
ghost use Rattle.reader.specs.Loops.{walked_by, Hit, Fated};

use refusal::cause::Cause;

// What the walk comes to: so many records, none of them refused; or a cause.
pub(crate) type Walked = Result<usize, Cause>;

// What becomes of a chain by the index i at which the walk stopped, of k records: above k the chain leaves, any other than 0 was reached before, and 0 ends
// it as is said.
pub(crate) fn told(k: usize, i: usize, ended: Walked) -> Walked
    ensures { result ≡ walked_by k i ended }
{
    if k < i {
        return Err(Cause::ChainLeaves);
    }
    if 0 < i {
        return Err(Cause::ChainRepeats);
    }
    ended
}

// Walks on after the first hit, from an index at its position: the hit is given only if the chain ends.
// A function of its own in machine code too: within the walk it costs every record of a chain without a hit seven instructions.
#[inline(never)]
pub(crate) fn walk_on(sheet: &[u8], from: usize, position: usize, hit: Cause) -> Walked
    requires { Hit sheet.now position from hit }
    ensures { Fated sheet.now result }
{
    let k = layout::records(sheet);
    let mut i = from;
    for _ in position..k {
        if !layout::is_record(sheet, i) {
            break;
        }
        i = layout::record_at(sheet, i).next;
    }
    told(k, i, Err(hit))
}
