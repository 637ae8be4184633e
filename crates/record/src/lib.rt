// The header and the records of a run sheet, put into a lent buffer. Nothing is put where there is no room.
#![tactic(auto)]

ghost use Rattle.std.specs.Prelude.{◌≡◌};
ghost use Rattle.record.specs.Bytes.{first_index, eight};
ghost use Rattle.record.specs.Put.{put_in, header_in};

// The first index, where k records follow.
fn first_index(k: usize) -> u16
    ensures { result ≡ first_index k }
{
    u16::from(0 < k)
}

// A header, where k records follow; none that has not twelve bytes.
pub fn put_header(header: &[u8], sheet: &mut [u8], k: usize)
    ensures { sheet.new ≡ header_in sheet.old header.now k }
{
    if header.len() != 12 || sheet.len() < 12 {
        return;
    }
    sheet[..12].copy_from_slice(header);
    sheet[6..8].copy_from_slice(&first_index(k).to_le_bytes());
}

// A record, from `at` on.
pub fn put(sheet: &mut [u8], at: usize, round: u8, from: u8, to: u8, ballot: u8, next: u16, bit: u8)
    ensures { sheet.new ≡ put_in sheet.old at (eight round from to ballot next bit) }
{
    if sheet.len() < 8 || sheet.len() - 8 < at {
        return;
    }
    let [low, high] = next.to_le_bytes();
    sheet[at..at + 8].copy_from_slice(&[round, from, to, ballot, low, high, bit, 0]);
}
