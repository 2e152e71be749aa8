// Drawing a plan's sheet as bytes.
ghost use Rattle.std.specs.Prelude.{◌≡◌, ◌+◌, ◌≤◌, length};
ghost use Rattle.std.specs.List.{flat_map};
ghost use Rattle.text.specs.Writes.{Puts};
ghost use Rattle.sheet.specs.Bytes.{Drawn, header, row_bytes, told};
ghost use Rattle.sheet.specs.Series.{SheetOf};
ghost use Rattle.sheet.specs.Sheets.{sheet};

use crate::extents::extent_of;
use crate::faults::SheetFault;
use crate::walks::Walk;
use plan::items::Item;
use plan::plans::Plan;

// A sheet begins with this many bytes before its rows.
pub const HEADER: usize = 8;

// The header of a sheet of so many rows, for a kind of item.
fn header<K: Item>(rows: u16) -> [u8; HEADER]
    ensures { result ≡ header K.GREATEST rows }
{
    let [low, high] = rows.to_le_bytes();
    [b'S', b'Q', b'A', 1, 0, K::GREATEST as u8, low, high]
}

// Writes bytes at a place, and says the place after them.
// Tried as_chunks_mut and iter_mut().zip(walk): nothing is known of the bytes that they leave.
fn put(out: &mut [u8], at: usize, part: &[u8]) -> usize
    requires { at + length part.now ≤ length out.old }
    ensures { Puts out.old out.new at part.now result }
{
    let end = at + part.len();
    out[at..end].copy_from_slice(part);
    end
}

// Writes the rows of a plan's sheet at a place, and says the place after them.
fn put_rows<K: Item, P: Plan>(plan: &P, out: &mut [u8], start: usize) -> usize
    requires { start + length (flat_map row_bytes (sheet K.GREATEST (P.meaning plan.now))) ≤ length out.old }
    ensures { Puts out.old out.new start (flat_map row_bytes (sheet K.GREATEST (P.meaning plan.now))) result }
{
    let mut at = start;
    for (_, row) in Walk::<K, P>::new(plan) {
        at = put(out, at, &<[u8; 2]>::from(row));
    }
    at
}

// Draws the sheet of a plan, for a kind of item, at the front of a buffer, and says how many bytes it has. A buffer that
// is too short is refused before a byte is written.
pub fn draw<K: Item, P: Plan>(plan: &P, buffer: &mut [u8]) -> Result<usize, SheetFault>
    ensures drawn { Drawn K.GREATEST (P.meaning plan.now) buffer.old buffer.new (told result) }
    ensures series { SheetOf K.score (P.meaning plan.now) (sheet K.GREATEST (P.meaning plan.now)) }
{
    let rows = extent_of::<K, P>(plan).rows;
    let needed = HEADER + 2 * rows as usize;
    if buffer.len() < needed {
        return Err(SheetFault::ShortBuffer(needed as u32));
    }
    let start = put(buffer, 0, &header::<K>(rows as u16));
    Ok(put_rows::<K, P>(plan, buffer, start))
}
