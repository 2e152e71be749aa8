// Reading a sheet.
ghost use Rattle.std.specs.Prelude.{◌≡◌, ◌≤◌, ◌&&◌, map, length, IfOk, Some as some, None as none, MatchResult};
ghost use Rattle.sheet.specs.Loads.{fault_in, row_of, rows_in};
ghost use Rattle.sheet.specs.Spans.{first};
ghost use Rattle.sheet.specs.Tables.{apart, closing_of, first_unlawful, lawful_row, live_of, reached_if_any, small_if_any};

use crate::drawing::HEADER;
use crate::faults::SheetFault;
use crate::rows::{Row, Span};
use plan::items::Item;
use std::alloc::{AllocError, Global};

// A sheet has at most this many rows.
const MOST_ROWS: usize = 4096;

impl Span {
    // Whether a number is missing or reached.
    fn reaches(self, number: Option<u8>) -> bool
        ensures { result ≡ reached_if_any self number }
    {
        number.is_none_or(|number| self.contains(u32::from(number)))
    }
}

impl Row {
    // The live counts of a row.
    fn live(self, reached: Span) -> Span
        ensures { result ≡ live_of self reached }
    {
        Span {
            low: self.acceptance.map_or(
                reached.low,
                |number| reached.low.max(u32::from(number) + 1),
            ),
            end: self
                .rejection
                .map_or(reached.end, |number| reached.end.min(u32::from(number))),
        }
    }

    // Whether the numbers, where they stand, are not too great, and the second is the greater.
    fn is_apart(self) -> bool
        ensures { result ≡ (small_if_any self.acceptance && apart self.acceptance self.rejection) }
    {
        self.acceptance
            .is_none_or(|a| a <= 253 && self.rejection.is_none_or(|r| a < r))
    }

    // Whether a row, the last one or not, is lawful over the counts reached.
    fn is_lawful(self, last: bool, reached: Span) -> bool
        ensures { result ≡ lawful_row last self reached }
    {
        let live = self.live(reached);
        reached.reaches(self.acceptance)
            && reached.reaches(self.rejection)
            && self.is_apart()
            && (live.is_empty() || live.end <= 254)
            && live.is_empty() == last
    }

    // The acceptance number of the last row.
    pub(crate) fn closing(self) -> i32
        ensures { result ≡ closing_of self }
    {
        match self.acceptance {
            Some(acceptance) => i32::from(acceptance),
            None => self.rejection.map_or(0, i32::from) - 1,
        }
    }
}

// The first row that is not lawful, counted from 1.
fn unlawful<K: Item>(pairs: &[[u8; 2]]) -> Option<u32>
    requires { length pairs.now ≤ 4096 }
    ensures { result ≡ first_unlawful K.GREATEST 1 (first K.GREATEST) (map row_of pairs.now) }
{
    let mut reached = Span::first::<K>();
    for (i, pair) in pairs.iter().enumerate() {
        let row = Row::from(*pair);
        if !row.is_lawful(i + 1 == pairs.len(), reached) {
            return Some(i as u32 + 1);
        }
        reached = row.live(reached).spread::<K>();
    }
    None
}

// The bytes of the rows after the header, if a sheet for a kind of item has no fault.
pub fn rows_checked<K: Item>(bytes: &[u8]) -> Result<&[[u8; 2]], SheetFault>
    ensures { MatchResult result (λ pairs. (fault_in K.GREATEST bytes.now ≡ none) × (map row_of pairs.now ≡ rows_in bytes.now)) (λ e. fault_in K.GREATEST bytes.now ≡ some e) }
{
    let [s, q, a, version, zero, kind, low, high, rows @ ..] = bytes else {
        return Err(SheetFault::NoHeader);
    };
    if *s != b'S' || *q != b'Q' || *a != b'A' {
        return Err(SheetFault::OtherMark);
    }
    if *version != 1 || *zero != 0 {
        return Err(SheetFault::OtherVersion);
    }
    if u32::from(*kind) != K::GREATEST {
        return Err(SheetFault::OtherKind);
    }
    let count = usize::from(u16::from_le_bytes([*low, *high]));
    // tried `contains` for the limits: the proof has then to be split by hand
    if count < 1 || count > MOST_ROWS || bytes.len() != HEADER + 2 * count {
        return Err(SheetFault::WrongLength);
    }
    let (pairs, _) = rows.as_chunks::<2>();
    match unlawful::<K>(pairs) {
        Some(row) => Err(SheetFault::UnlawfulRow(row)),
        None => Ok(pairs),
    }
}

// The rows that pairs of bytes are read as. All room is asked for at once.
pub fn read_rows(heap: Global, pairs: &[[u8; 2]]) -> Result<Vec<Row>, AllocError>
    ensures { IfOk result (λ v. v.items ≡ map row_of pairs.now) }
{
    let mut rows = Vec::with_capacity(heap, pairs.len())?;
    rows.extend(pairs.iter().copied().map(Row::from))?;
    Ok(rows)
}
