// Counts that series reach, and the rows of a sheet.
ghost use Rattle.std.specs.Prelude.{◌≡◌, ◌^◌, ◌<◌, ◌≤◌, ◌↔◌, IsTrue};
ghost use Rattle.sheet.specs.Bytes.{row_bytes};
ghost use Rattle.sheet.specs.Loads.{number_of, row_of};
ghost use Rattle.sheet.specs.Spans.{In, first, spread};

use plan::items::Item;

// The counts from `low` up to, but not with, `end`. No `Range`, which is not `Copy`.
#[derive(Clone, Copy, Debug, PartialEq, Eq)]
pub struct Span {
    pub low: u32,
    pub end: u32,
}

impl Span {
    // The counts reached at size 1, for a kind of item.
    pub(crate) fn first<K: Item>() -> Span
        ensures { result ≡ first K.GREATEST }
    {
        Span {
            low: 0,
            end: K::GREATEST + 1,
        }
    }

    // The counts that one more item reaches from these.
    pub(crate) fn spread<K: Item>(self) -> Span
        requires { self.end < 2 ^ 31 }
        ensures { result ≡ spread K.GREATEST self }
    {
        Span {
            end: self.end + K::GREATEST,
            ..self
        }
    }

    pub(crate) fn is_empty(self) -> bool
        ensures { IsTrue result ↔ (self.end ≤ self.low) }
    {
        self.low >= self.end
    }

    pub(crate) fn contains(self, count: u32) -> bool
        ensures { IsTrue result ↔ In self count }
    {
        (self.low..self.end).contains(&count)
    }
}

// A row of a sheet: of the counts reached at a size the greatest that is accepted and the smallest that is rejected,
// where there is one.
#[derive(Clone, Copy, Debug, PartialEq, Eq)]
pub struct Row {
    pub acceptance: Option<u8>,
    pub rejection: Option<u8>,
}

// The byte of a number that is missing.
const MISSING: u8 = 255;

// The number that a byte stands for.
fn number_of(byte: u8) -> Option<u8>
    ensures { result ≡ number_of byte }
{
    (byte != MISSING).then_some(byte)
}

impl From<[u8; 2]> for Row {
    ghost from_gives = { λ b r. r ≡ row_of b };

    fn from([acceptance, rejection]: [u8; 2]) -> Row {
        Row {
            acceptance: number_of(acceptance),
            rejection: number_of(rejection),
        }
    }
}

impl From<Row> for [u8; 2] {
    ghost from_gives = { λ r b. b ≡ row_bytes r };

    fn from(row: Row) -> [u8; 2] {
        [
            row.acceptance.unwrap_or(MISSING),
            row.rejection.unwrap_or(MISSING),
        ]
    }
}
