// What a sheet, or the buffer that it is to be drawn in, is refused for.
ghost use Rattle.std.specs.Prelude.{◌≡◌};
ghost use Rattle.sheet.specs.Refusals.{refused_sheet};
ghost use Rattle.sheet.specs.declared.faults.LoadFault.TheVariants.{BadSheet, NoMemory};

use plan::refusals::{Layer, Refusal};
use std::alloc::AllocError;

#[derive(Clone, Copy, Debug, PartialEq, Eq)]
pub enum SheetFault {
    // fewer bytes than the header has
    NoHeader,
    // not the mark of a sheet
    OtherMark,
    OtherVersion,
    // a sheet for items with another greatest count
    OtherKind,
    // a number of rows outside 1 to 4,096, or a length that does not fit it
    WrongLength,
    // the first row that is not lawful, counted from 1
    UnlawfulRow(u32),
    // a buffer that is too short, and the length needed
    ShortBuffer(u32),
}

// Why a load leaves its table as it was: a fault of the sheet, or want of memory for its rows.
#[derive(Clone, Copy, Debug, PartialEq, Eq)]
pub enum LoadFault {
    BadSheet(SheetFault),
    NoMemory,
}

impl From<SheetFault> for Refusal {
    ghost from_gives = { λ e r. r ≡ refused_sheet e };

    fn from(e: SheetFault) -> Refusal {
        let (cause, layer, place) = match e {
            SheetFault::NoHeader => (4, Layer::Sheet, 0),
            SheetFault::OtherMark => (5, Layer::Sheet, 0),
            SheetFault::OtherVersion => (6, Layer::Sheet, 0),
            SheetFault::OtherKind => (7, Layer::Sheet, 0),
            SheetFault::WrongLength => (8, Layer::Sheet, 0),
            SheetFault::UnlawfulRow(row) => (9, Layer::Sheet, row),
            SheetFault::ShortBuffer(needed) => (13, Layer::Memory, needed),
        };
        Refusal {
            cause,
            layer,
            place,
        }
    }
}

// Each `From` is written out, since clauses name the case that `?` makes, which no derive promises.
impl From<SheetFault> for LoadFault {
    ghost from_gives = { λ e r. r ≡ BadSheet e };

    fn from(e: SheetFault) -> LoadFault {
        LoadFault::BadSheet(e)
    }
}

impl From<AllocError> for LoadFault {
    ghost from_gives = { λ e r. r ≡ NoMemory };

    fn from(_e: AllocError) -> LoadFault {
        LoadFault::NoMemory
    }
}
