// How large a sheet is.
ghost use Rattle.std.specs.Prelude.{◌≡◌, length};
ghost use Rattle.sheet.specs.Sheets.{points, sheet};

use crate::walks::Walk;
use plan::items::Item;
use plan::plans::Plan;

// The number of rows of a sheet, and of its points, the counts reached in all rows.
#[derive(Clone, Copy, Debug, PartialEq, Eq)]
pub struct Extent {
    pub rows: u32,
    pub points: u32,
}

// The extent of a plan's sheet, for a kind of item.
pub fn extent_of<K: Item, P: Plan>(plan: &P) -> Extent
    ensures rows { result.rows ≡ length (sheet K.GREATEST (P.meaning plan.now)) }
    ensures points { result.points ≡ points K.GREATEST (P.meaning plan.now) }
{
    let mut extent = Extent { rows: 0, points: 0 };
    for (reached, _) in Walk::<K, P>::new(plan) {
        extent.rows += 1;
        extent.points += reached.end - reached.low;
    }
    extent
}
