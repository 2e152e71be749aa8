// Comparing the sheets of two plans.
ghost use Rattle.std.specs.Prelude.{◌≡◌, ◌↔◌, IsTrue};
ghost use Rattle.sheet.specs.Sheets.{sheet};

use crate::walks::Walk;
use plan::items::Item;
use plan::plans::Plan;

// Whether two plans have the same sheet, for a kind of item.
pub fn same_sheet<K: Item, P: Plan, Q: Plan>(one: &P, other: &Q) -> bool
    ensures { IsTrue result ↔ (sheet K.GREATEST (P.meaning one.now) ≡ sheet K.GREATEST (Q.meaning other.now)) }
{
    let mut walk = Walk::<K, P>::new(one);
    let mut beside = Walk::<K, Q>::new(other);
    // not by `Iterator::eq`: no edit that lets a sheet end before the other would then be refused for that alone
    while let Some((_, row)) = walk.next() {
        let Some((_, same)) = beside.next() else {
            return false;
        };
        if row != same {
            return false;
        }
    }
    beside.next().is_none()
}
