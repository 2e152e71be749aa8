// Plans that can take each other's place.
#![tactic(auto)]

ghost use Rattle.std.specs.Prelude.{◌≡◌, ◌↔◌, IsTrue};
ghost use Rattle.sheet.specs.Bytes.{sheet_bytes};
ghost use Rattle.sheet.specs.Series.{SameEnds};
ghost use Rattle.alike.specs.Lives.{Lives, ReplyAlike};

use plan::items::Item;
use plan::plans::Plan;
use sheet::comparing::same_sheet;

// Whether two plans are interchangeable for a kind of item: true exactly if their sheets are equal, exactly if they end
// every series of 4,096 items at the same item with the same verdict, and exactly if two stands made with them reply
// alike to every list of calls.
pub fn interchangeable<K: Item, P: Plan, Q: Plan>(one: &P, other: &Q) -> bool
    ensures sheets { IsTrue result ↔ (sheet_bytes K.GREATEST (P.meaning one.now) ≡ sheet_bytes K.GREATEST (Q.meaning other.now)) }
    ensures ends { IsTrue result ↔ (SameEnds K.score (P.meaning one.now) (Q.meaning other.now)) }
    ensures stands { IsTrue result ↔ (ReplyAlike K.GREATEST (P.meaning one.now) (Q.meaning other.now)) }
    ensures lives { (Lives K.GREATEST (P.meaning one.now)) × (Lives K.GREATEST (Q.meaning other.now)) }
{
    same_sheet::<K, P, Q>(one, other)
}
