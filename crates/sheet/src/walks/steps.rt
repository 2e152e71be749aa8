// The steps of a walk.
ghost use Rattle.std.specs.Prelude.{◌≡◌, ◌<◌, ◌≤◌, max};
ghost use Rattle.std.specs.Iterator.{YieldsFirst, item_count};
ghost use Rattle.sheet.specs.Lefts.{left};
ghost use Rattle.sheet.specs.Sheets.{lines, row_over};
ghost use Rattle.sheet.specs.Spans.{past, whole, next_span};

use super::Walk;
use crate::rows::{Row, Span};
use plan::items::Item;
use plan::plans::Plan;
use std::marker::PhantomData;

// The least count that a pair with this acceptance number does not accept. It and the next differ by one: they are two words
// of the definitions, and one function with a number to add would be no plainer. By `max` and a cast, since with `try_from` a
// step of a walk takes 13 % more instructions.
fn past(number: i32) -> u32
    ensures { result ≡ past number }
{
    (i64::from(number) + 1).max(0) as u32
}

// The least count that a pair with this rejection number rejects.
fn whole(number: i32) -> u32
    ensures { result ≡ whole number }
{
    number.max(0) as u32
}

impl Span {
    // The counts reached by one more item, if a pair leaves a count live.
    fn next<K: Item>(self, pair: (i32, i32)) -> Option<Span>
        ensures { result ≡ next_span K.GREATEST pair self }
    {
        let (acceptance, rejection) = pair;
        let live = Span {
            low: self.low.max(past(acceptance)),
            end: self.end.min(whole(rejection)),
        };
        (!live.is_empty()).then(|| live.spread::<K>())
    }
}

impl Row {
    // The row of a pair over the counts reached.
    fn over(reached: Span, pair: (i32, i32)) -> Row
        requires some { reached.low < reached.end }
        requires accepts { past pair.0 ≤ 254 }
        requires rejects { max reached.low (whole pair.1) ≤ 254 }
        ensures { result ≡ row_over pair reached }
    {
        let (acceptance, rejection) = pair;
        let accepted = past(acceptance);
        let rejected = whole(rejection);
        Row {
            acceptance: (reached.low < accepted).then(|| (reached.end.min(accepted) - 1) as u8),
            rejection: (rejected < reached.end).then(|| reached.low.max(rejected) as u8),
        }
    }
}

impl<'a, K: Item, P: Plan> Walk<'a, K, P> {
    // At the first size: all lines are left.
    pub fn new(plan: &'a P) -> Walk<'a, K, P>
        ensures { left P.meaning K.GREATEST result ≡ lines K.GREATEST (P.meaning plan.now) }
    {
        Walk {
            plan,
            size: 1,
            reached: Some(Span::first::<K>()),
            kind: PhantomData,
        }
    }
}

// The counts reached at each size and their row.
impl<'a, K: Item, P: Plan> Iterator for Walk<'a, K, P> {
    type Item = (Span, Row);

    ghost next_gives = { YieldsFirst (left P.meaning K.GREATEST) };

    ghost remaining = { item_count (left P.meaning K.GREATEST) };

    fn next(&mut self) -> Option<(Span, Row)> {
        let reached = self.reached.take()?;
        // not by `?`, with which the pair goes through memory as one word: 16 % more instructions a step
        let Some(pair) = self.plan.pair(self.size) else {
            return None;
        };
        self.size += 1;
        self.reached = reached.next::<K>(pair);
        Some((reached, Row::over(reached, pair)))
    }
}
