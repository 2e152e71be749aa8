// A cut over any plan: the plan below, ended at a size at the latest.
ghost use Rattle.std.specs.Prelude.{◌≡◌, ◌+◌, ◌≤◌, pos};
ghost use Rattle.std.specs.Int.{int_min};
ghost use Rattle.plan.specs.Makes.{cut_meaning};
ghost use Rattle.std.proofs.Common.{rules};

use crate::numbers::CutNumbers;
use crate::plans::Plan;
use std::cmp::Ordering;

#[derive(Clone, Copy, Drop)]
pub struct Cut<P> {
    numbers: CutNumbers,
    below: P,
}

impl<P: Plan> Cut<P> {
    pub fn new(below: P, numbers: CutNumbers) -> Cut<P>
        ensures { (result.below ≡ below) × (result.numbers ≡ numbers) }
    {
        Cut { numbers, below }
    }
}

// A pair held to a number: neither the acceptance number nor the rejection number passes the closing pair's.
fn held(pair: (i32, i32), number: u32) -> (i32, i32)
    requires { number ≤ 253 }
    ensures { result ≡ (int_min pair.0 (pos number), int_min pair.1 (pos (number + 1))) }
{
    let (acceptance, rejection) = pair;
    (
        acceptance.min(number as i32),
        rejection.min(number as i32 + 1),
    )
}

impl<P: Plan> Plan for Cut<P> {
    ghost meaning = { λ p. cut_meaning p.numbers.size p.numbers.number (P.meaning p.below) };

    ghost lawful = { Prim.search rules };

    fn last_size(&self) -> u32 {
        self.numbers.size.min(self.below.last_size())
    }

    fn pair(&self, size: u32) -> Option<(i32, i32)> {
        let pair = self.below.pair(size)?;
        let CutNumbers {
            size: cut_size,
            number,
        } = self.numbers;
        match size.cmp(&cut_size) {
            Ordering::Less => Some(held(pair, number)),
            Ordering::Equal => Some((number as i32, number as i32 + 1)),
            Ordering::Greater => None,
        }
    }
}
