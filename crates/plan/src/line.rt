// The line plan: acceptance and rejection numbers on two parallel sloping lines, cut off at a size.
ghost use Rattle.std.specs.Prelude.{◌≡◌, ◌+◌, ◌^◌, ◌<◌, min, pos, negsuc, ◌-ℤ◌};
ghost use Rattle.std.specs.Int.{int_min, int_max};
ghost use Rattle.plan.specs.Makes.{line_meaning, rounded_down, rounded_up};
ghost use Rattle.std.proofs.Common.{rules};

use crate::numbers::LineNumbers;
use crate::plans::Plan;

const MILLION: u64 = 1_000_000;

// The slope's part less the intercept, in millionths, rounded down: -1 where that is negative, and at most the cut number.
fn acceptance(rise: u64, intercept: u32, number: u32) -> i32
    requires { (rise < 2 ^ 62) × (number < 2 ^ 31) }
    ensures { result ≡ int_min (int_max (rounded_down (pos rise -ℤ pos intercept)) (negsuc 0)) (pos number) }
{
    let difference = rise as i64 - i64::from(intercept);
    let whole = difference.div_euclid(MILLION as i64);
    whole.max(-1).min(i64::from(number)) as i32
}

// The slope's part and the intercept, in millionths, rounded up, and at most the cut number plus one.
fn rejection(rise: u64, intercept: u32, number: u32) -> i32
    requires { (rise < 2 ^ 62) × (number < 2 ^ 30) }
    ensures { result ≡ pos (min (rounded_up (rise + intercept)) (number + 1)) }
{
    let sum = rise + u64::from(intercept);
    sum.div_ceil(MILLION).min(u64::from(number) + 1) as i32
}

#[derive(Clone, Copy)]
pub struct Line {
    numbers: LineNumbers,
}

impl Line {
    pub fn new(numbers: LineNumbers) -> Line
        ensures { result.numbers ≡ numbers }
    {
        Line { numbers }
    }
}

impl Plan for Line {
    ghost meaning = { λ p. line_meaning p.numbers.accept_intercept p.numbers.reject_intercept p.numbers.slope p.numbers.cut_size p.numbers.cut_number };

    ghost lawful = { Prim.search rules };

    fn last_size(&self) -> u32 {
        self.numbers.cut_size
    }

    fn pair(&self, size: u32) -> Option<(i32, i32)> {
        let n = self.numbers;
        if !(1..=n.cut_size).contains(&size) {
            return None;
        }
        if size == n.cut_size {
            let number = n.cut_number as i32;
            return Some((number, number + 1));
        }
        let rise = u64::from(n.slope) * u64::from(size);
        Some((
            acceptance(rise, n.accept_intercept, n.cut_number),
            rejection(rise, n.reject_intercept, n.cut_number),
        ))
    }
}
