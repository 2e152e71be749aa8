// The single plan: one size, one acceptance number.
ghost use Rattle.std.specs.Prelude.{◌≡◌};
ghost use Rattle.plan.specs.Makes.{single_meaning};
ghost use Rattle.std.proofs.Common.{rules};

use crate::numbers::SingleNumbers;
use crate::plans::Plan;

#[derive(Clone, Copy)]
pub struct Single {
    numbers: SingleNumbers,
}

impl Single {
    pub fn new(numbers: SingleNumbers) -> Single
        ensures { result.numbers ≡ numbers }
    {
        Single { numbers }
    }
}

impl Plan for Single {
    ghost meaning = { λ p. single_meaning p.numbers.last_size p.numbers.number };

    ghost lawful = { Prim.search rules };

    fn last_size(&self) -> u32 {
        self.numbers.last_size
    }

    fn pair(&self, size: u32) -> Option<(i32, i32)> {
        let SingleNumbers { last_size, number } = self.numbers;
        if !(1..=last_size).contains(&size) {
            return None;
        }
        let number = number as i32;
        let acceptance = if size < last_size { -1 } else { number };
        Some((acceptance, number + 1))
    }
}
