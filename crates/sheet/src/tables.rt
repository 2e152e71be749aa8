// The table plan: a plan that is read from a sheet.
ghost use Rattle.std.specs.Prelude.{◌≡◌, ◌+◌, ◌≤◌, pos, negsuc, ◌≤ℤ◌, vec_len};
ghost use Rattle.plan.specs.Limits.{max_acceptance, max_size};
ghost use Rattle.sheet.specs.Soundness.{AllSound};

use crate::rows::Row;

mod loads;
mod plans;

// The rows but the last, and the acceptance number at the last size.
#[derive(Debug, PartialEq, Eq, Drop)]
pub struct Table {
    rows: Vec<Row>,
    closing: i32,
    ghost few: { vec_len rows + 1 ≤ max_size },
    ghost sound: { AllSound rows.items },
    ghost floor: { negsuc 0 ≤ℤ closing },
    ghost roof: { closing ≤ℤ pos max_acceptance },
}
