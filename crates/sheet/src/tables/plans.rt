// A table as a plan.
ghost use Rattle.std.specs.Prelude.{◌≡◌, [], negsuc};
ghost use Rattle.sheet.specs.Tables.{pair_of, table_meaning};
ghost use Rattle.std.proofs.Common.{rules};

use super::Table;
use crate::rows::Row;
use plan::plans::Plan;
use std::alloc::Global;

impl Table {
    // One size, at which every count is rejected.
    pub fn new(heap: Global) -> Table
        ensures rows { result.rows.items ≡ [] }
        ensures closing { result.closing ≡ negsuc 0 }
    {
        Table {
            rows: Vec::new(heap),
            closing: -1,
        }
    }
}

impl Row {
    // The pair of a row that is not the last: a missing number stands for -1 or 254.
    fn pair(self) -> (i32, i32)
        ensures { result ≡ pair_of self }
    {
        (
            self.acceptance.map_or(-1, i32::from),
            self.rejection.map_or(254, i32::from),
        )
    }
}

impl Plan for Table {
    ghost meaning = { λ t. table_meaning t.rows.items t.closing };

    ghost lawful = { Prim.search rules };

    fn last_size(&self) -> u32 {
        self.rows.len() as u32 + 1
    }

    fn pair(&self, size: u32) -> Option<(i32, i32)> {
        let last_size = self.last_size();
        if !(1..=last_size).contains(&size) {
            return None;
        }
        if size == last_size {
            return Some((self.closing, self.closing + 1));
        }
        Some(self.rows[size as usize - 1].pair())
    }
}
