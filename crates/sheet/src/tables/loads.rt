// A table loaded from a sheet.
ghost use Rattle.sheet.specs.Loads.{Exact, Loaded, Redrawn, fault_in};

use super::Table;
use crate::faults::LoadFault;
use crate::loading::{read_rows, rows_checked};
use plan::items::Item;
use std::alloc::Global;

impl Table {
    // Reads a sheet for a kind of item, and says how many rows it has. A refused load leaves the table as it was.
    pub fn load<K: Item>(&mut self, heap: Global, bytes: &[u8]) -> Result<u32, LoadFault>
        ensures loaded { Loaded (fault_in K.GREATEST bytes.now) K.GREATEST bytes.now self.old self.new result }
        ensures exact { Exact K.GREATEST bytes.now }
        ensures redrawn { Redrawn K.GREATEST bytes.now self.new result }
    {
        let mut rows = read_rows(heap, rows_checked::<K>(bytes)?)?;
        let count = rows.len() as u32;
        if let Some(last) = rows.pop() {
            *self = Table {
                rows,
                closing: last.closing(),
            };
        }
        Ok(count)
    }
}
