// A table that the caller lends, and how many records it has. It fills from its front, so that its records stand in the
// order in which they were put, and what stood behind them stays.
ghost use Rattle.std.specs.Prelude.{◌≡◌, ◌≤◌, length, take};
ghost use Rattle.record_entry.specs.Puts.{PutDoes};

use super::EntryFault;

#[derive(Drop)]
pub struct Shelf<'a, T> {
    pub table: &'a mut [T],
    pub count: usize,
}

impl<'a, T> Shelf<'a, T> {
    // A table without records.
    pub fn over(table: &'a mut [T]) -> Shelf<'a, T>
        ensures lent { result.table.ghost_name ≡ table.entry.ghost_name }
        ensures holds { result.table.now ≡ table.old }
        ensures empty { result.count ≡ 0 }
    {
        Shelf { table, count: 0 }
    }

    // Its records: as many from the front as are counted.
    pub fn records(&self) -> &[T]
        ensures { result.now ≡ take self.now.count self.now.table.now }
    {
        self.table.get(..self.count).unwrap_or(self.table)
    }

    // Takes its records away. The table keeps what it holds.
    pub fn clear(&mut self)
        ensures empty { self.new.count ≡ 0 }
        ensures holds { self.new.table.now ≡ self.old.table.now }
        ensures lent { self.new.table.ghost_name ≡ self.old.table.ghost_name }
    {
        self.count = 0;
    }
}

impl<T: Copy> Shelf<'_, T> {
    // Puts a record behind the others, if there is space.
    pub fn put(&mut self, item: T) -> Result<(), EntryFault>
        ensures does { PutDoes item self.old.table.now self.old.count result self.new.table.now self.new.count }
        ensures lent { self.new.table.ghost_name ≡ self.old.table.ghost_name }
    {
        if self.count >= self.table.len() {
            return Err(EntryFault::House);
        }
        // By index: after a loan of the table, as by `get_mut`, a proof no longer knows what it holds.
        self.table[self.count] = item;
        self.count += 1;
        Ok(())
    }
}
