// A work store: a cell for each field. It is filled from a store, and written out as one. It has room for 64, and how many count is beside it: no heap.
ghost use Rattle.std.specs.Prelude.{◌≡◌, ℕ, ◌≤◌, ◌<◌, length, get_or, replicate};
ghost use Rattle.store.specs.Marks.{mark_of};
ghost use Rattle.store.specs.Stores.{store_length, store_over};
ghost use Rattle.marks.specs.Inside.Words.{blank, work_of};
ghost use Rattle.flow.specs.Inside.Tasks.{Fetched};

use marks::Cell;
use store::{mark_at, put_field, value_at};

/// Fills a work store with the fields of a store.
pub fn fetch(store: &[u8], work: &mut [Cell; 64], fields: usize)
    requires { (fields ≤ 64) × (length store.now ≡ store_length fields) × (work.old ≡ replicate 64 blank) }
    ensures { Fetched store.now work.new }
{
    for (field, held) in work[..fields].iter_mut().enumerate() {
        *held = Cell {
            value: value_at(store, field),
            mark: mark_at(store, field),
        };
    }
}

/// Writes so many fields of a work store to the front of `out`, as a store.
pub fn deliver(work: &[Cell; 64], out: &mut [u8], fields: usize)
    requires { (fields ≤ 64) × (store_length fields ≤ length out.old) × ((i : ℕ) → i < fields → (get_or work.now i blank).mark < 256) }
    ensures { out.new ≡ store_over (work_of mark_of work.now) fields out.old }
{
    out[0] = (fields % 256) as u8;
    out[1] = 0;
    for (field, held) in work[..fields].iter().enumerate() {
        put_field(out, field, held.mark, held.value);
    }
}
