// Sets of rows, each row standing at its place in their order.
ghost use Rattle.std.specs.Prelude.{true, [], ◌∷◌, ◌++◌, ◌≡◌, ◌≤◌, length};
ghost use Rattle.rules.specs.Lists.{Pairwise};
ghost use Rattle.rules.specs.Products.{insert_row};
ghost use Rattle.rules.specs.Rows.{RisesTo};
ghost use Rattle.joins.specs.Rising.{rising_prop};

use arrayvec::{ArrayVec, CapacityError};
use rules::{Limits, Row};

// At most 512 rows, which rise strictly.
#[derive(Drop)]
pub(crate) struct RowSet {
    rows: ArrayVec<Row, { Limits::ROWS }>,
    ghost rising: { Pairwise RisesTo rows.items } by { rising_prop rows.items },
}

impl RowSet {
    ghost use Rattle.joins.specs.Inserts.{Inserts};

    // No row.
    pub(crate) fn new() -> Self
        ensures { result.rows.items ≡ [] }
    {
        RowSet {
            rows: ArrayVec::new(),
        }
    }

    // The rows, rising.
    pub(crate) fn as_slice(&self) -> &[Row]
        ensures few { length result.now ≤ 512 }
        ensures rows { result.now ≡ self.now.rows.items }
    {
        self.rows.as_slice()
    }

    // Whether a row stands above all that are here. The rows of a product come nearly in their order, so that most do.
    fn rises_to(&self, row: Row) -> bool
        ensures { result ≡ true → insert_row row self.now.rows.items ≡ self.now.rows.items ++ row ∷ [] }
    {
        match self.rows.last() {
            Some(last) => last.rises_to(row),
            None => true,
        }
    }

    // Puts a row into its place, where it does not stand there yet. One that has no room is handed back.
    pub(crate) fn insert(&mut self, row: Row) -> Result<(), CapacityError<Row>>
        ensures { Inserts self.old self.new result (row ∷ []) }
    {
        if self.rises_to(row) {
            return self.rows.try_push(row);
        }
        match self.rows.binary_search(&row) {
            Ok(_) => Ok(()),
            Err(at) => self.rows.try_insert(at, row),
        }
    }
}
