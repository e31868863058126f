// Rows that stand in bytes, four bytes each.
#![tactic(auto)]

ghost use Rattle.std.specs.Prelude.{◌+◌, ◌*◌, ◌≤◌, length};
ghost use Rattle.formats.specs.Bytes.{number_size, numbers_at};

use row_sets::Rows;

// So many rows from a place of the bytes on. Bytes, place and count are three values: the rows in bytes are no slice of rows, and the definition
// reads `numbers_at count at bytes`.
#[derive(Clone, Copy)]
pub struct FileRows<'a> {
    pub bytes: &'a [u8],
    pub at: usize,
    pub count: usize,
    pub ghost within: { at + number_size * count ≤ length bytes.now },
}

#[tactic(auto, using(crate::proofs::InBytes::length_rows, crate::proofs::InBytes::row_at))]
impl<'a> Rows for FileRows<'a> {
    ghost rows = { λ r. numbers_at r.count r.at r.bytes.now };

    fn count(&self) -> usize {
        self.count
    }

    fn row(&self, i: usize) -> usize {
        bytes_in::number_at(self.bytes, self.at + bytes_in::NUMBER * i)
    }
}
