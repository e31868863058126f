// The records of a stored tree, read where they stand in the caller's bytes: a domain's counts, and where its rows, its floats, its depth
// and the next record begin.
#![tactic(auto)]

ghost use Rattle.std.specs.Prelude.{◌≡◌, ◌≤◌, drop};
ghost use Rattle.bytes_in.specs.Marks.{mark_read};
ghost use Rattle.file_reader.specs.Fetch.{record_floats_lem, CountsRead, IsFetched};

use bytes_in::{COUNTS, FIRST_COUNT, MARK, SECOND_COUNT, marks};

// A position in the bytes of a stored tree.
#[derive(Clone, Copy)]
pub struct FileReader<'a> {
    pub bytes: &'a [u8],
    pub at: usize,
}

// A whole domain record: its counts, and where its parts and the next record begin.
#[derive(Clone, Copy)]
pub struct Fetched {
    pub own: usize,
    pub borrowed: usize,
    pub own_at: usize,
    pub borrowed_at: usize,
    pub bounds_at: usize,
    pub depth_at: usize,
    pub next: usize,
}

// How many floats a domain's record has: the bounds of its box, and its cover; the coarse domain has no box. The flag is the definition's own:
// `leaf_size dimensions coarse` takes it too.
pub fn record_floats(dimensions: usize, coarse: bool) -> usize
    requires { dimensions ≤ 3 }
    ensures { result ≡ record_floats_lem dimensions coarse }
{
    if coarse {
        packed::COVER
    } else {
        packed::row_floats(dimensions)
    }
}

impl FileReader<'_> {
    // The two counts that stand behind this mark at the reader's position: a level's rows and domains, or a domain's own and borrowed rows.
    pub fn counts(self, mark: [u8; MARK]) -> Option<(usize, usize)>
        ensures { CountsRead (mark_read mark) (drop self.entry.at self.entry.bytes.now) result }
    {
        let FileReader { bytes, at } = self;
        if bytes.len() < at || !bytes_in::record_at(bytes, at, COUNTS, mark) {
            return None;
        }
        let first = bytes_in::number_at(bytes, at + FIRST_COUNT);
        let second = bytes_in::number_at(bytes, at + SECOND_COUNT);
        Some((first, second))
    }

    // The domain record at the reader's position, where one stands there whole; its floats have `tail` bytes, and its depth ends it.
    pub fn domain(self, tail: usize) -> Option<Fetched>
        ensures { IsFetched (drop self.entry.at self.entry.bytes.now) self.entry.at tail result }
    {
        let FileReader { bytes, at } = self;
        let (own, borrowed) = self.counts(marks::DOMAIN)?;
        let place = COUNTS + bytes_in::NUMBER * (own + borrowed);
        let left = bytes.len() - at;
        if left < place + bytes_in::NUMBER || left - place - bytes_in::NUMBER < tail {
            return None;
        }
        Some(Fetched {
            own,
            borrowed,
            own_at: at + COUNTS,
            borrowed_at: at + COUNTS + bytes_in::NUMBER * own,
            bounds_at: at + place,
            depth_at: at + place + tail,
            next: at + place + tail + bytes_in::NUMBER,
        })
    }
}
