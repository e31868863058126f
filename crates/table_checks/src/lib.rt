// A table of wells as one value, and what a pass over its flags says: its live slots, its lowest retired one, and whether its head fits them.
#![tactic(auto)]

ghost use Rattle.std.specs.Prelude.{◌≡◌, true, false, not, ◌≤◌, length, MatchOption};
ghost use Rattle.lists.specs.Lists.{keep, least, from};
ghost use Rattle.definition.specs.Table.{capacity, flagged, next_slot, unsound, coordinates_short};
ghost use Rattle.table_checks.specs.Tables.{head_in, table_in};

use points::Points;
use rows::MOST_POINTS;

// The table's head: its slot count and its live count.
#[repr(C)]
#[derive(Clone, Copy)]
pub struct Head {
    pub slots: usize,
    pub live: usize,
}

// A table of wells as it is read: its head, a flag for each slot, and the slots' coordinates with the number of axes. It is passed by value:
// a contract reads it by specs/Tables.antt, as `table_in table` in a `requires` and as `table_in table.entry` in an `ensures`. That the slot
// count is within the flags is no invariant: a caller's table may be unsound, and `sound` tells. A flag is a byte, 0 for a retired slot and any
// other for a live one: C lends the list.
#[derive(Clone, Copy)]
pub struct Table<'a> {
    pub head: Head,
    pub flags: &'a [u8],
    pub points: Points<'a>,
}

// The wells of a table as they are lent to be changed. The head stands apart: a call that is refused leaves it, and who keeps it differs. A
// function that takes the wells by `&mut` promises that they still hold the caller's lists (`SameWells`).
#[derive(Drop)]
pub struct Wells<'a> {
    pub flags: &'a mut [u8],
    pub coordinates: &'a mut [f64],
    pub dimensions: usize,
}

// How many of the slots below the slot count are live, and the lowest that is not. Where all are, that is the slot count and no None: it is the
// slot that an add takes next, as the definition has it (`next_slot`).
#[derive(Clone, Copy)]
pub struct Found {
    pub live: usize,
    pub next: usize,
}

impl<'a> Table<'a> {
    // How many slots it has room for: as many as there are flags, held to the most points that a build takes.
    pub fn capacity(self) -> usize
        ensures { result ≡ capacity self.entry.flags.now }
    {
        MOST_POINTS.min(self.flags.len())
    }

    // Whether the coordinates are short of the capacity. That the axes are three at most is asked by it: a table may have any number, and its
    // callers refuse others before.
    pub fn is_short(self) -> bool
        requires { self.points.dimensions ≤ 3 }
        ensures { result ≡ coordinates_short self.entry.points.dimensions (table_in self.entry) }
    {
        self.points.coordinates.len() < self.capacity() * self.points.dimensions
    }

    // The pass over the flags below the slot count. One pass tells both: `filter(..).count()` and `position(..)` would go over the flags twice.
    pub fn survey(self) -> Found
        requires { self.head.slots ≤ length self.flags.now }
        ensures live { result.live ≡ length (keep (flagged self.entry.flags.now) (from 0 self.entry.head.slots)) }
        ensures next { result.next ≡ least (λ i. not (flagged self.entry.flags.now i)) self.entry.head.slots }
    {
        let mut live = 0;
        let mut next = self.head.slots;
        for (i, &flag) in self.flags[..self.head.slots].iter().enumerate() {
            if flag != 0 {
                live += 1;
            } else if i < next {
                next = i;
            }
        }
        Found { live, next }
    }

    // The test of 27: the slot count against the capacity, the live count against the flags. The slot that an add takes, where 27 does not
    // refuse the table.
    pub fn sound(self) -> Option<usize>
        ensures { MatchOption result (unsound (head_in self.entry.head) self.entry.flags.now ≡ true) (λ next. (unsound (head_in self.entry.head) self.entry.flags.now ≡ false) × (next ≡ next_slot (head_in self.entry.head) self.entry.flags.now)) }
    {
        if self.capacity() < self.head.slots {
            return None;
        }
        let found = self.survey();
        if self.head.live != found.live {
            return None;
        }
        Some(found.next)
    }
}

impl<'a> Wells<'a> {
    // The table under this head, to be read.
    pub fn table(&self, head: Head) -> Table<'_>
        ensures head { result.head ≡ head }
        ensures flags { result.flags.now ≡ self.now.flags.now }
        ensures coordinates { result.points.coordinates.now ≡ self.now.coordinates.now }
        ensures dimensions { result.points.dimensions ≡ self.now.dimensions }
    {
        Table {
            head,
            flags: self.flags,
            points: Points {
                coordinates: self.coordinates,
                dimensions: self.dimensions,
            },
        }
    }
}
