// The room that suffices for every job: its stream, the lists of its tree, the working room and the lists of records of its build, and its
// printout.
#![tactic(auto)]

ghost use Rattle.std.specs.Prelude.{◌≡◌};
ghost use Rattle.tree_lists.specs.Lent.{arrays_held};
ghost use Rattle.job_room.specs.Room.{lent_lists, lent_floats, lent_wholes, lent_records};

use tree_lists::{Records, Room, TreeArrays};

// The bytes of a stream: its first 878 decide what is printed, kept and loaded (`front-printed` of stream_laws, `front_kept` and
// `front-reloaded` of reload_laws), so a longer one is read no further.
pub const STREAM: usize = 1024;

// The largest job: so many points on three axes, each of which takes so many rows, and its domain rows. `rows::most_domains` and
// `rows::most_borrowed` say the same of any number of points, but no constant calls a function.
const POINTS: usize = stream_reader::MOST_POINTS;

const TAKEN: usize = stream_reader::MOST_NEIGHBOURS as usize + 1;

const ROWS: usize = 6 * POINTS + 1;

// Its coordinates.
pub const COORDINATES: usize = 3 * POINTS;

// The lengths of the lists of its tree. The level points and the internals have as many entries.
const LEVEL_POINTS: usize = 4 * POINTS;

const DOMAINS: usize = packed::ROW_NUMBERS * ROWS;

const BOXES: usize = packed::MOST_ROW_FLOATS * ROWS;

const BORROWED: usize = 6 * POINTS * TAKEN;

// The working room of its build.
const FLOATS: usize = 32 * POINTS;

const WHOLES: usize = 40 * POINTS + 8 * POINTS * TAKEN;

// The nodes of its records.
const NODES: usize = 12 * POINTS;

// The bytes of its printout: none is longer (`printout-long` of stream_laws, `reloaded-long` of reload_laws).
pub const TEXT: usize = 139264;

// The lists of its tree.
pub type JobLists = TreeArrays<LEVEL_POINTS, DOMAINS, BOXES, BORROWED>;

// They hold zeros.
pub fn zero_lists() -> JobLists
    ensures { arrays_held result ≡ lent_lists }
{
    JobLists::filled(0, 0.0)
}

// The working room of its build.
#[derive(Drop)]
pub struct JobRoom {
    floats: [f64; FLOATS],
    wholes: [usize; WHOLES],
}

impl JobRoom {
    pub fn zeros() -> JobRoom
        ensures floats { result.floats ≡ lent_floats }
        ensures wholes { result.wholes ≡ lent_wholes }
    {
        JobRoom {
            floats: [0.0; FLOATS],
            wholes: [0; WHOLES],
        }
    }

    // Lends it as one value.
    pub fn lend(&mut self) -> Room<'_>
        ensures floats { result.floats.now ≡ self.old.floats }
        ensures wholes { result.wholes.now ≡ self.old.wholes }
    {
        let JobRoom { floats, wholes } = self;
        Room { floats, wholes }
    }
}

// The lists that take the records of its cuts.
#[derive(Drop)]
pub struct JobRecords {
    cuts: [usize; NODES],
    planes: [f64; NODES],
}

impl JobRecords {
    pub fn zeros() -> JobRecords
        ensures cuts { result.cuts ≡ lent_records.cuts }
        ensures planes { result.planes ≡ lent_records.planes }
    {
        JobRecords {
            cuts: [0; NODES],
            planes: [0.0; NODES],
        }
    }

    // Lends them as one value.
    pub fn lend(&mut self) -> Records<'_>
        ensures cuts { result.cuts.now ≡ self.old.cuts }
        ensures planes { result.planes.now ≡ self.old.planes }
    {
        let JobRecords { cuts, planes } = self;
        Records { cuts, planes }
    }
}
