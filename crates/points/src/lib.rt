// The points of a build, as one value: their coordinates and the number of axes; and their coordinates on one axis.
#![tactic(auto)]

ghost use Rattle.std.specs.Prelude.{◌≡◌, ◌+◌, ◌*◌, ◌<◌, ◌≤◌, length};
ghost use Rattle.lists.specs.Lists.{part};
ghost use Rattle.definition.specs.Points.{coordinate};
ghost use Rattle.definition.specs.Tree.{point_count};
ghost use Rattle.points.specs.Columns.{HasRow, value_of};

// The points as they are lent: the coordinates of the first one, then those of the second, and so on, `dimensions` of them for each. They are
// passed by value: a contract reads `points.coordinates.now` in a `requires`, and `points.entry.coordinates.now` in an `ensures`.
// That there are one to three axes, and that a row stands inside, is asked by the functions that need it: the public calls take any points and
// refuse, so that this type can't promise it. A second type for points that were tested would be made where a call's tests have passed, and
// unmade wherever a function takes any.
#[derive(Clone, Copy)]
pub struct Points<'a> {
    pub coordinates: &'a [f64],
    pub dimensions: usize,
}

// The coordinates of the points on one axis. They are passed by value, as the points are. A contract reads them by specs/Columns.antt:
// `value_of column i` in a `requires`, and `value_of column.entry i` in an `ensures`. That the axis is below the number of axes is no invariant:
// it would ask more of those who take any column, as the sort does.
#[derive(Clone, Copy)]
pub struct Column<'a> {
    pub points: Points<'a>,
    pub axis: usize,
}

impl<'a> Points<'a> {
    // How many points there are.
    pub fn count(self) -> usize
        requires { 1 ≤ self.dimensions }
        ensures { result ≡ point_count self.entry.dimensions self.entry.coordinates.now }
    {
        self.coordinates.len() / self.dimensions
    }

    // The coordinates of a row.
    pub fn point(self, row: usize) -> &'a [f64]
        requires { row * self.dimensions + self.dimensions ≤ length self.coordinates.now }
        ensures coordinates { result.now ≡ part self.entry.coordinates.now (row * self.entry.dimensions) self.entry.dimensions }
        ensures number { length result.now ≡ self.entry.dimensions }
    {
        let start = row * self.dimensions;
        &self.coordinates[start..start + self.dimensions]
    }

    // The coordinate of a row on one axis.
    pub fn coordinate(self, row: usize, axis: usize) -> f64
        requires { row * self.dimensions + axis < length self.coordinates.now }
        ensures { result ≡ coordinate self.entry.dimensions self.entry.coordinates.now row axis }
    {
        self.coordinates[row * self.dimensions + axis]
    }

    // The coordinates on one axis.
    pub fn column(self, axis: usize) -> Column<'a>
        ensures { result ≡ record { points = self.entry; axis = axis } }
    {
        Column { points: self, axis }
    }
}

impl<'a> Column<'a> {
    // The coordinate of a row.
    pub fn at(self, row: usize) -> f64
        requires { HasRow self row }
        ensures { result ≡ value_of self.entry row }
    {
        self.points.coordinate(row, self.axis)
    }
}
