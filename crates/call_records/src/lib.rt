// The records of stored calls: their fields one after the other, the settings and lists that they give, and lists and a tree's answer compared
// with what a record says of them.
#![tactic(auto)]

mod entries;
mod fields;
mod fronts;
mod trees;

pub use entries::Entry;
pub use fields::Fields;
pub use fronts::NINE;
pub use trees::{FLOATS, Lists, NODES, WHOLES, nines};

// The most coordinates in the stored calls of the loader and the writer, and the most entries of each list of their trees. Each call makes its
// lists where it lends them: as one value, handed out by a function, they would be written twice and copied.
pub const POINTS: usize = 15;

pub const ROWS: usize = 36;

pub const DOMAINS: usize = 275;

pub const BOXES: usize = 217;

pub const BORROWED: usize = 1560;
