// Edges of the build: the lengths to lend, and what each call answers, with the front of each list of whole numbers that it was lent but
// for the working room. The lists hold nines before the call.
use config::{DDMParams, SizePolicy};
use points::Points;
use printing::Numbers;
use refusal::{Refusal, Report};
use std::io;
use std::io::Write;
use tree_answer::DDMTree;
use tree_lists::{Records, Room, TreeLists};

// The lengths that a build over n points is to be lent.
fn print_lent<W: Write>(
    to: &mut W,
    n: usize,
    dimensions: usize,
    neighbours: u32,
) -> io::Result<()> {
    let Report { number, value, .. } = Report::of(build_sizes::build_sizes(
        n, dimensions, neighbours,
    ));
    write!(to, "lent {n} {dimensions} {neighbours}: refused {number}")?;
    writeln!(to, " lengths{}", Numbers(&value.lengths()))
}

// Lengths, and each refusal of them.
pub fn print_lengths<W: Write>(to: &mut W) -> io::Result<()> {
    for (n, dimensions, neighbours) in [
        (1, 1, 0),
        (8, 2, 1),
        (1_048_576, 3, 64),
        (0, 4, 65),
        (0, 3, 65),
        (0, 3, 64),
        (1_048_577, 3, 64),
    ] {
        print_lent(to, n, dimensions, neighbours)?;
    }
    Ok(())
}

// The answer of a build.
fn print_answer<W: Write>(to: &mut W, answer: Result<DDMTree, Refusal>) -> io::Result<()> {
    let Report {
        number,
        place,
        value,
    } = Report::of(answer);
    let DDMTree {
        levels,
        rows,
        domains,
    } = value;
    writeln!(to, "refused {number} at {place} levels {levels}")?;
    writeln!(to, "  rows{}", Numbers(&rows))?;
    writeln!(to, "  domains{}", Numbers(&domains))
}

// The fronts of its lists.
fn print_lists<W: Write>(to: &mut W, lists: &TreeLists<'_>) -> io::Result<()> {
    writeln!(
        to,
        "  level points{}",
        Numbers::front(lists.level_points, 20)
    )?;
    writeln!(to, "  internals{}", Numbers::front(lists.internals, 20))?;
    writeln!(to, "  domain rows{}", Numbers::front(lists.domains, 80))?;
    writeln!(to, "  borrowed{}", Numbers::front(lists.borrowed, 24))
}

// A build with these whole numbers of room and these lists of records, in the five lists of the stored calls, which hold nines.
fn show_lent<W: Write>(
    to: &mut W,
    points: Points<'_>,
    params: DDMParams,
    wholes: &mut [usize],
    mut records: Records<'_>,
) -> io::Result<()> {
    let mut lists = call_records::nines();
    let mut lists = lists.lend();
    let mut room = Room {
        floats: &mut [9.0; call_records::FLOATS],
        wholes,
    };
    let answer = ddm::build(points, params, &mut lists, &mut room, &mut records);
    print_answer(to, answer)?;
    print_lists(to, &lists)?;
    writeln!(to, "  cuts{}", Numbers::front(records.cuts, 60))
}

// The same with the room and the records of the stored calls: all suffices for 16 points with 3 neighbours.
fn show<W: Write>(to: &mut W, points: Points<'_>, params: DDMParams) -> io::Result<()> {
    let records = Records {
        cuts: &mut [9; call_records::NODES],
        planes: &mut [9.0; call_records::NODES],
    };
    show_lent(to, points, params, &mut [9; call_records::WHOLES], records)
}

// Settings: the leaf threshold, the neighbours, the factor, and the coarse threshold.
fn settings(leaf: u32, neighbours: u32, factor: u32, c: u32) -> DDMParams {
    DDMParams {
        leaf_threshold: leaf,
        overlap_knn: neighbours,
        coarse_reduction_factor: factor,
        coarse_threshold: SizePolicy::Fixed(c),
    }
}

// Points on a line.
fn line(coordinates: &[f64]) -> Points<'_> {
    Points {
        coordinates,
        dimensions: 1,
    }
}

// Trees, and a build that would need a fourth reduction.
pub fn print_trees<W: Write>(to: &mut W) -> io::Result<()> {
    let eight = [0.0, 1.0, 2.0, 3.0, 4.0, 5.0, 6.0, 7.0];
    let nine = [0.0, 1.0, 2.0, 3.0, 4.0, 5.0, 6.0, 7.0, 8.0];
    let square = Points {
        coordinates: &[2.0, 0.0, 0.0, 2.0, 1.0, 1.0, -0.0, 0.0],
        dimensions: 2,
    };
    show(to, line(&eight), settings(2, 1, 2, 1))?;
    show(to, line(&[0.0, 1.0, 3.0]), settings(1, 1, 2, 1))?;
    show(to, line(&[0.0, 1.0, 3.0]), settings(1, 1, 2, 3))?;
    show(to, line(&nine), settings(2, 1, 2, 1))?;
    show(to, square, settings(1, 2, 4, 1))
}

// Rows at one place: with one neighbour, without neighbours, and by squares that underflow.
pub fn print_nested<W: Write>(to: &mut W) -> io::Result<()> {
    show(to, line(&[5.0; 3]), settings(1, 1, 2, 1))?;
    show(to, line(&[5.0; 2]), settings(1, 0, 2, 1))?;
    show(to, line(&[0.0, 1e-170, 2e-170]), settings(1, 1, 2, 1))
}

// No points, a coordinate that is not finite, a point too many for the lists, and every setting out of range.
pub fn print_refusals<W: Write>(to: &mut W) -> io::Result<()> {
    let endless = [0.0, 1.0 / 0.0, 1.0 / 0.0];
    let four_axes = Points {
        coordinates: &endless,
        dimensions: 4,
    };
    show(to, line(&[]), settings(1, 1, 2, 1))?;
    show(to, line(&endless), settings(1, 1, 2, 1))?;
    show(to, line(&[0.0; 17]), settings(1, 1, 2, 17))?;
    show(to, four_axes, settings(0, 65, 1, 0))
}

// Three points on a line with one neighbour, with this room and these lists.
fn show_three<W: Write>(
    to: &mut W,
    wholes: &mut [usize],
    cuts: &mut [usize],
    planes: &mut [f64],
) -> io::Result<()> {
    let records = Records { cuts, planes };
    show_lent(
        to,
        line(&[0.0, 1.0, 3.0]),
        settings(1, 1, 2, 1),
        wholes,
        records,
    )
}

// Room and records that suffice exactly; either list of the records, and the whole numbers, one entry short; and as many whole numbers as
// sufficed before request 9 of document 02.
pub fn print_short<W: Write>(to: &mut W) -> io::Result<()> {
    show_three(to, &mut [9; 168], &mut [9; 36], &mut [9.0; 36])?;
    show_three(to, &mut [9; 168], &mut [9; 35], &mut [9.0; 36])?;
    show_three(to, &mut [9; 168], &mut [9; 36], &mut [9.0; 35])?;
    show_three(to, &mut [9; 167], &mut [9; 36], &mut [9.0; 36])?;
    show_three(to, &mut [9; 144], &mut [9; 36], &mut [9.0; 36])
}
