// Samples, and each refusal of a sampling. (Refusal 8 needs a list longer than a program's stack holds.)
use points::Points;
use printing::Numbers;
use sampling::Sampled;
use std::io;
use std::io::Write;
use tree_lists::Room;

// One call, with the output after it, and the working room too where the call is refused.
fn print_sample<W: Write>(
    to: &mut W,
    points: Points<'_>,
    wanted: usize,
    seed: usize,
    out: &mut [usize],
    room: &mut Room<'_>,
) -> io::Result<()> {
    write!(to, "sample {wanted} from {seed}:")?;
    match sampling::farthest_point_sampling(points, wanted, seed, out, room) {
        Ok(Sampled { rows, cover }) => {
            // not-a-number has one pattern here, which `to_bits` takes none of
            let bits = bytes_out::bits_of(cover);
            write!(to, " rows {rows} cover {bits:016x}")?;
        }
        Err(refusal) => {
            let number = refusal.number();
            let place = refusal.place();
            write!(
                to,
                " refused {number} at {place} room{}",
                Numbers(room.wholes)
            )?;
        }
    }
    writeln!(to, " output{}", Numbers(out))
}

// A call over up to four rows, with an output of four entries and enough working room.
fn print_rows<W: Write>(
    to: &mut W,
    coordinates: &[f64],
    dimensions: usize,
    wanted: usize,
    seed: usize,
) -> io::Result<()> {
    let points = Points {
        coordinates,
        dimensions,
    };
    let mut floats = [0.5; 8];
    let mut wholes = [88; 4];
    let mut room = Room {
        floats: &mut floats,
        wholes: &mut wholes,
    };
    print_sample(to, points, wanted, seed, &mut [77; 4], &mut room)
}

// Samples: on a line, of equal rows, of a square's corners, and by two squares that share one root. The last ones tell covers: to
// the last chosen row, of equal rows, a distance and not its square, and an overflow.
pub fn print_samples<W: Write>(to: &mut W) -> io::Result<()> {
    print_rows(to, &[0.0, 1.0, 3.0, 7.0], 1, 3, 1)?;
    print_rows(to, &[0.0, 1.0, 3.0, 7.0], 1, 1, 3)?;
    print_rows(to, &[0.0, 1.0, 3.0, 7.0], 1, 4, 0)?;
    print_rows(to, &[5.0, 5.0, 5.0], 1, 3, 2)?;
    print_rows(to, &[0.0, 0.0, 1.0, 0.0, 0.0, 1.0, 1.0, 1.0], 2, 4, 0)?;
    print_rows(to, &[0.0, 0.0, 0.0, 1.0, 2.0, 2.0, 3.0, 0.0, 0.0], 3, 3, 1)?;
    print_rows(
        to,
        &[0.0, 0.0, 1.0, 0.0, 1.0, 1.490116119384765625e-8],
        2,
        2,
        0,
    )?;
    print_rows(to, &[1.0e200, -1.0e200, 0.0, 1.0e-200], 1, 4, 2)?;
    print_rows(to, &[0.0, 6.0, 7.0], 1, 2, 0)?;
    print_rows(to, &[5.0, 5.0, 5.0], 1, 1, 2)?;
    print_rows(to, &[0.0, 0.0, 3.0, 4.0], 2, 1, 0)?;
    print_rows(to, &[1.0e200, -1.0e200], 1, 1, 0)
}

// Each refusal, and some calls that meet the conditions of two.
pub fn print_refusals<W: Write>(to: &mut W) -> io::Result<()> {
    let line = [0.0, 1.0, 3.0, 7.0];
    print_rows(to, &line, 0, 3, 1)?;
    print_rows(to, &line, 4, 3, 1)?;
    print_rows(to, &line[..0], 1, 3, 1)?;
    print_rows(to, &line[..0], 5, 3, 1)?;
    print_rows(to, &line, 3, 1, 0)?;
    print_rows(to, &line, 3, 0, 9)?;
    print_rows(to, &line, 1, 0, 1)?;
    print_rows(to, &line, 1, 5, 1)?;
    print_rows(to, &line, 1, 3, 4)?;
    print_rows(to, &[0.0, 1.0, 1.0 / 0.0, 0.0 / 0.0], 1, 3, 1)?;
    print_rows(to, &[0.0, 1.0, 2.0, 0.0 / 0.0], 2, 1, 1)?;
    print_rows(to, &[-1.0 / 0.0, 1.0, 2.0, 3.0], 2, 3, 1)
}

// Three of four rows on a line, with an output and a working room of these lengths.
fn print_lent<W: Write>(
    to: &mut W,
    line: &[f64; 4],
    out: &mut [usize],
    floats: &mut [f64],
    wholes: &mut [usize],
) -> io::Result<()> {
    let points = Points {
        coordinates: line,
        dimensions: 1,
    };
    let mut room = Room { floats, wholes };
    print_sample(to, points, 3, 1, out, &mut room)
}

// Lists that are too short: the output where three rows are wanted, and a float, and a whole number, too few for four rows.
pub fn print_short<W: Write>(to: &mut W) -> io::Result<()> {
    let line = [0.0, 1.0, 3.0, 7.0];
    let endless = [0.0, 1.0, 3.0, 1.0 / 0.0];
    print_lent(to, &line, &mut [77; 2], &mut [0.5; 8], &mut [88; 4])?;
    print_lent(to, &line, &mut [77; 3], &mut [0.5; 7], &mut [88; 4])?;
    print_lent(to, &line, &mut [77; 3], &mut [0.5; 8], &mut [88; 3])?;
    print_lent(to, &endless, &mut [77; 3], &mut [0.5; 8], &mut [88; 3])
}
