// Edges of the quotas.
use printing::Numbers;
use quotas::Seated;
use std::io;
use std::io::Write;

// The quotas, with the output after the call, and the working room too where the call is refused.
fn print_quotas<W: Write>(
    to: &mut W,
    sizes: &[usize],
    wanted: usize,
    out: &mut [usize],
    wholes: &mut [usize],
) -> io::Result<()> {
    write!(to, "quotas{} for {wanted}:", Numbers(sizes))?;
    match quotas::get_domain_coarse_quotas(sizes, wanted, out, wholes) {
        Ok(Seated { leaves, seats }) => write!(to, " leaves {leaves} seats {seats}")?,
        Err(refusal) => {
            let number = refusal.number();
            write!(to, " refused {number} room{}", Numbers(wholes))?;
        }
    }
    writeln!(to, " output{}", Numbers(out))
}

// The quotas of two leaves, with an output and a working room of two entries.
fn print_pair<W: Write>(to: &mut W, first: usize, second: usize, wanted: usize) -> io::Result<()> {
    print_quotas(to, &[first, second], wanted, &mut [77, 78], &mut [87, 88])
}

// Four leaves; the output has one entry more.
fn print_four<W: Write>(to: &mut W, sizes: &[usize; 4], wanted: usize) -> io::Result<()> {
    print_quotas(to, sizes, wanted, &mut [77; 5], &mut [88; 4])
}

// Lists that are too short: the output, the working room, and the output where the sizes sum too high.
fn print_short<W: Write>(to: &mut W) -> io::Result<()> {
    let mut one = [77];
    let mut two = [87, 88];
    print_quotas(to, &[2, 2], 3, &mut one, &mut two)?;
    print_quotas(to, &[2, 2], 3, &mut two, &mut one)?;
    print_quotas(to, &[1_048_576, 1], 3, &mut one, &mut two)
}

// Quotas, and each refusal of them.
pub fn print_all<W: Write>(to: &mut W) -> io::Result<()> {
    print_four(to, &[5, 3, 0, 2], 4)?;
    print_pair(to, 2, 2, 3)?;
    print_four(to, &[1, 1, 1, 1], 2)?;
    print_pair(to, 2, 2, 9)?;
    print_pair(to, 0, 0, 3)?;
    // no leaves at all
    print_quotas(to, &[], 3, &mut [77], &mut [88])?;
    print_pair(to, 1_048_576, 1, 3)?;
    print_pair(to, usize::MAX, usize::MAX, 3)?;
    print_short(to)
}
