// Edges of the level arithmetic.
use config::SizePolicy;
use std::io;
use std::io::Write;

// The coarse threshold under Auto.
fn print_auto<W: Write>(to: &mut W, n: usize) -> io::Result<()> {
    let threshold = level_sizes::resolved_coarse_threshold(SizePolicy::Auto, n);
    writeln!(to, "auto {n}: {threshold}")
}

// The number of reductions of n points.
fn print_reductions<W: Write>(to: &mut W, n: u32, c: u32, f: u32) -> io::Result<()> {
    if rows::MOST_POINTS < n as usize {
        return Ok(());
    }
    let reductions = level_sizes::get_num_level_reductions(n as usize, c, f);
    writeln!(to, "reductions {n} {c} {f}: {reductions}")
}

// The size of the next level, asked alone.
fn print_size<W: Write>(to: &mut W, a: usize, c: u32, r: u32) -> io::Result<()> {
    write!(to, "size {a} {c} {r}: ")?;
    match level_sizes::get_num_level_coarse_points(a, c, r) {
        Ok(m) => writeln!(to, "{m}"),
        Err(refusal) => {
            let number = refusal.number();
            writeln!(to, "refused {number}")
        }
    }
}

// Coarse thresholds and numbers of reductions.
pub fn print_thresholds<W: Write>(to: &mut W) -> io::Result<()> {
    for n in [
        1,
        16_384,
        16_385,
        131_072,
        131_073,
        18_446_744_073_709_551_615,
    ] {
        print_auto(to, n)?;
    }
    for (n, c, f) in [
        (8, 1, 2),
        (3, 1, 2),
        (9, 1, 2),
        (512, 512, 2),
        (1_048_576, 1, 4_294_967_295),
        (1_048_576, 4_294_967_295, 4_294_967_295),
    ] {
        print_reductions(to, n, c, f)?;
    }
    Ok(())
}

// Sizes, and each refusal of one.
pub fn print_sizes<W: Write>(to: &mut W) -> io::Result<()> {
    for (a, c, r) in [
        (8, 1, 3),
        (4, 1, 2),
        (2, 1, 1),
        (3, 1, 2),
        (3, 2, 2),
        (10, 3, 2),
        (1_048_576, 1_048_575, 3),
        (10, 0, 2),
        (1_048_577, 3, 2),
        (3, 3, 2),
        (10, 3, 0),
        (10, 3, 4),
        (1_048_577, 0, 0),
        (1_048_577, 4_294_967_295, 0),
        (3, 3, 0),
    ] {
        print_size(to, a, c, r)?;
    }
    Ok(())
}
