// Runs document 01's edges of the level arithmetic, the quotas, sampling and the build, and prints what each call answers and leaves
// in its lists.
#![tactic(auto)]

mod build_edges;
mod level_edges;
mod quota_edges;
mod sample_edges;

use std::io;

fn main(rt: HostRuntime) -> io::Result<()> {
    let mut out = rt.stdout();
    level_edges::print_thresholds(&mut out)?;
    level_edges::print_sizes(&mut out)?;
    quota_edges::print_all(&mut out)?;
    sample_edges::print_samples(&mut out)?;
    sample_edges::print_refusals(&mut out)?;
    sample_edges::print_short(&mut out)?;
    build_edges::print_lengths(&mut out)?;
    build_edges::print_trees(&mut out)?;
    build_edges::print_nested(&mut out)?;
    build_edges::print_refusals(&mut out)?;
    build_edges::print_short(&mut out)
}
