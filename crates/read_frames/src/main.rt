// Converts a table of probe frames, each given by the bits of its readings, and writes a line for each: the number,
// then the amounts of NH4, NO2, NO3, HPO4 and O2 in grains, a hyphen for an amount of O2 that is missing.
#![tactic(auto)]

mod table;
mod write;

use std::io;

fn main(rt: HostRuntime) -> io::Result<()> {
    table::masses(&rt)?;
    table::percentages(&rt)?;
    table::any_frames(&rt)?;
    table::edges(&rt)?;
    table::refused_frames(&rt)
}
