// The worked example of README.md: a river of two cells. What a probe reads and some organisms are loaded into the
// first cell; then an hour passes in steps of ten minutes, each with a flow and with air. Prints the number of each
// call, what each cell holds by names in g/m³, the letter of each cell, and the record.
#![tactic(auto)]

mod constants;
mod day;
mod levels;

use std::io;

fn main(rt: HostRuntime) -> io::Result<()> {
    day::Day::start(&rt)?.loaded()?.hour()?.write()
}
