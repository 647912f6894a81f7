// A walk down a river of four cells: a fixed list of loads, flows, air exchanges and steps, refused ones among them.
// Prints each call with its number, then for each cell the totals that it holds and those of a book that is kept of
// the calls and their answers alone.
#![tactic(auto)]

mod book;
mod calls;
mod contents;
mod set;
mod walk;

use std::io;

fn main(rt: HostRuntime) -> io::Result<()> {
    calls::all(walk::Walk::start(&rt)?)?.write()
}
