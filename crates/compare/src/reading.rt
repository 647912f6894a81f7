// Standard input, read in blocks, each byte once.
use crate::line::Line;
use crate::scene::Scene;
use crate::tally::Tally;
use std::io::Result;
use streams::read_full;

const BLOCK: usize = 65536;

// The most blocks that are read; what stands after them is not.
const BLOCKS: u32 = 1000;

// A last line with no line feed makes no call.
pub(crate) fn tally_of(rt: &impl Input) -> Result<Tally> {
    let mut scene = Scene::new();
    let mut line = Line::default();
    let mut buffer = [0; BLOCK];
    for _ in 0..BLOCKS {
        let n = read_full(&mut rt.reader(), &mut buffer)?;
        for byte in &buffer[..n] {
            if *byte == b'\n' {
                scene.take(&line);
                line = Line::default();
            } else {
                line.take(*byte);
            }
        }
    }
    Ok(scene.tally)
}
