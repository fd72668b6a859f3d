// Plays the log on standard input, and prints its replies.
#![tactic(auto)]

use plan::EdgeRow;
use std::io;
use std::io::Read;
use text::play;

// One byte more than a log may have, so that a longer log is seen to be too long.
const MOST_READ: u64 = 65_001;

// The most edges that a study has.
const MOST_EDGES: usize = 1024;

fn main(rt: HostRuntime) -> io::Result<()> {
    let heap = rt.alloc();
    let mut log = Vec::new(heap);
    rt.stdin().take(MOST_READ).read_to_end(&mut log)?;
    let mut rows = vec![in heap; EdgeRow::EMPTY; MOST_EDGES]?;
    let mut sheet = vec![in heap; 0; MOST_EDGES]?;
    let replies = play(heap, &log, &mut rows, &mut sheet)?;
    print!(rt; "{replies}")
}
