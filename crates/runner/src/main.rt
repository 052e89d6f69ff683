// Document 01's runner: reads a file from standard input (mode byte, fuel in 4 bytes, sheet length in 2, sheet, store length in 2, store), runs it,
// and prints `done` and units with a line per field, or `refused`, number, place and units. All that it prints is `report`'s.
#![tactic(auto)]

use input::read_full;
use report::report;
use std::io;
use std::io::Write;

fn main(rt: HostRuntime) -> io::Result<()> {
    // The longest file has 7 + 65,535 + 2 + 65,535 bytes. A longer one has bytes after its store whatever its lengths say, so one byte more is enough.
    let mut file = [0; 131080];
    let n = read_full(&mut rt.stdin(), &mut file)?;
    rt.stdout().write_all(report(&file[..n]).as_slice())
}
