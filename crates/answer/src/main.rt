// One sheet on standard input; on standard output its answer, five lines. One byte more than a sheet may have is read, so that a longer
// input is refused and not cut. A read or a write that fails ends the run with its error.
#![tactic(auto)]

use std::io;

fn main(rt: HostRuntime) -> io::Result<()> {
    let mut sheet = [0u8; 65537];
    let mut rows = [0u32; 10000];
    let mut names = [0u32; 1500];
    let size = frames::read_full(&mut rt.stdin(), &mut sheet)?;
    let answer = verdict::verdict(&sheet[..size], &mut rows, &mut names);
    rt.write_all(answers::text_of(answer, b'\n').as_bytes())
}
