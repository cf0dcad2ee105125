// Many sheets on standard input, and on standard output one line for each: the five lines of its answer joined by `;`.
//
// A frame is a line with the decimal number of bytes of its sheet, and then those bytes (`frames`). A sheet of any size is answered; of
// one that is too long the rest is passed over. A frame that is broken ends the run, with a last line that says which and why. A read
// or a write that fails ends it with its error.
#![tactic(auto)]

use frames::FrameError;
use std::io;
use std::io::Read;

// One byte more than a sheet may have is kept, so that a longer one is refused.
fn answer_frames<R: Read>(rt: &impl Print, input: &mut R) -> io::Result<()> {
    let mut sheet = [0u8; 65537];
    let mut rows = [0u32; 10000];
    let mut names = [0u32; 1500];
    for frame in 1..u64::MAX {
        match frames::next_frame(input, &mut sheet) {
            Ok(None) => return Ok(()),
            Ok(Some(size)) => {
                let answer = verdict::verdict(&sheet[..size], &mut rows, &mut names);
                rt.write_all(answers::text_of(answer, b';').as_bytes())?;
            }
            Err(FrameError::Read(error)) => return Err(error),
            Err(broken) => return println!(rt; "broken frame {frame}: {broken}"),
        }
    }
    Ok(())
}

fn main(rt: HostRuntime) -> io::Result<()> {
    answer_frames(&rt, &mut rt.stdin())
}
