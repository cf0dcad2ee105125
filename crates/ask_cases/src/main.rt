// Asking on records and tables that loading did not leave: one line out for each frame of standard input (`frames`).
//
// A frame is `title|names rows local start sole|R|numbers|N|numbers`: a record, a row table of R numbers and a name table of N, with
// these numbers first and zeros after them. Out come the title and the answer's five lines, joined by `;`. A read or a write that fails
// ends the run with its error.
#![tactic(auto)]

use frames::FrameError;
use std::io;
use std::io::Read;

// Asks with the first numbers of two tables, as many as they have of them.
fn one_case(rt: &impl Print, text: &[u8]) -> io::Result<()> {
    let mut rows = [0u32; 10005];
    let mut names = [0u32; 1505];
    let (title, text) = case_text::split(text, b'|');
    let (record, text) = case_text::split(text, b'|');
    let (row_numbers, text) = case_text::split(text, b'|');
    let (row_text, text) = case_text::split(text, b'|');
    let (name_numbers, name_text) = case_text::split(text, b'|');
    case_text::set_table(&mut rows, row_text);
    case_text::set_table(&mut names, name_text);
    let answer = ask::ask(
        case_text::read_record(record),
        &rows[..case_text::decimal(row_numbers).min(rows.len())],
        &names[..case_text::decimal(name_numbers).min(names.len())],
    );
    rt.write_all(title)?;
    rt.write_all(b": ")?;
    rt.write_all(answers::text_of(answer, b';').as_bytes())
}

fn cases<R: Read>(rt: &impl Print, input: &mut R) -> io::Result<()> {
    let mut space = [0u8; 131072];
    for _ in 0..u64::MAX {
        match frames::next_frame(input, &mut space) {
            Ok(None) => return Ok(()),
            Ok(Some(size)) => one_case(rt, &space[..size])?,
            Err(FrameError::Read(error)) => return Err(error),
            Err(FrameError::NoSize | FrameError::Short) => return rt.write_all(b"broken frame\n"),
        }
    }
    Ok(())
}

fn main(rt: HostRuntime) -> io::Result<()> {
    cases(&rt, &mut rt.stdin())
}
