// The check on tables: one line out for each line of standard input, `title|count|numbers|names|kind side end;kind side end;..`,
// for a table of so many numbers with these rows first and zeros after them. Three columns tell what the check answers, as document
// 01's number and the row, or 0:
// - fields: of the table as it is, where that is 22, 5 or 6, which come first;
// - ends: of the same rows as blocks, which may stand in blocks and have no side number, so that only ends and depth are left;
// - children: of the same rows without side numbers, a kind above 65 being `default`, so that the fields pass.
// Rows `*nested` or `*flat` stand for so many blocks as the count says, each in the one before it or all in the first. A line without
// `|` is a word: its kind number, 66 where it is none. A read or a write that fails ends the run with its error.
#![tactic(auto)]

use refusals::{Refusal, Refused};
use std::io;

const NUMBERS: usize = 10005;

fn answer(rt: &impl Print, title: &str, checked: Result<(), Refused>) -> io::Result<()> {
    match checked {
        Ok(()) => print!(rt; "{title} 0"),
        Err(refused) => {
            print!(rt;
                "{title} {} at {}",
                refusals::number_of(refused.refusal),
                refused.place
            )
        }
    }
}

// A refusal of the record or of a row's fields.
fn of_fields(checked: Result<(), Refused>) -> Result<(), Refused> {
    match checked {
        Err(
            Refused {
                refusal: Refusal::WrongRecord | Refusal::UnknownKind | Refusal::WrongSide,
                ..
            },
        ) => checked,
        _ => Ok(()),
    }
}

// The same rows, each with the side number 0 and, if its kind is none, the kind `default`.
fn without_fields(rows: &mut [u32]) {
    for row in rows.chunks_exact_mut(5) {
        if 65 < row[0] {
            row[0] = 9;
        }
        row[1] = 0;
    }
}

fn report(
    rt: &impl Print,
    title: &[u8],
    space: [u32; NUMBERS],
    numbers: usize,
    count: usize,
    names: usize,
) -> io::Result<()> {
    if NUMBERS < numbers {
        return Ok(());
    }
    let mut blocks = space;
    case_text::as_blocks(&mut blocks);
    let mut kinds = space;
    without_fields(&mut kinds);
    rt.write_all(title)?;
    answer(
        rt,
        ": fields",
        of_fields(checks::check(&space[..numbers], count, names)),
    )?;
    answer(rt, ", ends", checks::check(&blocks[..numbers], count, 1))?;
    answer(rt, ", children", checks::check(&kinds[..numbers], count, 1))?;
    rt.write_all(b"\n")
}

fn row_of(rows: &mut [u32], i: usize, text: &[u8]) {
    let (kind, text) = case_text::split(text, b' ');
    let (side, end) = case_text::split(text, b' ');
    case_text::set_row(
        rows,
        i,
        case_text::read_kind(kind),
        case_text::field(side),
        case_text::field(end),
    );
}

// Sets the rows that a text gives.
fn fill(rows: &mut [u32], text: &[u8]) {
    for (i, part) in text.split_inclusive(|b| *b == b';').enumerate() {
        row_of(rows, i, case_text::split(part, b';').0);
    }
}

// So many blocks: each in the one before it, or all in the first.
fn blocks(rows: &mut [u32], count: u32, nested: bool) {
    for i in 0..count {
        let end = if nested { count } else { i + 1 };
        case_text::set_row(rows, i as usize, 20, 0, end);
    }
    case_text::set_row(rows, 0, 20, 0, count);
}

fn rows_of(rows: &mut [u32], count: u32, text: &[u8]) {
    if text.contains(&b'*') {
        blocks(rows, count, text.contains(&b'n'));
    } else {
        fill(rows, text);
    }
}

fn one_case(rt: &impl Print, title: &[u8], text: &[u8]) -> io::Result<()> {
    let mut space = [0; NUMBERS];
    let (count_text, text) = case_text::split(text, b'|');
    let (numbers, text) = case_text::split(text, b'|');
    let (names, rows) = case_text::split(text, b'|');
    let count = case_text::field(count_text);
    rows_of(&mut space, count, rows);
    report(
        rt,
        title,
        space,
        case_text::field(numbers) as usize,
        count as usize,
        case_text::field(names) as usize,
    )
}

fn line(rt: &impl Print, text: &[u8]) -> io::Result<()> {
    if text.contains(&b'|') {
        let (title, text) = case_text::split(text, b'|');
        return one_case(rt, title, text);
    }
    rt.write_all(text)?;
    println!(rt; " {}", words::find_kind(text).unwrap_or(66))
}

fn main(rt: HostRuntime) -> io::Result<()> {
    let mut space = [0u8; 65536];
    let n = frames::read_full(&mut rt.stdin(), &mut space)?;
    for part in space[..n].split_inclusive(|b| *b == b'\n') {
        line(&rt, case_text::split(part, b'\n').0)?;
    }
    Ok(())
}
