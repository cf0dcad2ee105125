// Loading and naming: one line out for each line of standard input.
//
// A load case is `title|R|N|sheet`: the sheet is loaded into a row table of R numbers and a name table of N numbers, all of them 7
// before. Out come the record, or document 01's number of the refusal and its line; then a digest of each table, whole, so that
// zeros left undone show; and after a good load the first three names, the last and the number after it, as `number=text`, or
// as `number!refusal` with the text that is handed out all the same.
//
// A name case begins with `@`: `@title|names rows local start sole|name table|number|sheet`. Out come offset, length and text of
// that name, or the refusal and the text.
//
// In a sheet, and in a name table, `;` stands for byte 10, `\hh` for a byte by its two hexadecimal digits, and `[n:text]` for the
// text n times. In a text so repeated `#` is the number of the repetition from 0, in four digits, and `^` that number plus 2, which
// is the end of a childless row under row 0; elsewhere that number is 0. A read or a write that fails ends the run with its error.
#![tactic(auto)]

ghost use Rattle.std.specs.Prelude.{◌≤◌, ◌-◌, length};

use arrayvec::ArrayVec;
use itoa::Buffer;
use sheet_record::Record;
use std::io;

type Sheet = ArrayVec<u8, 65540>;

// A byte past the end is dropped.
fn put(out: &mut Sheet, text: &[u8]) {
    for byte in text {
        let _ = out.try_push(*byte);
    }
}

fn put_plain(out: &mut Sheet, n: usize) {
    let mut text = Buffer::new();
    put(out, text.format(n).as_bytes());
}

fn put_byte(out: &mut Sheet, byte: u8, turn: usize) {
    match byte {
        b';' => put(out, b"\n"),
        b'#' => put(out, &case_text::four_figures(turn)),
        b'^' => put_plain(out, turn % 10000 + 2),
        _ => put(out, &[byte]),
    }
}

// Puts what the sign at a text's start stands for, and answers the text after it.
fn put_sign<'a, 'b>(out: &'b mut Sheet, text: &'a [u8], turn: usize) -> &'a [u8]
    ensures { length result.now ≤ length text.now - 1 }
{
    match text {
        [] => text,
        [b'\\', digits @ ..] => {
            put(
                out,
                &[case_text::hex_byte(case_text::nth(digits, 0), case_text::nth(digits, 1))],
            );
            &digits[digits.len().min(2)..]
        }
        [byte, rest @ ..] => {
            put_byte(out, *byte, turn);
            rest
        }
    }
}

fn put_signs(out: &mut Sheet, text: &[u8], turn: usize) {
    let mut rest = text;
    while !rest.is_empty() {
        rest = put_sign(out, rest, turn);
    }
}

// Puts what `n:text` stands for.
fn put_repeated(out: &mut Sheet, text: &[u8]) {
    let (count, part) = case_text::split(text, b':');
    for turn in 0..case_text::decimal(count) {
        put_signs(out, part, turn);
    }
}

// Puts what a text begins with, a sign or a repeated text, and answers the text after it.
fn put_first<'a, 'b>(out: &'b mut Sheet, text: &'a [u8]) -> &'a [u8]
    ensures { length result.now ≤ length text.now - 1 }
{
    let [b'[', repeated @ ..] = text else {
        return put_sign(out, text, 0);
    };
    let (part, rest) = case_text::split(repeated, b']');
    put_repeated(out, part);
    rest
}

// Puts what a text stands for.
fn put_all(out: &mut Sheet, text: &[u8]) {
    let mut rest = text;
    while !rest.is_empty() {
        rest = put_first(out, rest);
    }
}

fn say_record(rt: &impl Print, record: Record) -> io::Result<()> {
    print!(rt;
        ": done names={} rows={} local={} start={} sole={}",
        record.names, record.rows, record.local, record.start, record.sole
    )
}

fn say_tables(rt: &impl Print, rows: &[u32], names: &[u32]) -> io::Result<()> {
    print!(rt;
        " tables {} {}",
        case_text::digest(rows),
        case_text::digest(names)
    )
}

fn say_name(
    rt: &impl Print,
    bytes: &[u8],
    record: Record,
    names: &[u32],
    i: usize,
) -> io::Result<()> {
    match names::name_place(bytes, record, names, i) {
        Ok(_) => print!(rt; " {i}=")?,
        Err(refusal) => print!(rt; " {i}!{}", refusals::number_of(refusal))?,
    }
    rt.write_all(names::name(bytes, record, names, i))
}

// The first three names, the last and the number after it.
fn say_names(rt: &impl Print, bytes: &[u8], record: Record, names: &[u32]) -> io::Result<()> {
    rt.write_all(b" names")?;
    for i in 0..501 {
        if i <= record.names && (i < 3 || record.names - i <= 1) {
            say_name(rt, bytes, record, names, i)?;
        }
    }
    Ok(())
}

fn load_into(rt: &impl Print, bytes: &[u8], rows: &mut [u32], names: &mut [u32]) -> io::Result<()> {
    match load::load(bytes, rows, names) {
        Ok(record) => {
            say_record(rt, record)?;
            say_tables(rt, rows, names)?;
            say_names(rt, bytes, record, names)
        }
        Err(refused) => {
            print!(rt;
                ": refused {} at {}",
                refusals::number_of(refused.refusal),
                refused.place
            )?;
            say_tables(rt, rows, names)
        }
    }
}

fn load_case(rt: &impl Print, text: &[u8]) -> io::Result<()> {
    let mut rows = [7u32; 10010];
    let mut names = [7u32; 1510];
    let (row_numbers, text) = case_text::split(text, b'|');
    let (name_numbers, text) = case_text::split(text, b'|');
    let row_count = case_text::decimal(row_numbers).min(rows.len());
    let name_count = case_text::decimal(name_numbers).min(names.len());
    let mut sheet = Sheet::new();
    put_all(&mut sheet, text);
    load_into(
        rt,
        sheet.as_slice(),
        &mut rows[..row_count],
        &mut names[..name_count],
    )
}

fn name_of(
    rt: &impl Print,
    bytes: &[u8],
    record: Record,
    names: &[u32],
    i: usize,
) -> io::Result<()> {
    match names::name_place(bytes, record, names, i) {
        Ok(span) => print!(rt; ": at {} {} ", span.offset, span.size)?,
        Err(refusal) => print!(rt; ": refused {} ", refusals::number_of(refusal))?,
    }
    rt.write_all(names::name(bytes, record, names, i))
}

fn name_case(rt: &impl Print, text: &[u8]) -> io::Result<()> {
    let mut names = [0u32; 1510];
    let (record, text) = case_text::split(text, b'|');
    let (numbers, text) = case_text::split(text, b'|');
    let (asked, text) = case_text::split(text, b'|');
    let mut table = Sheet::new();
    put_all(&mut table, numbers);
    let count = case_text::set_table(&mut names, table.as_slice()).min(names.len());
    let mut sheet = Sheet::new();
    put_all(&mut sheet, text);
    name_of(
        rt,
        sheet.as_slice(),
        case_text::read_record(record),
        &names[..count],
        case_text::decimal(asked),
    )
}

fn one_case(rt: &impl Print, text: &[u8]) -> io::Result<()> {
    let (title, case) = case_text::split(text, b'|');
    rt.write_all(title)?;
    if text.starts_with(b"@") {
        name_case(rt, case)?;
    } else {
        load_case(rt, case)?;
    }
    rt.write_all(b"\n")
}

fn main(rt: HostRuntime) -> io::Result<()> {
    let mut space = [0u8; 65536];
    let n = frames::read_full(&mut rt.stdin(), &mut space)?;
    for part in space[..n].split_inclusive(|b| *b == b'\n') {
        one_case(&rt, case_text::split(part, b'\n').0)?;
    }
    Ok(())
}
