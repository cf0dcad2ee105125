// A sheet as loading answers it: the answer, and the lines read into two lent tables.
#![tactic(auto)]

ghost use Rattle.std.specs.Prelude.{◌≡◌, ◌≤◌};
ghost use Rattle.sheet.specs.Load.{refusal_of, place_of, record_of, before_rows, line_of, lines_of};
ghost use Rattle.sheet.specs.Steps.{at_line, Short, before_of, answer_of, NamesFilled, BothFilled};

use lines::Line;
use refusals::{Refusal, Refused};
use sheet_record::Record;

mod header; // header.rt: the lines that hold one number each
mod sections; // sections.rt: the lines of names and of rows

// The record, or a refusal with its line.
pub type Loaded = Result<Record, Refused>;

// Document 01's number of an answer's refusal, 0 where it has none.
pub fn refusal_of(loaded: Loaded) -> usize
    ensures { result ≡ refusal_of loaded }
{
    match loaded {
        Ok(_) => 0,
        Err(refused) => refusals::number_of(refused.refusal),
    }
}

// The place of an answer's refusal, 0 where it has none.
pub fn place_of(loaded: Loaded) -> usize
    ensures { result ≡ place_of loaded }
{
    match loaded {
        Ok(_) => 0,
        Err(refused) => refused.place,
    }
}

// The record of an answer, zeros where it is refused.
pub fn record_of(loaded: Loaded) -> Record
    ensures { result ≡ record_of loaded }
{
    loaded.unwrap_or_default()
}

// What is read on a line, or the line's refusal with its number.
fn at_line<T>(line: usize, read: Result<T, Refusal>) -> Result<T, Refused>
    ensures { result ≡ at_line line read }
{
    read.map_err(|refusal| Refused {
        refusal,
        place: line,
    })
}

// The lines before the rows.
fn read_names(s: &[u8], names: &mut [u32]) -> Result<Line<Record>, Refused>
    requires { Short s.now }
    ensures value { result ≡ before_of (before_rows s.now) }
    ensures filled { NamesFilled s.now names.new }
{
    let head = header::head_of(s)?;
    let next = sections::names_from(s, head.next, head.value, names)?;
    header::facts_from(s, next, head.value)
}

// The line on which a row stands.
pub fn line_of(record: Record, row: usize) -> usize
    requires { («record».names ≤ 500) × (row ≤ 2000) }
    ensures { result ≡ line_of «record» row }
{
    sections::first_row(record.names) + row
}

// All lines: refusals 1 to 6.
pub fn read_lines(s: &[u8], rows: &mut [u32], names: &mut [u32]) -> Loaded
    requires { Short s.now }
    ensures value { result ≡ answer_of (lines_of s.now) }
    ensures filled { BothFilled s.now rows.new names.new }
{
    let facts = read_names(s, names)?;
    let record = facts.value;
    let end = sections::rows_from(s, facts.next, record.rows, record.names, rows)?;
    if end < s.len() {
        return Err(Refused {
            refusal: Refusal::WrongLine,
            place: line_of(record, record.rows),
        });
    }
    Ok(record)
}
