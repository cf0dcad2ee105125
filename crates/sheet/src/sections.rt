// The two parts of a sheet that have a line for each name and each row, read into the tables as far as these have room: a
// table that is too short is refused after the last line, and a line before it.
ghost use Rattle.std.specs.Prelude.{◌≡◌, ◌+◌, ◌≤◌, length};
ghost use Rattle.sheet.specs.Sections.{names_from, rows_from};
ghost use Rattle.sheet.specs.Header.{first_row};
ghost use Rattle.sheet.specs.Steps.{section_of, Filled, put_whole, Short};

use super::at_line;
use super::header::{FACT_LINES, FIRST_NAME};
use refusals::{Refusal, Refused};

// Puts a line's numbers into a table from a place on, if it has room for them.
fn put(table: &mut [u32], at: usize, numbers: &[u32])
    requires { (at ≤ 10000) × (length numbers.now ≤ 5) }
    ensures { table.new ≡ put_whole table.old at numbers.now }
{
    let end = at + numbers.len();
    if end <= table.len() {
        table[at..end].copy_from_slice(numbers);
    }
}

// The name lines from a place on: where the line after them starts.
// One loop for names, rows and the header's numbers would need a trait of steps, longer than the three: each goes by something else.
pub fn names_from(s: &[u8], from: usize, count: usize, names: &mut [u32]) -> Result<usize, Refused>
    requires short { Short s.now }
    requires count_bound { count ≤ 500 }
    ensures value { result ≡ section_of (names_from count s.now from) }
    ensures filled { Filled 3 count (names_from count s.now from) names.new }
{
    let mut at = from;
    let mut before: &[u8] = &[];
    for i in 0..count {
        let line = at_line(FIRST_NAME + i, lines::name_line(s, at, before))?;
        let name = line.value;
        put(
            names,
            3 * i,
            &[name.offset as u32, name.length as u32, name.mark],
        );
        before = &s[name.offset..name.offset + name.length];
        at = line.next;
    }
    Ok(at)
}

// The line on which row 0 stands, after so many names.
pub fn first_row(names: usize) -> usize
    requires { names ≤ 500 }
    ensures { result ≡ first_row names }
{
    FIRST_NAME + names + FACT_LINES
}

// The row lines from a place on, after so many names: where the line after them starts.
pub fn rows_from(
    s: &[u8],
    from: usize,
    count: usize,
    names: usize,
    rows: &mut [u32],
) -> Result<usize, Refused>
    requires { (count ≤ 2000) × (names ≤ 500) }
    ensures value { result ≡ section_of (rows_from names count s.now from) }
    ensures filled { Filled 5 count (rows_from names count s.now from) rows.new }
{
    let entries = kinds::kinds();
    let first = first_row(names);
    let mut at = from;
    for i in 0..count {
        let line = at_line(first + i, lines::row_line(s, at))?;
        let row = line.value;
        if !kinds::side_fits(entries[row.kind as usize], row.side as usize, names) {
            return Err(Refused {
                refusal: Refusal::WrongSide,
                place: first + i,
            });
        }
        put(rows, 5 * i, &[row.kind, row.side, row.lo, row.hi, row.end]);
        at = line.next;
    }
    Ok(at)
}
