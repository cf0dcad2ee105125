// What the programs that run cases share: their text taken apart, figures and digests, records and tables set.
#![tactic(auto)]

ghost use Rattle.std.specs.Prelude.{◌≡◌, ◌+◌, ◌%◌, ◌≤◌, ◌<◌, [], ◌∷◌, length, get_or, take, drop, set, position, eqb};
ghost use Rattle.case_text.specs.RowTexts.{record_text, kind_field, set_row, EndsKept};
ghost use Rattle.case_text.specs.Texts.{first_place, saturating_decimal, number_before, parts, set_numbers, figure_of, four_figures, hex_digit, hex_byte, digest_step, digest_of};

use sheet_record::Record;

fn place(text: &[u8], byte: u8) -> Option<usize>
    ensures { result ≡ position (λ b. eqb b byte) text.now }
{
    text.iter().position(|b| *b == byte)
}

// A text parted at the first such byte: what stands before it, which is all where there is none, and what stands after it.
pub fn split(text: &[u8], byte: u8) -> (&[u8], &[u8])
    ensures before { result.0.now ≡ take (first_place byte text.now) text.now }
    ensures after { result.1.now ≡ drop (first_place byte text.now + 1) text.now }
{
    match place(text, byte) {
        Some(i) => (&text[..i], &text[i + 1..]),
        None => (text, &text[text.len()..]),
    }
}

// The byte at a place, 0 past the end.
pub fn nth(text: &[u8], i: usize) -> u8
    ensures { result ≡ get_or text.now i 0 }
{
    text.get(i).copied().unwrap_or(0)
}

// The number that a text spells; the largest where it spells more, so that a record can hold that one too.
pub fn decimal(text: &[u8]) -> usize
    ensures { result ≡ saturating_decimal 0 text.now }
{
    let mut v: usize = 0;
    for b in text {
        if 1844674407370955160 < v {
            return usize::MAX;
        }
        v = v * 10 + usize::from(*b % 16);
    }
    v
}

fn figure(n: usize) -> u8
    ensures { result ≡ figure_of n }
{
    b'0' + (n % 10) as u8
}

// The last four figures of a number.
pub fn four_figures(n: usize) -> [u8; 4]
    ensures { result ≡ four_figures n }
{
    [figure(n / 1000), figure(n / 100), figure(n / 10), figure(n)]
}

#[tactic(auto, unfolding(crate::specs::Texts::hex_digit))]
fn hex_digit(b: u8) -> u8
    ensures upper_bound { result ≤ 15 }
    ensures value { result ≡ hex_digit b }
{
    if b < b'a' { b % 16 } else { (b - 87) % 16 }
}

pub fn hex_byte(high: u8, low: u8) -> u8
    ensures { result ≡ hex_byte high low }
{
    hex_digit(high) * 16 + hex_digit(low)
}

// Each number counts as one more than it is, so that zeros and their count tell.
fn digest_step(d: usize, x: u32) -> usize
    requires { d < 4294967296 }
    ensures upper_bound { result < 4294967296 }
    ensures value { result ≡ digest_step d x }
{
    (d * 31 + x as usize + 1) % 4294967296
}

pub fn digest(numbers: &[u32]) -> usize
    ensures { result ≡ digest_of 0 numbers.now }
{
    let mut d = 0;
    for x in numbers {
        d = digest_step(d, *x);
    }
    d
}

// The number that a text spells, as the tables hold it.
pub fn field(text: &[u8]) -> u32
    ensures { result ≡ saturating_decimal 0 text.now % 4294967296 }
{
    (decimal(text) % 4294967296) as u32
}

// The record of five numbers, parted by spaces.
#[tactic(auto, unfolding(crate::specs::RowTexts::record_text))]
pub fn read_record(text: &[u8]) -> Record
    ensures { result ≡ record_text text.now }
{
    let (names, text) = split(text, b' ');
    let (rows, text) = split(text, b' ');
    let (local, text) = split(text, b' ');
    let (start, sole) = split(text, b' ');
    Record {
        names: decimal(names),
        rows: decimal(rows),
        local: decimal(local),
        start: decimal(start),
        sole: decimal(sole),
    }
}

fn set_number(table: &mut [u32], i: usize, number: u32)
    ensures { table.new ≡ set table.old i number }
{
    if i < table.len() {
        table[i] = number;
    }
}

// Sets the numbers that a text gives, parted by spaces, those past the end of the table left out, and answers how many they are.
pub fn set_table(table: &mut [u32], text: &[u8]) -> usize
    ensures value { result ≡ length (parts 32 text.now) }
    ensures table_after { table.new ≡ set_numbers table.old 0 (parts 32 text.now) }
{
    let mut rest = text;
    let mut i = 0;
    while !rest.is_empty() {
        let (part, after) = split(rest, b' ');
        set_number(table, i, field(part));
        i += 1;
        rest = after;
    }
    i
}

// The kind of a row by its word or, where it is none, by its number.
pub fn read_kind(text: &[u8]) -> u32
    ensures { result ≡ kind_field text.now }
{
    words::find_kind(text).unwrap_or(field(text))
}

// Sets row i, if the table has it; lo and hi are free.
#[tactic(auto, unfolding(crate::specs::RowTexts::set_row))]
pub fn set_row(rows: &mut [u32], i: usize, kind: u32, side: u32, end: u32)
    ensures { rows.new ≡ set_row rows.old i kind side end }
{
    if i < rows.len() / 5 {
        rows[5 * i] = kind;
        rows[5 * i + 1] = side;
        rows[5 * i + 2] = u32::MAX;
        rows[5 * i + 3] = 0;
        rows[5 * i + 4] = end;
    }
}

// The same rows as blocks: a table of which the ends alone are left, since blocks may stand in blocks. By the numbers of rows, of which the
// promise on the ends speaks; with chunks_exact_mut `returns` stayed open.
pub fn as_blocks(rows: &mut [u32])
    ensures { EndsKept rows.old rows.new }
{
    for i in 0..rows.len() / 5 {
        rows[5 * i] = 20;
        rows[5 * i + 1] = 0;
    }
}
