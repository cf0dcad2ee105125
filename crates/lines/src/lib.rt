// The lines of a sheet, each from the place where it starts: what it holds, or its lowest refusal; whether a row's side number fits its
// kind (6) is asked after these, where the count of names is known.
#![tactic(auto)]

ghost use Rattle.std.specs.Prelude.{◌≡◌, ◌<◌, length};
ghost use Rattle.kinds.specs.Words.{kind_of};
ghost use Rattle.text.specs.Steps.{field_read};
ghost use Rattle.lines.specs.Lines.{number_line, jump_mark, name_of, name_line, row_fields, row_line};
ghost use Rattle.lines.specs.Steps.{parts_row, split_row};

use refusals::Refusal;
use text::Field;

// What a line holds, and where the next line starts.
#[derive(Clone, Copy)]
pub struct Line<T> {
    pub value: T,
    pub next: usize,
}

// What the name table holds of a name.
#[derive(Clone, Copy)]
pub struct Name {
    pub offset: usize,
    pub length: usize,
    pub mark: u32,
}

// What the row table holds of a row.
#[derive(Clone, Copy)]
pub struct Row {
    pub kind: u32,
    pub side: u32,
    pub lo: u32,
    pub hi: u32,
    pub end: u32,
}

// What a row's five fields say, where they say anything, and the place after them.
#[derive(Clone, Copy)]
struct Parts {
    kind: Option<u32>,
    side: Option<u32>,
    lo: Option<u32>,
    hi: Option<u32>,
    end: Option<u32>,
    next: usize,
}

// The line `key` with a number from low to high.
#[tactic(auto, using(crate::proofs::NumberLaws::line_line, crate::proofs::NumberLaws::number_key, crate::proofs::NumberLaws::number_end, crate::proofs::NumberLaws::number_large))]
pub fn number_line(
    s: &[u8],
    at: usize,
    key: &[u8],
    low: usize,
    high: usize,
) -> Result<Line<usize>, Refusal>
    requires { 0 < length key.now }
    ensures { result ≡ number_line key.now low high s.now at }
{
    let from = text::after_key(s, at, key).ok_or(Refusal::WrongLine)?;
    let read = text::number(s, from, b'\n', b'\n').ok_or(Refusal::WrongLine)?;
    let value = read.value.ok_or(Refusal::WrongNumber)? as usize;
    if !(low..=high).contains(&value) {
        return Err(Refusal::OutOfRange);
    }
    Ok(Line {
        value,
        next: read.next,
    })
}

// 1 for a name that begins as a loop jump's does. Few names begin with `$`, and no other costs a comparison of texts.
#[tactic(auto, using(crate::proofs::NameLaws::mark_none, crate::proofs::NameLaws::mark_break, crate::proofs::NameLaws::mark_other))]
fn jump_mark(name: &[u8]) -> u32
    ensures { result ≡ jump_mark name.now }
{
    match text::after_byte(name, 0, b'$') {
        Some(_) => u32::from(name.starts_with(b"$break$") || name.starts_with(b"$continue$")),
        None => 0,
    }
}

// A line's text of bytes from 33 to 126 as a name.
#[tactic(auto, using(crate::proofs::NumberLaws::ranged_test, crate::proofs::NameLaws::name_told))]
fn named(name: &[u8], before: &[u8], offset: usize, next: usize) -> Result<Line<Name>, Refusal>
    ensures { result ≡ name_of before.now name.now offset next }
{
    let length = name.len();
    if !(1..=64).contains(&length) || !text::is_below(before, name) {
        return Err(Refusal::WrongName);
    }
    Ok(Line {
        value: Name {
            offset,
            length,
            mark: jump_mark(name),
        },
        next,
    })
}

// The line `name=` with a name that is above the one before it.
#[tactic(auto, using(text::proofs::FieldLaws::line_from, text::proofs::FieldLaws::line_within, crate::proofs::NameLaws::name_key, crate::proofs::NameLaws::name_end, crate::proofs::NameLaws::name_bytes, crate::proofs::NameLaws::name_is))]
pub fn name_line(s: &[u8], at: usize, before: &[u8]) -> Result<Line<Name>, Refusal>
    ensures { result ≡ name_line before.now s.now at }
{
    let from = text::after_key(s, at, b"name=").ok_or(Refusal::WrongLine)?;
    let read = text::graphic_line(s, from);
    let next = read.next.ok_or(Refusal::WrongLine)?;
    if !read.all {
        return Err(Refusal::WrongName);
    }
    named(&s[from..read.stop], before, from, next)
}

// The field at a place, with the kind that it names.
fn kind_field(s: &[u8], at: usize) -> Option<Field>
    ensures { result ≡ field_read kind_of 32 32 s.now at }
{
    let read = words::find_kind_at(s, at);
    text::field_from(s, read.stop, b' ', b' ', read.kind)
}

// The five fields from a place on.
#[tactic(auto, using(crate::proofs::NumberLaws::space_space, crate::proofs::NumberLaws::space_line, crate::proofs::RowLaws::uneven_word, crate::proofs::RowLaws::uneven_side, crate::proofs::RowLaws::five))]
fn five_fields(s: &[u8], at: usize) -> Option<Parts>
    ensures { split_row result ≡ row_fields s.now at }
{
    let kind = kind_field(s, at)?;
    let side = text::number(s, kind.next, b' ', b' ')?;
    let lo = text::number(s, side.next, b' ', b' ')?;
    let hi = text::number(s, lo.next, b' ', b' ')?;
    let end = text::number(s, hi.next, b' ', b'\n')?;
    Some(Parts {
        kind: kind.value,
        side: side.value,
        lo: lo.value,
        hi: hi.value,
        end: end.value,
        next: end.next,
    })
}

// The row of five fields.
#[tactic(auto, unfolding(crate::specs::Lines::row_of, crate::specs::Steps::parts_row))]
fn row_of(parts: Parts) -> Result<Line<Row>, Refusal>
    ensures { result ≡ parts_row parts }
{
    let side = parts.side.ok_or(Refusal::WrongNumber)?;
    let lo = parts.lo.ok_or(Refusal::WrongNumber)?;
    let hi = parts.hi.ok_or(Refusal::WrongNumber)?;
    let end = parts.end.ok_or(Refusal::WrongNumber)?;
    let kind = parts.kind.ok_or(Refusal::UnknownKind)?;
    Ok(Line {
        value: Row {
            kind,
            side,
            lo,
            hi,
            end,
        },
        next: parts.next,
    })
}

// The line `row=` with a kind's word and four numbers. Whether the kind has the side number is left to the caller, who reads
// many rows and has the table of kinds laid down once.
#[tactic(auto, using(crate::proofs::RowLaws::row_key, crate::proofs::RowLaws::row_uneven, crate::proofs::RowLaws::row_five))]
pub fn row_line(s: &[u8], at: usize) -> Result<Line<Row>, Refusal>
    ensures { result ≡ row_line s.now at }
{
    let from = text::after_key(s, at, b"row=").ok_or(Refusal::WrongLine)?;
    row_of(five_fields(s, from).ok_or(Refusal::WrongLine)?)
}
