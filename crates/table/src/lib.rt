// Rows of a lent table, five numbers a row: kind, side, lo, hi, end. The readers ask that the row is in the table. Whoever walks a tree has
// from the types that its ends nest: `Siblings` and `Node` are parts of such a table.
#![tactic(auto)]

ghost use Rattle.std.specs.Prelude.{◌≡◌, ◌+◌, ◌*◌, ◌≤◌, ◌<◌, length, leb, IfSome, IfNone};
ghost use Rattle.table.specs.Rows.{kind_at, side_at, lo_at, hi_at, end_at, Nested};
ghost use Rattle.table.specs.Steps.{RowEnd, NextRow, RowAlone};

// The five numbers of a row. Each is one index, so one function with a const parameter below them would be no shorter.
pub fn kind_at(rows: &[u32], i: usize) -> usize
    requires { 5 * i + 4 < length rows.now }
    ensures { result ≡ kind_at rows.now i }
{
    rows[5 * i] as usize
}

pub fn side_at(rows: &[u32], i: usize) -> usize
    requires { 5 * i + 4 < length rows.now }
    ensures { result ≡ side_at rows.now i }
{
    rows[5 * i + 1] as usize
}

pub fn lo_at(rows: &[u32], i: usize) -> u32
    requires { 5 * i + 4 < length rows.now }
    ensures { result ≡ lo_at rows.now i }
{
    rows[5 * i + 2]
}

pub fn hi_at(rows: &[u32], i: usize) -> u32
    requires { 5 * i + 4 < length rows.now }
    ensures { result ≡ hi_at rows.now i }
{
    rows[5 * i + 3]
}

pub fn end_at(rows: &[u32], i: usize) -> usize
    requires { 5 * i + 4 < length rows.now }
    ensures { result ≡ end_at rows.now i }
{
    rows[5 * i + 4] as usize
}

// The end of row i, the first of the rows i up to `to`.
fn row_end(rows: &[u32], i: usize, to: usize) -> usize
    requires { (Nested rows.now i to) × (i < to) }
    ensures { RowEnd rows.now i to result }
{
    end_at(rows, i)
}

// The sibling after the first of the rows i up to `to`; `to` where there is none.
fn next_at(rows: &[u32], i: usize, to: usize) -> usize
    requires { Nested rows.now i to }
    ensures { NextRow rows.now i to result }
{
    if i < to { end_at(rows, i) } else { to }
}

// The rows from `from` up to `to` of a table: siblings, with what they hold.
#[derive(Clone, Copy)]
pub struct Siblings<'a> {
    pub table: &'a [u32],
    pub from: usize,
    pub to: usize,
    pub ghost nested: { Nested table.now from to },
}

// Row `at` of a table, with what it holds: the rows up to `end`.
#[derive(Clone, Copy)]
pub struct Node<'a> {
    pub table: &'a [u32],
    pub at: usize,
    pub end: usize,
    pub ghost alone: { RowAlone table.now at end },
}

impl<'a> Siblings<'a> {
    ghost use Rattle.table.specs.Siblings.{First, Rest, Head};

    pub fn is_empty(self) -> bool
        ensures { result ≡ leb self.entry.to self.entry.from }
    {
        self.to <= self.from
    }

    // The first of them, if there is one.
    pub fn first(self) -> Option<Node<'a>>
        ensures some { IfSome result (λ row. First self.entry row) }
        ensures none { IfNone result (self.entry.to ≤ self.entry.from) }
    {
        if self.is_empty() {
            return None;
        }
        Some(Node {
            table: self.table,
            at: self.from,
            end: row_end(self.table, self.from, self.to),
        })
    }

    // The first of them alone, or none.
    pub fn head(self) -> Siblings<'a>
        ensures { Head self.entry result }
    {
        Siblings {
            table: self.table,
            from: self.from,
            to: next_at(self.table, self.from, self.to),
        }
    }

    // Those after the first.
    pub fn rest(self) -> Siblings<'a>
        ensures { Rest self.entry result }
    {
        Siblings {
            table: self.table,
            from: next_at(self.table, self.from, self.to),
            to: self.to,
        }
    }
}

impl<'a> Node<'a> {
    ghost use Rattle.table.specs.Siblings.{Children, Alone};

    pub fn kind(self) -> usize
        ensures { result ≡ kind_at self.entry.table.now self.entry.at }
    {
        kind_at(self.table, self.at)
    }

    pub fn side(self) -> usize
        ensures { result ≡ side_at self.entry.table.now self.entry.at }
    {
        side_at(self.table, self.at)
    }

    pub fn lo(self) -> u32
        ensures { result ≡ lo_at self.entry.table.now self.entry.at }
    {
        lo_at(self.table, self.at)
    }

    pub fn hi(self) -> u32
        ensures { result ≡ hi_at self.entry.table.now self.entry.at }
    {
        hi_at(self.table, self.at)
    }

    // What it holds.
    pub fn children(self) -> Siblings<'a>
        ensures { Children self.entry result }
    {
        Siblings {
            table: self.table,
            from: self.at + 1,
            to: self.end,
        }
    }

    // It, as siblings of which there is one.
    pub fn alone(self) -> Siblings<'a>
        ensures { Alone self.entry result }
    {
        Siblings {
            table: self.table,
            from: self.at,
            to: self.end,
        }
    }
}
