// The check of a lent row table. It asks nothing of the caller: a table too short for its rows is answered too.
// One loop goes over the rows; where a row is wrong by itself, a second one looks at the fields from there on. A row is open from where it
// stands up to its end; `ends`, `left` and `own` keep of each open row, the outermost first, its end, the items of its kind that are left
// for the children to come, and its number. A row is a child of the innermost open one, which takes it; then it is opened, or, if it
// holds no rows, those that end with it are closed.
// Three arrays: one array of a struct costs 63 instructions a row for 54, and ask on block-2000 is 3.43 of da_stmt for a bar of 3.20.
#![tactic(auto)]

ghost use Rattle.std.specs.Prelude.{◌≡◌, List, [], ◌<◌, ◌≤◌, ◌+◌, ◌*◌, length, map};
ghost use Rattle.kinds.specs.Kinds.{Item, fits, kinds as kind_list};
ghost use Rattle.kinds.specs.Steps.{items_number, numbers};
ghost use Rattle.checks.specs.Checks.{holds, fields_at, checked_rows};
ghost use Rattle.checks.specs.Steps.{Held, Settles, Takes, Closes, PlacesRow, CanEnter, Enters, RowRead, RowTold, refused_of, root_found, Started, RootPlaced};

use kinds::{Items, Kind};
use refusals::{Refusal, Refused};

// How many rows are open, and the first row found so far whose children do not fit, the count of rows if none is.
#[derive(Clone, Copy)]
struct Progress {
    depth: usize,
    first: usize,
}

// Whether a table holds so many rows.
#[tactic(auto, unfolding(crate::specs::Checks::holds))]
fn held(rows: &[u32], count: usize) -> bool
    ensures { result ≡ holds rows.now count }
{
    (1..=2000).contains(&count) && 5 * count <= rows.len()
}

// Whether each item left may stand any number of times, none included.
fn all_repeat(mut left: Items) -> bool
    ensures { (items : List Item) → left ≡ items_number items → result ≡ fits items [] }
{
    while kinds::repeats_first(left) {
        left = kinds::rest_first(left);
    }
    left == 0
}

// Row `own` has no more children, and these items are left: the first row found, which is this one if it misses a child and stands
// before the others.
fn settle(left: Items, own: usize, first: usize) -> usize
    ensures { Settles left own first result }
{
    if left == 0 {
        return first;
    }
    if all_repeat(left) {
        return first;
    }
    own.min(first)
}

// The open row at `i` takes a child of this kind: its items that are left for the next child, and the first row found.
fn take(left: &mut [Items; 100], own: &[usize; 100], i: usize, kind: usize, first: usize) -> usize
    requires { i < 100 }
    ensures { Takes left.old own.now i kind first left.new result }
{
    let mut items = left[i];
    while !kinds::takes_first(items, kind) {
        if !kinds::repeats_first(items) {
            return own[i].min(first);
        }
        items = kinds::rest_first(items);
        left[i] = items;
    }
    if kinds::repeats_first(items) {
        return first;
    }
    left[i] = kinds::rest_first(items);
    first
}

// The open rows that end by this row are closed.
fn close(
    ends: &[usize; 100],
    left: &[Items; 100],
    own: &[usize; 100],
    mut depth: usize,
    row: usize,
    mut first: usize,
) -> Progress
    requires { depth ≤ 100 }
    ensures { Closes ends.now left.now own.now row depth first result.depth result.first }
{
    while 0 < depth {
        if row < ends[depth - 1] {
            return Progress { depth, first };
        }
        depth -= 1;
        first = settle(left[depth], own[depth], first);
    }
    Progress { depth, first }
}

// A row with this end and its kind's items stands in the open rows: it is opened; or it holds no rows, and those that end with it
// are closed.
fn place(
    ends: &mut [usize; 100],
    left: &mut [Items; 100],
    own: &mut [usize; 100],
    depth: usize,
    row: usize,
    end: usize,
    items: Items,
    first: usize,
) -> Progress
    requires { (depth < 100) × (row ≤ 2000) }
    ensures { PlacesRow ends.old left.old own.old depth row end items first ends.new left.new own.new result.depth result.first }
{
    if row + 1 < end {
        ends[depth] = end;
        left[depth] = items;
        own[depth] = row;
        return Progress {
            depth: depth + 1,
            first,
        };
    }
    let settled = settle(items, row, first);
    close(ends, left, own, depth, row + 1, settled)
}

// The innermost open row takes a row of this kind, and the row is placed.
fn enter(
    ends: &mut [usize; 100],
    left: &mut [Items; 100],
    own: &mut [usize; 100],
    at: Progress,
    row: usize,
    kind: usize,
    end: usize,
    items: Items,
) -> Progress
    requires { CanEnter at.depth row }
    ensures { Enters ends.old left.old own.old at row kind end items ends.new left.new own.new result }
{
    let d = at.depth;
    let first = take(left, own, d - 1, kind, at.first);
    place(ends, left, own, d, row, end, items, first)
}

// Whether a row's end, which may be from `least` to `most`, and its side number are right.
#[tactic(auto, unfolding(crate::specs::Steps::end_right))]
fn end_right(rows: &[u32], names: usize, row: usize, entry: Kind, least: usize, most: usize) -> bool
    requires { RowRead rows.now row entry }
    ensures { RowTold rows.now names row entry least most result }
{
    (least..=most).contains(&table::end_at(rows, row))
        && kinds::side_fits(entry, table::side_at(rows, row), names)
}

// The kind and the side number of row i.
fn check_fields(rows: &[u32], names: usize, i: usize, entries: &[Kind; 66]) -> Result<(), Refused>
    requires in_table { 5 * i + 4 < length rows.now }
    requires entries { entries.now ≡ map numbers kind_list }
    ensures { result ≡ fields_at rows.now names i }
{
    let kind = table::kind_at(rows, i);
    if 66 <= kind {
        return Err(Refused {
            refusal: Refusal::UnknownKind,
            place: i,
        });
    }
    if !kinds::side_fits(entries[kind], table::side_at(rows, i), names) {
        return Err(Refused {
            refusal: Refusal::WrongSide,
            place: i,
        });
    }
    Ok(())
}

// A row is wrong by itself, `refusal` for its end or depth. Fields come before these: it is told for that only where no row from it on has a
// wrong kind or side number.
fn refuse(
    rows: &[u32],
    count: usize,
    names: usize,
    row: usize,
    refusal: Refusal,
    entries: &[Kind; 66],
) -> Result<(), Refused>
    requires held { Held rows.now count }
    requires entries { entries.now ≡ map numbers kind_list }
    ensures { result ≡ refused_of rows.now count names row refusal }
{
    for i in row..count {
        check_fields(rows, names, i, entries)?;
    }
    Err(Refused {
        refusal,
        place: row,
    })
}

// The rows after row 0, which is placed. The first that is wrong by itself is told by `refuse`, and one whose children do not fit at the end.
fn check_rest(
    rows: &[u32],
    count: usize,
    names: usize,
    mut at: Progress,
    ends: &mut [usize; 100],
    left: &mut [Items; 100],
    own: &mut [usize; 100],
    entries: &[Kind; 66],
) -> Result<(), Refused>
    requires entries { entries.now ≡ map numbers kind_list }
    requires placed { RootPlaced rows.now count names at.depth at.first ends.old left.old own.old }
    ensures { result ≡ checked_rows rows.now count names }
{
    let mut row = 1;
    while 0 < at.depth {
        let kind = table::kind_at(rows, row);
        if 66 <= kind {
            return refuse(rows, count, names, row, Refusal::WrongEnd, entries);
        }
        let entry = entries[kind];
        let d = at.depth;
        if !end_right(rows, names, row, entry, row + 1, ends[d - 1]) {
            return refuse(rows, count, names, row, Refusal::WrongEnd, entries);
        }
        if 100 <= d {
            return refuse(rows, count, names, row, Refusal::TooDeep, entries);
        }
        let end = table::end_at(rows, row);
        at = enter(ends, left, own, at, row, kind, end, entry.children);
        row += 1;
    }
    if at.first < count {
        return Err(Refused {
            refusal: Refusal::WrongChildren,
            place: at.first,
        });
    }
    Ok(())
}

// Row 0, which has these items, is placed, and the others are looked at; `start` is the first row found before.
fn check_from_root(
    rows: &[u32],
    count: usize,
    names: usize,
    items: Items,
    start: usize,
    entries: &[Kind; 66],
) -> Result<(), Refused>
    requires entries { entries.now ≡ map numbers kind_list }
    requires started { Started rows.now count names items start }
    ensures { result ≡ checked_rows rows.now count names }
{
    let mut ends = [0usize; 100];
    let mut left = [0usize; 100];
    let mut own = [0usize; 100];
    let root = place(&mut ends, &mut left, &mut own, 0, 0, count, items, start);
    check_rest(
        rows, count, names, root, &mut ends, &mut left, &mut own, entries,
    )
}

// The first row found before any is looked at: none, which is the count, or row 0 if its kind is no statement's.
#[tactic(auto, unfolding(crate::specs::Steps::root_found))]
fn root_found(count: usize, kind: usize) -> usize
    ensures { result ≡ root_found count kind }
{
    if kinds::is_statement(kind) { count } else { 0 }
}

// Fields, ends and depth, children: refusals 5 and 6, then 7 and 8, then 9, each in row order. Row 0 is looked at first: every other
// row stands in it.
#[tactic(auto, using(crate::proofs::Whole::root))]
pub fn check(rows: &[u32], count: usize, names: usize) -> Result<(), Refused>
    ensures { result ≡ checked_rows rows.now count names }
{
    if !held(rows, count) {
        return Err(Refused {
            refusal: Refusal::WrongRecord,
            place: 0,
        });
    }
    let entries = kinds::kinds();
    let kind = table::kind_at(rows, 0);
    if 66 <= kind {
        return refuse(rows, count, names, 0, Refusal::WrongEnd, &entries);
    }
    let entry = entries[kind];
    if !end_right(rows, names, 0, entry, count, count) {
        return refuse(rows, count, names, 0, Refusal::WrongEnd, &entries);
    }
    check_from_root(
        rows,
        count,
        names,
        entry.children,
        root_found(count, kind),
        &entries,
    )
}
