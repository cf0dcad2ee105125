// The reference test: one flat pass over the rows of a range, and what da/reads.rs asks by it.
#![tactic(auto)]

ghost use Rattle.std.specs.Prelude.{◌≡◌, true, ◌+◌, ◌*◌, ◌≤◌, ◌<◌, length};
ghost use Rattle.kinds.specs.Named.{expr_class};
ghost use Rattle.table.specs.Rows.{kind_at, side_at};
ghost use Rattle.table.specs.Siblings.{forest};
ghost use Rattle.reads.specs.PathRows.{begins, segments as segments_of};
ghost use Rattle.reads.specs.Mentions.{role_of, mentions_at, skips_iff, mention_in, MentionTold};
ghost use Rattle.reads.specs.Steps.{Quiet, AfterQuiet};
ghost use Rattle.reads.specs.NoRef.{expr_no_ref, lvalue_no_ref, sensitivity_no_ref, intra_event_no_ref, stmt_no_ref, vetted, two_segments};

use kinds::{ExprClass, StmtClass};
use table::{Node, Siblings};

// Whether the iff of an event is looked at.
#[derive(Clone, Copy)]
pub enum Iff {
    Skipped,
    Included,
}

// How a row refers: by the path that it has, always, by its expression and, where that is looked at, its iff, or only by what
// it holds.
#[derive(Clone, Copy)]
enum Role {
    ByPath,
    Always,
    HasIff,
    ByContent,
}

fn role_of(class: ExprClass) -> Role
    ensures { result ≡ role_of class }
{
    match class {
        ExprClass::Ident | ExprClass::Call | ExprClass::Lident => Role::ByPath,
        ExprClass::Opaque => Role::Always,
        ExprClass::Event => Role::HasIff,
        ExprClass::Unary
        | ExprClass::Binary
        | ExprClass::Ternary
        | ExprClass::Paren
        | ExprClass::Other => Role::ByContent,
    }
}

// Whether the first of these rows is a path that begins with the local.
pub fn begins_with(rows: Siblings, local: usize) -> bool
    ensures { result ≡ begins local (forest rows.entry) }
{
    let Some(path) = rows.first() else {
        return false;
    };
    match path.children().first() {
        Some(segment) => segment.side() == local,
        None => false,
    }
}

// Whether a row is itself a mention.
fn is_mention(row: Node, local: usize) -> bool
    ensures { result ≡ mentions_at local row.entry.table.now row.entry.at }
{
    match role_of(kinds::expr_class(row.kind())) {
        Role::ByPath => begins_with(row.children(), local),
        Role::Always => true,
        Role::HasIff | Role::ByContent => false,
    }
}

// Whether a row is an event whose iff the pass leaves out.
fn skips_iff(row: Node, iff: Iff) -> bool
    ensures { result ≡ skips_iff iff (expr_class (kind_at row.entry.table.now row.entry.at)) }
{
    matches!(iff, Iff::Skipped) && matches!(role_of(kinds::expr_class(row.kind())), Role::HasIff)
}

// Whether row i, where the first segment of a path would stand, is not below `to` or is not named as the local is.
fn names_other(rows: &[u32], local: usize, i: usize, to: usize) -> bool
    requires { 5 * to ≤ length rows.now }
    ensures { result ≡ true → i < to → side_at rows.now i ≡ local → ⊥ }
{
    to <= i || table::side_at(rows, i) != local
}

// Whether row i, a call, plainly neither begins with the local nor writes it.
fn is_quiet_call(rows: Siblings, local: usize, i: usize) -> bool
    requires { (rows.from ≤ i) × (i < rows.to) × (kind_at rows.table.now i ≡ 54) }
    ensures { result ≡ true → Quiet local rows.entry.table.now i }
{
    let writes = table::side_at(rows.table, i) == 1;
    !writes && names_other(rows.table, local, i + 2, rows.to)
}

// Whether row i, one of these rows or below one, is plainly quiet; a no says nothing. Expressions and targets have numbers from 40 on,
// the first being `lit`, which refers to nothing, and of the kinds before them only an event, 7, is looked at for itself. A path's
// first segment stands two rows after the row that has the path, so where it is not the local, no more is asked. Kinds are told by their
// numbers here, not by their classes: this is asked of more rows than anything else.
fn is_quiet(rows: Siblings, local: usize, i: usize) -> bool
    requires { (rows.from ≤ i) × (i < rows.to) }
    ensures { result ≡ true → Quiet local rows.entry.table.now i }
{
    let kind = table::kind_at(rows.table, i);
    if kind < 41 {
        return kind != 7;
    }
    // Apart from the kinds below 41: one match for all costs 0.6 to 1.4 instructions more a row, of 10.6.
    match kind {
        41 | 60 => names_other(rows.table, local, i + 2, rows.to), // ident, lident
        54 => is_quiet_call(rows, local, i), // call
        59 => false, // opaque
        _ => true,
    }
}

// These rows from one on before which all are quiet: the first that is not plainly so. Nothing is told of that row.
pub fn after_quiet(rows: Siblings, local: usize) -> Siblings
    ensures quiet { AfterQuiet local rows.entry.table.now rows.entry.from rows.entry.to result.from }
    ensures same { (result.table.now ≡ rows.entry.table.now) × (result.to ≡ rows.entry.to) }
{
    for from in rows.from..rows.to {
        if !is_quiet(rows, local, from) {
            return Siblings {
                table: rows.table,
                from,
                to: rows.to,
            };
        }
    }
    Siblings {
        table: rows.table,
        from: rows.to,
        to: rows.to,
    }
}

// These rows without the first, which there is: what it holds, and the siblings after it.
fn after_row(rows: Siblings) -> Siblings
    requires { rows.from < rows.to }
    ensures { (result.table.now ≡ rows.entry.table.now) × ((result.from ≡ rows.entry.from + 1) × (result.to ≡ rows.entry.to)) }
{
    Siblings {
        table: rows.table,
        from: rows.from + 1,
        to: rows.to,
    }
}

// The first mention among these rows, in row order. At an event whose iff is skipped the pass looks at the event's expression and goes on
// after the event.
pub fn first_mention(rows: Siblings, iff: Iff, local: usize) -> Option<usize>
    ensures value { result ≡ mention_in iff local rows.entry.table.now rows.entry.from rows.entry.to }
    ensures means { MentionTold iff local rows.entry.table.now rows.entry.from rows.entry.to result }
{
    let mut left = after_quiet(rows, local);
    while let Some(row) = left.first() {
        if is_mention(row, local) {
            return Some(row.at);
        }
        if skips_iff(row, iff) {
            if let Some(mention) = first_mention(row.children().head(), iff, local) {
                return Some(mention);
            }
            left = after_quiet(left.rest(), local);
        } else {
            left = after_quiet(after_row(left), local);
        }
    }
    None
}

// Whether none of these rows refers to the local, which is the answer of four of the Rust's functions: of an expression or each
// of a list of them; of a target, and the expressions of its selects; of a sensitivity, where a star names nothing and of an event its
// expression counts, not its iff; and of an event control within an assignment, its repeat count, where there is one, and its sensitivity.
// Most often every row is quiet, or the first that is not is a mention; the pass is asked only otherwise.
pub fn no_ref(rows: Siblings, local: usize) -> bool
    ensures expr { result ≡ expr_no_ref local (forest rows.entry) }
    ensures lvalue { result ≡ lvalue_no_ref local (forest rows.entry) }
    ensures sensitivity { result ≡ sensitivity_no_ref local (forest rows.entry) }
    ensures intra_event { result ≡ intra_event_no_ref local (forest rows.entry) }
{
    let left = after_quiet(rows, local);
    match left.first() {
        Some(row) => !is_mention(row, local) && first_mention(left, Iff::Skipped, local).is_none(),
        None => true,
    }
}

// How many segments the path has that is the first of these rows; 0 where there is none.
pub fn segments(rows: Siblings) -> usize
    ensures { result ≡ segments_of (forest rows.entry) }
{
    let Some(path) = rows.first() else {
        return 0;
    };
    let mut left = path.children();
    let mut counted = 0;
    while !left.is_empty() {
        left = left.rest();
        counted += 1;
    }
    counted
}

// stmt_no_ref's arm of a task, over its children: a path of two segments that does not begin with the local, and arguments.
fn task_no_ref(rows: Siblings, local: usize) -> bool
    ensures { result ≡ vetted two_segments local (forest rows.entry) }
{
    let is_pair = segments(rows) == 2;
    is_pair && !begins_with(rows, local) && no_ref(rows, local)
}

// stmt_no_ref, of the first of these rows: a null statement, an assignment or a system task by all that it holds, a task. No other form
// is vetted.
pub fn stmt_no_ref(rows: Siblings, local: usize) -> bool
    ensures { result ≡ stmt_no_ref local (forest rows.entry) }
{
    let Some(row) = rows.first() else {
        return false;
    };
    match kinds::stmt_class(row.kind()) {
        StmtClass::Null => true,
        StmtClass::Blocking | StmtClass::Nonblocking | StmtClass::Systask => no_ref(
            row.children(),
            local,
        ),
        StmtClass::Task => task_no_ref(row.children(), local),
        _ => false,
    }
}
