// Whether control can leave a statement other than at its end, and whether a statement lets simulation time advance: one flat
// pass each over the rows of a range.
#![tactic(auto)]

ghost use Rattle.std.specs.Prelude.{◌≡◌, ◌+◌, ◌*◌, ◌<◌, length};
ghost use Rattle.kinds.specs.Named.{stmt_class};
ghost use Rattle.table.specs.Rows.{kind_at, side_at};
ghost use Rattle.table.specs.Siblings.{forest};
ghost use Rattle.loops.specs.Escape.{transfers, cannot_escape, EscapeTold};
ghost use Rattle.loops.specs.Time.{lets_time_pass, advances_time, TimeTold};

use kinds::StmtClass;
use table::Siblings;

// Whether row i itself transfers control.
fn transfers_control(rows: &[u32], i: usize) -> bool
    requires { 5 * i + 4 < length rows.now }
    ensures { result ≡ transfers (stmt_class (kind_at rows.now i)) }
{
    matches!(
        kinds::stmt_class(table::kind_at(rows, i)),
        StmtClass::Disable | StmtClass::Return
    )
}

// stmt_cannot_escape: none of these rows transfers control.
pub fn stmt_cannot_escape(rows: Siblings) -> bool
    ensures value { result ≡ cannot_escape (forest rows.entry) }
    ensures arms { EscapeTold rows.entry.table.now rows.entry.from rows.entry.to result }
{
    (rows.from..rows.to).all(|i| !transfers_control(rows.table, i))
}

// Whether row i itself lets time pass, a task by whether it suspends.
// Kinds go by number here: StmtClass has no name for delay, intra and waitfork.
#[tactic(auto, using(crate::proofs::Answers::time_numbers))]
fn lets_time_pass(rows: &[u32], i: usize) -> bool
    requires { 5 * i + 4 < length rows.now }
    ensures { result ≡ lets_time_pass (kind_at rows.now i) (side_at rows.now i) }
{
    match table::kind_at(rows, i) {
        3 | 4 => true, // delay, intra
        23 => 4 <= table::side_at(rows, i), // task
        25 | 26 | 28 | 30 => true, // delayctrl, eventctrl, wait, waitfork
        _ => false,
    }
}

// stmt_advances_time: one of these rows lets time pass.
pub fn stmt_advances_time(rows: Siblings) -> bool
    ensures value { result ≡ advances_time (forest rows.entry) }
    ensures arms { TimeTold rows.entry.table.now rows.entry.from rows.entry.to result }
{
    (rows.from..rows.to).any(|i| lets_time_pass(rows.table, i))
}
