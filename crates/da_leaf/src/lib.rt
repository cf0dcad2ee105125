// The arms of da_stmt that walk no statement, and what the other arms ask before they walk one: da/mod.rs, over rows.
#![tactic(auto)]

ghost use Rattle.std.specs.Prelude.{◌≡◌, cond, ◌&&◌};
ghost use Rattle.table.specs.Rows.{kind_at};
ghost use Rattle.table.specs.Siblings.{forest};
ghost use Rattle.kinds.specs.Named.{task_effect, stmt_class};
ghost use Rattle.reads.specs.PathRows.{is_local, is_loop_jump};
ghost use Rattle.da.specs.Walk.{call_effect};
ghost use Rattle.sheet_record.specs.Records.{marks_of};
ghost use Rattle.da_rows.specs.Steps.{untimed, fact_of};
ghost use Rattle.da_leaf.specs.Steps.{only_written_at, is_lident, target_at, assign_at, event_at, blocking_at, scheduled, nonblocking_at, return_at, task_at, disable_at, event_control_at, construct_of, stays_written, construct_from, LeafRow, referring_at, leaf_at};

use da::{CallEffect, DaOut, DaResult, Reason};
use da_rows::Context;
use kinds::{ExprClass, StmtClass};
use table::{Node, Siblings};

// A statement that is accepted only where the local is written.
fn only_written(row: Node, reason: Reason, assigned: bool) -> DaResult
    ensures { result ≡ only_written_at row.entry.table.now row.entry.at reason assigned }
{
    if assigned {
        return Ok(DaOut::Falls(true));
    }
    Err(da_rows::give_up(row, reason))
}

fn is_lident(class: ExprClass) -> bool
    ensures { result ≡ is_lident class }
{
    matches!(class, ExprClass::Lident)
}

// Whether the first of these rows is a path of one segment, the local.
#[tactic(auto, unfolding(reads::specs::PathRows::is_local))]
fn is_local(rows: Siblings, local: usize) -> bool
    ensures { result ≡ is_local local (forest rows.entry) }
{
    reads::segments(rows) == 1 && reads::begins_with(rows, local)
}

// Whether the first of these rows is the plain local as a target.
fn is_plain(rows: Siblings, local: usize) -> bool
    ensures { result ≡ (fact_of local rows.entry).plain }
{
    match rows.first() {
        Some(row) => is_lident(kinds::expr_class(row.kind())) && is_local(row.children(), local),
        None => false,
    }
}

// The state once the right side is evaluated: its write counts where the target does not refer to the local.
fn gained(refers: bool, after: bool, assigned: bool) -> bool
    ensures { result ≡ cond refers assigned after }
{
    if refers { assigned } else { after }
}

// The end of a blocking assignment in a row: its target, the first of these.
fn da_target(row: Node, target: Siblings, local: usize, after: bool, assigned: bool) -> DaResult
    ensures { result ≡ target_at local row.entry target.entry after assigned }
{
    if is_plain(target, local) {
        return Ok(DaOut::Falls(true)); // whatever it was before
    }
    let clear = reads::no_ref(target.head(), local);
    only_written(row, Reason::PartWritten, gained(!clear, after, assigned))
}

// A blocking assignment in a row from its right side on; these are its target and right side.
fn da_assign(row: Node, target: Siblings, local: usize, assigned: bool) -> DaResult
    ensures { result ≡ assign_at local row.entry target.entry assigned }
{
    let states = da_rows::evaluate(target.rest(), local, assigned)?;
    da_target(row, target, local, states.after, assigned)
}

// A blocking assignment in a row from its event on; these are its event, target and right side.
fn da_event(row: Node, event: Siblings, local: usize, assigned: bool) -> DaResult
    ensures { result ≡ event_at local row.entry event.entry assigned }
{
    if da_rows::refers_unwritten(event.head(), local, assigned) {
        return Err(da_rows::give_up(row, Reason::EventReads));
    }
    da_assign(row, event.rest(), local, assigned)
}

// A blocking assignment: delay, event, right side, target.
fn da_blocking(row: Node, local: usize, assigned: bool) -> DaResult
    ensures { result ≡ blocking_at local row.entry.table.now row.entry.at row.entry.end assigned }
{
    let delay = row.children();
    da_rows::unless_delay_read(delay, local, assigned)?;
    da_event(row, delay.rest(), local, assigned)
}

// The right side of a nonblocking assignment, the first of these rows.
fn da_scheduled(right: Siblings, local: usize, assigned: bool) -> DaResult
    ensures { result ≡ scheduled (fact_of local right.entry) assigned }
{
    let states = da_rows::evaluate(right, local, assigned)?;
    Ok(DaOut::Falls(states.after))
}

// A nonblocking assignment: on a net that other blocks write it gives up; else its right side counts.
fn da_nonblocking(ctx: &Context, row: Node, assigned: bool) -> DaResult
    ensures { result ≡ nonblocking_at ctx.now row.entry.table.now row.entry.at row.entry.end assigned }
{
    if !ctx.sole {
        return Err(da_rows::give_up(row, Reason::SharedNet));
    }
    let event = row.children().rest();
    let target = event.rest();
    da_scheduled(target.rest(), ctx.local, assigned)
}

fn da_return(row: Node, local: usize, assigned: bool) -> DaResult
    ensures { result ≡ return_at local row.entry.table.now row.entry.at row.entry.end assigned }
{
    da_rows::unless_read(row.children(), local, assigned)?;
    Ok(DaOut::Jumps)
}

// What a task does to the local, by its side number.
#[tactic(auto, unfolding(kinds::specs::Named::task_effect))]
fn call_effect(side: usize) -> CallEffect
    ensures { result ≡ call_effect (task_effect side) }
{
    match side {
        0 | 4 => CallEffect::Inert,
        1 | 5 => CallEffect::Writes,
        2 | 6 => CallEffect::Reads,
        _ => CallEffect::Unknown,
    }
}

fn da_task(row: Node, assigned: bool) -> DaResult
    ensures { result ≡ task_at row.entry.table.now row.entry.at assigned }
{
    match call_effect(row.side()) {
        CallEffect::Inert => Ok(DaOut::Falls(assigned)),
        CallEffect::Writes => Ok(DaOut::Falls(true)),
        CallEffect::Reads => only_written(row, Reason::TaskReads, assigned),
        CallEffect::Unknown => only_written(row, Reason::TaskUnknown, assigned),
    }
}

// Whether a name is marked as a loop jump; a number that no name has is not.
fn is_marked(names: &[u32], number: usize) -> bool
    ensures { result ≡ marks_of names.now number }
{
    number < names.len() / 3 && sheet_record::mark_at(names, number) == 1
}

// Whether the first of these rows is a path of one segment that is marked.
fn is_loop_jump(rows: Siblings, names: &[u32]) -> bool
    ensures { result ≡ is_loop_jump (marks_of names.now) (forest rows.entry) }
{
    let Some(path) = rows.first() else {
        return false;
    };
    let segments = path.children();
    match segments.first() {
        Some(segment) => segments.rest().is_empty() && is_marked(names, segment.side()),
        None => false,
    }
}

fn da_disable(row: Node, names: &[u32], assigned: bool) -> DaResult
    ensures { result ≡ disable_at row.entry.table.now names.now row.entry.at row.entry.end assigned }
{
    if is_loop_jump(row.children(), names) {
        return Ok(DaOut::Jumps);
    }
    Ok(DaOut::Falls(assigned))
}

// What an event control asks before its body.
fn da_eventctrl(row: Node, local: usize, assigned: bool) -> DaResult
    ensures { result ≡ event_control_at local row.entry.table.now row.entry.at row.entry.end assigned }
{
    if da_rows::refers_unwritten(row.children().head(), local, assigned) {
        return Err(da_rows::give_up(row, Reason::ControlReads));
    }
    Ok(DaOut::Falls(assigned))
}

// How da_stmt goes on at a row: the local stays written, it walks no statement, or first asks and then walks the body, or walks as the
// construct does. It stands apart from the match in da_walk, since construct_at goes by it, and a cycle of calls can hand out no closure
// for each arm.
#[derive(Clone, Copy)]
pub enum Construct {
    StaysWritten,
    Leaf,
    Controlled,
    Arm,
    Block,
    If,
    Case,
    For,
    While,
    Repeat,
    Forever,
}

pub fn construct_of(class: StmtClass) -> Construct
    ensures { result ≡ construct_of class }
{
    match class {
        StmtClass::Match | StmtClass::Default => Construct::Arm,
        StmtClass::Block => Construct::Block,
        StmtClass::If => Construct::If,
        StmtClass::Case => Construct::Case,
        StmtClass::For => Construct::For,
        StmtClass::While => Construct::While,
        StmtClass::Repeat => Construct::Repeat,
        StmtClass::Forever => Construct::Forever,
        StmtClass::Delayctrl | StmtClass::Eventctrl | StmtClass::Wait => Construct::Controlled,
        _ => Construct::Leaf,
    }
}

// Whether a statement of this class leaves a local that is written so, and does nothing else, whatever it holds: no row in it is looked
// at. A nonblocking assignment is not one, which may give up, and neither are statements that may jump or whose statements are walked.
fn class_stays_written(class: StmtClass, assigned: bool) -> bool
    ensures { result ≡ assigned && stays_written class }
{
    assigned
        && matches!(
            class,
            StmtClass::Blocking
                | StmtClass::Decl
                | StmtClass::Fork
                | StmtClass::Null
                | StmtClass::Systask
                | StmtClass::Task
                | StmtClass::Unmodelled
        )
}

// The same of a row.
pub fn stays_written(row: Node, assigned: bool) -> bool
    ensures { result ≡ assigned && stays_written (stmt_class (kind_at row.entry.table.now row.entry.at)) }
{
    class_stays_written(kinds::stmt_class(row.kind()), assigned)
}

// How da_stmt goes on at a statement of this class, from this state.
pub fn construct_from(class: StmtClass, assigned: bool) -> Construct
    ensures { result ≡ construct_from class assigned }
{
    if class_stays_written(class, assigned) {
        return Construct::StaysWritten;
    }
    construct_of(class)
}

// A row of a class that walks no statement or one only after what is asked here, as it goes on where stmt_no_ref does not let it through.
pub fn da_referring(ctx: &Context, row: Node, class: StmtClass, assigned: bool) -> DaResult
    requires { LeafRow row.table.now class row.at row.end }
    ensures { result ≡ referring_at (untimed ctx.now) row.entry.table.now class row.entry.at row.entry.end assigned }
{
    match class {
        StmtClass::Blocking => da_blocking(row, ctx.local, assigned),
        StmtClass::Nonblocking => da_nonblocking(ctx, row, assigned),
        StmtClass::Return => da_return(row, ctx.local, assigned),
        StmtClass::Task => da_task(row, assigned),
        StmtClass::Disable => da_disable(row, ctx.names, assigned),
        StmtClass::Decl | StmtClass::Wait => da_rows::unless_read(
            row.children(),
            ctx.local,
            assigned,
        ),
        StmtClass::Delayctrl => da_rows::unless_held_read(row.children(), ctx.local, assigned),
        StmtClass::Eventctrl => da_eventctrl(row, ctx.local, assigned),
        StmtClass::Fork => only_written(row, Reason::Forks, assigned),
        StmtClass::Systask | StmtClass::Unmodelled | StmtClass::Null => {
            only_written(row, Reason::NotModelled, assigned)
        }
        _ => Ok(DaOut::Falls(assigned)),
    }
}

// A row of a class that walks no statement. Most are let through by stmt_no_ref, and are answered without a further call.
pub fn da_leaf(ctx: &Context, row: Node, class: StmtClass, assigned: bool) -> DaResult
    requires { LeafRow row.table.now class row.at row.end }
    ensures { result ≡ leaf_at (untimed ctx.now) row.entry.table.now class row.entry.at row.entry.end assigned }
{
    if reads::stmt_no_ref(row.alone(), ctx.local) {
        return Ok(DaOut::Falls(assigned));
    }
    da_referring(ctx, row, class, assigned)
}
