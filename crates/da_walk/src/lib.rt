// da_stmt: the walk of a statement, with a small function for each construct that walks statements, in one cycle of calls: da/mod.rs,
// over rows. A give-up ends every walk above it, unchanged.
#![tactic(auto)]

ghost use Rattle.std.specs.Prelude.{◌≡◌, ◌&&◌, not, ◌-◌, ◌<◌};
ghost use Rattle.table.specs.Siblings.{forest};
ghost use Rattle.da.specs.Walk.{da_ctx, da_stmt};
ghost use Rattle.soundness.specs.Demand3.{WalkMeans};
ghost use Rattle.sheet_record.specs.Records.{marks_of};
ghost use Rattle.da_rows.specs.Steps.{untimed};
ghost use Rattle.da_walk.specs.Statement.{StatementIn};
ghost use Rattle.da_walk.specs.Steps.{block_in, if_in, branches_in, else_in, case_in, arms_in, arm_in, PassedOver, ControlRow, controlled_at, rounds_at, for_at, while_at, repeat_at, forever_at, advances_alone};

use da::{DaOut, DaResult, Reason};
use da_leaf::Construct;
use da_rows::{Context, States};
use kinds::StmtClass;
use table::{Node, Siblings};

// The walk of the first of these rows. Whether time can advance has been asked of a statement that holds it.
#[cycle(walk)]
fn da_inner(ctx: &Context, rows: Siblings, assigned: bool) -> DaResult
    ensures { result ≡ da_stmt (untimed ctx.now) (forest rows.entry) assigned }
{
    let Some(row) = rows.first() else {
        return Ok(DaOut::Falls(assigned));
    };
    let class = kinds::stmt_class(row.kind());
    match da_leaf::construct_from(class, assigned) {
        Construct::StaysWritten => Ok(DaOut::Falls(assigned)),
        Construct::Leaf => da_leaf::da_leaf(ctx, row, class, assigned),
        Construct::Controlled => da_controlled(ctx, row, class, assigned),
        Construct::Arm => da_inner(ctx, row.children(), assigned),
        Construct::Block => da_block(ctx, row.children(), assigned),
        Construct::If => da_if(ctx, row.children(), assigned),
        Construct::Case => da_case(ctx, row.children(), assigned),
        Construct::For => da_for(ctx, row, assigned),
        Construct::While => da_while(ctx, row, assigned),
        Construct::Repeat => da_repeat(ctx, row, assigned),
        Construct::Forever => da_forever(ctx, row, assigned),
    }
}

// Whether the first of these rows need not be walked, since the local is written and stays so: a statement that does nothing but fall, or a
// timing control of such a one or of none. A no says nothing. Each no stands by itself: one expression would need a match or a closure for
// each row that may not be there.
fn passes_over(rows: Siblings, assigned: bool) -> bool
    ensures { PassedOver (forest rows.entry) assigned result }
{
    if !assigned {
        return false;
    }
    let Some(row) = rows.first() else {
        return false;
    };
    if da_leaf::stays_written(row, assigned) {
        return true;
    }
    let Construct::Controlled = da_leaf::construct_of(kinds::stmt_class(row.kind())) else {
        return false;
    };
    match row.children().rest().first() {
        Some(body) => da_leaf::stays_written(body, assigned),
        None => true,
    }
}

// A delay, an event control or a wait: what it asks, then its body.
#[cycle(walk)]
fn da_controlled(ctx: &Context, row: Node, class: StmtClass, assigned: bool) -> DaResult
    requires { ControlRow row.table.now class row.at row.end }
    ensures { result ≡ controlled_at (untimed ctx.now) row.entry.table.now class row.entry.at row.entry.end assigned }
{
    if passes_over(row.alone(), assigned) {
        return Ok(DaOut::Falls(assigned));
    }
    da_leaf::da_referring(ctx, row, class, assigned)?;
    da_inner(ctx, row.children().rest(), assigned)
}

// The statements of a block, each from where the one before it fell. Those that a written local stays written in are passed over here,
// since they cost little but the call of da_inner, which asks the same.
#[cycle(walk)]
fn da_block(ctx: &Context, rows: Siblings, assigned: bool) -> DaResult
    ensures { result ≡ block_in (untimed ctx.now) (forest rows.entry) assigned }
{
    let mut left = rows;
    let mut a = assigned;
    while !left.is_empty() {
        if !passes_over(left, a) {
            let DaOut::Falls(next) = da_inner(ctx, left, a)? else {
                return Ok(DaOut::Jumps);
            };
            a = next;
        }
        left = left.rest();
    }
    Ok(DaOut::Falls(a))
}

// An if: these rows are its condition and its arms.
#[cycle(walk)]
fn da_if(ctx: &Context, rows: Siblings, assigned: bool) -> DaResult
    ensures { result ≡ if_in (untimed ctx.now) (forest rows.entry) assigned }
{
    let states = da_rows::evaluate(rows, ctx.local, assigned)?;
    da_branches(ctx, rows.rest(), states)
}

// The arms of an if, the first two of these rows, each from what its outcome of the condition writes.
#[cycle(walk)]
fn da_branches(ctx: &Context, rows: Siblings, states: States) -> DaResult
    ensures { result ≡ branches_in (untimed ctx.now) (forest rows.entry) states }
{
    let a_then = da_inner(ctx, rows, states.when_true)?;
    let a_else = da_else(ctx, rows.rest(), states.after, states.when_false)?;
    Ok(a_then.merge(a_else))
}

// The else of an if, the first of these rows. Where it is absent, what holds is what every path has after the condition.
#[cycle(walk)]
fn da_else(ctx: &Context, rows: Siblings, after: bool, when_false: bool) -> DaResult
    ensures { result ≡ else_in (untimed ctx.now) (forest rows.entry) after when_false }
{
    if da_rows::is_absent(rows) {
        return Ok(DaOut::Falls(after));
    }
    da_inner(ctx, rows, when_false)
}

// A case: these rows are its scrutinee and its arms.
#[cycle(walk)]
fn da_case(ctx: &Context, rows: Siblings, assigned: bool) -> DaResult
    ensures { result ≡ case_in (untimed ctx.now) (forest rows.entry) assigned }
{
    let states = da_rows::evaluate(rows, ctx.local, assigned)?;
    da_arms(ctx, rows.rest(), states.after)
}

// The arms of a case, each from the state after the scrutinee.
#[cycle(walk)]
fn da_arms(ctx: &Context, rows: Siblings, after: bool) -> DaResult
    ensures { result ≡ arms_in (untimed ctx.now) (forest rows.entry) after }
{
    let mut left = rows;
    let mut all = DaOut::Jumps;
    let mut has_default = false;
    while let Some(item) = left.first() {
        let arm = da_arm(ctx, left, after)?;
        all = all.merge(arm);
        has_default = has_default || da_rows::is_default(item);
        left = left.rest();
    }
    Ok(da_rows::case_out(has_default, after, all))
}

// An arm, the first of these rows: its labels, then its statement.
#[cycle(walk)]
fn da_arm(ctx: &Context, rows: Siblings, after: bool) -> DaResult
    ensures { result ≡ arm_in (untimed ctx.now) (forest rows.entry) after }
{
    da_rows::unless_label_read(rows, ctx.local, after)?;
    da_inner(ctx, rows, after)
}

// The rounds of a loop which has no step: its body is the first of these rows. The side of the loop's row is read before the body is walked,
// so that the row takes no stack meanwhile.
#[cycle(walk)]
fn da_rounds(ctx: &Context, row: Node, body: Siblings, after: bool, in_body: bool) -> DaResult
    requires { body.to - body.from < row.end - row.at }
    ensures { result ≡ rounds_at (untimed ctx.now) row.entry.table.now row.entry.at row.entry.end (forest body.entry) after in_body }
{
    let side = row.side();
    let body_out = da_inner(ctx, body, in_body)?;
    Ok(DaOut::Falls(da_rows::rounds_write(side, body, body_out, after)))
}

// A for: its init, then its condition, and rounds where that is true. Its step is walked after its body, from where the body starts. The side
// is read first, as in da_rounds.
#[cycle(walk)]
fn da_for(ctx: &Context, row: Node, assigned: bool) -> DaResult
    ensures { result ≡ for_at (untimed ctx.now) row.entry.table.now row.entry.at row.entry.end assigned }
{
    let side = row.side();
    let init = row.children();
    let start = da_inner(ctx, init, assigned)?;
    let test = init.rest();
    let states = da_rows::evaluate(test, ctx.local, start.state())?;
    let step = test.rest();
    let body = step.rest();
    let body_out = da_inner(ctx, body, states.when_true)?;
    da_inner(ctx, step, states.when_true)?;
    Ok(DaOut::Falls(da_rows::rounds_write(side, body, body_out, states.after)))
}

// A while. It and a repeat are two rules, while_at and repeat_at, which differ in the state of a round: one function would need a flag.
#[cycle(walk)]
fn da_while(ctx: &Context, row: Node, assigned: bool) -> DaResult
    ensures { result ≡ while_at (untimed ctx.now) row.entry.table.now row.entry.at row.entry.end assigned }
{
    let test = row.children();
    let states = da_rows::evaluate(test, ctx.local, assigned)?;
    da_rounds(ctx, row, test.rest(), states.after, states.when_true)
}

// A repeat: its count is evaluated once, and tells nothing of a round.
#[cycle(walk)]
fn da_repeat(ctx: &Context, row: Node, assigned: bool) -> DaResult
    ensures { result ≡ repeat_at (untimed ctx.now) row.entry.table.now row.entry.at row.entry.end assigned }
{
    let count = row.children();
    let states = da_rows::evaluate(count, ctx.local, assigned)?;
    da_rounds(ctx, row, count.rest(), states.after, states.after)
}

#[cycle(walk)]
fn da_forever(ctx: &Context, row: Node, assigned: bool) -> DaResult
    ensures { result ≡ forever_at (untimed ctx.now) row.entry.table.now row.entry.at row.entry.end assigned }
{
    da_rounds(ctx, row, row.children(), assigned, assigned)
}

// Whether the net is shared and time can advance in a row.
fn suspends(ctx: &Context, row: Node) -> bool
    ensures { result ≡ not ctx.now.sole && advances_alone row.entry.table.now row.entry.at }
{
    !ctx.sole && loops::stmt_advances_time(row.alone())
}

// da_stmt of the first of these rows, a statement. If time can advance in a statement of it, it can in this one, so that it is asked here
// alone.
pub fn da_stmt(ctx: &Context, rows: Siblings, assigned: bool) -> DaResult
    requires { StatementIn rows.table.now rows.from rows.to }
    ensures value { result ≡ da_stmt (da_ctx ctx.now.local (marks_of ctx.now.names.now) ctx.now.sole) (forest rows.entry) assigned }
    ensures means { WalkMeans ctx.now.local (marks_of ctx.now.names.now) (forest rows.entry) assigned result }
{
    let row = rows.first().unwrap();
    if suspends(ctx, row) {
        return Err(da_rows::give_up(row, Reason::SharedNet));
    }
    da_inner(ctx, rows, assigned)
}
