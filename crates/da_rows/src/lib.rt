// What da_stmt asks of rows before it walks a statement: what evaluating an expression comes to, whether rows refer to a local that is
// not written, and what a row is to the statement that holds it. da/mod.rs, over rows.
#![tactic(auto)]

ghost use Rattle.std.specs.Prelude.{◌≡◌, ◌&&◌, ◌||◌, not, ◌+◌, Ok};
ghost use Rattle.table.specs.Siblings.{forest};
ghost use Rattle.table.specs.Fold.{tail};
ghost use Rattle.reads.specs.declared.Iff.TheVariants.{Skipped};
ghost use Rattle.reads.specs.Mentions.{refers as refers_in};
ghost use Rattle.da.specs.declared.DaOut.TheVariants.{Falls};
ghost use Rattle.da.specs.Walk.{unless_read, unless_one_read, falls_written};
ghost use Rattle.da_rows.specs.Steps.{facts_in, facts_of, fact_of, held_of, read_in, always as always_of, evaluation, give_up_at, part_of_class, part_of_row, part_of, is_default_part, is_absent_part, first_labels, case_out, body_assigns};

use da::{DaGiveUp, DaOut, DaResult, Reason};
use effect_rules::ExprDa;
use kinds::StmtClass;
use table::{Node, Siblings};

// What a walk is given beside the rows: the name table, the local, and whether this block is the only writer of the net.
#[derive(Clone, Copy)]
pub struct Context<'a> {
    pub names: &'a [u32],
    pub local: usize,
    pub sole: bool,
}

// Whether the local is written after an expression, and then if its value is true, and if it is false.
#[derive(Clone, Copy)]
pub struct States {
    pub after: bool,
    pub when_true: bool,
    pub when_false: bool,
}

impl States {
    // Whatever the value is.
    fn always(written: bool) -> States
        ensures { result ≡ always_of written }
    {
        States {
            after: written,
            when_true: written,
            when_false: written,
        }
    }
}

// A give-up at a row.
pub fn give_up(row: Node, reason: Reason) -> DaGiveUp
    ensures { result ≡ give_up_at row.entry.table.now row.entry.at reason }
{
    DaGiveUp {
        reason: reason as u32,
        lo: row.lo(),
        hi: row.hi(),
    }
}

// Reason 2 at the first of these rows.
fn read_at(rows: Siblings) -> DaGiveUp
    ensures { result ≡ read_in rows.entry }
{
    match rows.first() {
        Some(row) => give_up(row, Reason::ReadUnwritten),
        None => DaGiveUp {
            reason: Reason::ReadUnwritten as u32,
            lo: 0,
            hi: 0,
        },
    }
}

// The first of these rows, an expression, is evaluated. Once the local is written, no row is looked at. Most expressions have nothing to do
// with the local, which one flat pass over their rows tells; the effect is worked out for the others.
pub fn evaluate(rows: Siblings, local: usize, assigned: bool) -> Result<States, DaGiveUp>
    ensures { result ≡ evaluation (fact_of local rows.entry) assigned }
{
    if assigned {
        return Ok(States::always(true));
    }
    if expr_effect::all_quiet(rows, local) {
        return Ok(States::always(false));
    }
    let e = expr_effect::expr_writes_when(rows, local);
    match e.effect {
        ExprDa::Reads => Err(read_at(rows)),
        ExprDa::Writes => Ok(States::always(true)),
        ExprDa::Clean => Ok(States {
            after: false,
            when_true: e.when_true,
            when_false: e.when_false,
        }),
    }
}

// The first of these rows, an expression of which no write is claimed.
#[tactic(auto, using(crate::proofs::Asking::unless_onward))]
pub fn unless_read(rows: Siblings, local: usize, assigned: bool) -> DaResult
    ensures { result ≡ unless_read (fact_of local rows.entry) assigned (Ok (Falls assigned)) }
{
    evaluate(rows, local, assigned)?;
    Ok(DaOut::Falls(assigned))
}

// Each of these rows, expressions of which no write is claimed.
fn unless_one_read(rows: Siblings, local: usize, assigned: bool) -> DaResult
    ensures { result ≡ unless_one_read (facts_of local rows.entry) assigned (Ok (Falls assigned)) }
{
    let mut left = rows;
    while !left.is_empty() {
        unless_read(left, local, assigned)?;
        left = left.rest();
    }
    Ok(DaOut::Falls(assigned))
}

// What the first of these rows holds: the values of a delay.
pub fn unless_held_read(rows: Siblings, local: usize, assigned: bool) -> DaResult
    ensures { result ≡ unless_one_read (held_of local rows.entry) assigned (Ok (Falls assigned)) }
{
    match rows.first() {
        Some(row) => unless_one_read(row.children(), local, assigned),
        None => Ok(DaOut::Falls(assigned)),
    }
}

// The same of the delay of an assignment: most have none, and that is told without a call.
pub fn unless_delay_read(rows: Siblings, local: usize, assigned: bool) -> DaResult
    ensures { result ≡ unless_one_read (held_of local rows.entry) assigned (Ok (Falls assigned)) }
{
    if rows.rest().from <= rows.from + 1 {
        return Ok(DaOut::Falls(assigned));
    }
    unless_held_read(rows, local, assigned)
}

// Whether these rows refer to a local that is not written: an event is not evaluated, but vetted.
pub fn refers_unwritten(rows: Siblings, local: usize, assigned: bool) -> bool
    ensures { result ≡ not assigned && refers_in Skipped local (forest rows.entry) }
{
    !assigned && !reads::no_ref(rows, local)
}

// What a row is to the statement that holds it: what is_default, is_absent and unless_label_read ask of its class.
#[derive(Clone, Copy)]
pub enum Part {
    Match,
    Default,
    Absent,
    Statement,
}

fn part_of_class(class: StmtClass) -> Part
    ensures { result ≡ part_of_class class }
{
    match class {
        StmtClass::Match => Part::Match,
        StmtClass::Default => Part::Default,
        StmtClass::Absent | StmtClass::NoStmt => Part::Absent,
        _ => Part::Statement,
    }
}

// What the rules call a row as a part.
fn part_of_row(row: Node) -> Part
    ensures { result ≡ part_of_row row.entry.table.now row.entry.at }
{
    part_of_class(kinds::stmt_class(row.kind()))
}

// Whether a row is the default of a case.
pub fn is_default(row: Node) -> bool
    ensures { result ≡ is_default_part (part_of_row row.entry.table.now row.entry.at) }
{
    matches!(part_of_row(row), Part::Default)
}

// Whether no statement is the first of these rows.
pub fn is_absent(rows: Siblings) -> bool
    ensures { result ≡ is_absent_part (part_of rows.entry) }
{
    match rows.first() {
        Some(row) => matches!(part_of_row(row), Part::Absent),
        None => true,
    }
}

// The labels of an arm, which stand after its body.
fn unless_arm_read(row: Node, local: usize, assigned: bool) -> DaResult
    ensures { result ≡ unless_one_read (tail (facts_in local row.entry.table.now (row.entry.at + 1) row.entry.end)) assigned (Ok (Falls assigned)) }
{
    unless_one_read(row.children().rest(), local, assigned)
}

// The labels of the first of these rows, an arm of a case; a default has none.
pub fn unless_label_read(rows: Siblings, local: usize, assigned: bool) -> DaResult
    ensures { result ≡ unless_one_read (first_labels local rows.entry) assigned (Ok (Falls assigned)) }
{
    match rows.first() {
        Some(row) if matches!(part_of_row(row), Part::Match) => unless_arm_read(
            row, local, assigned,
        ),
        _ => Ok(DaOut::Falls(assigned)),
    }
}

// What a case comes to, from what its arms do: without a default no arm may run.
pub fn case_out(has_default: bool, after: bool, all: DaOut) -> DaOut
    ensures { result ≡ case_out has_default after all }
{
    if has_default && !after {
        return all;
    }
    DaOut::Falls(after)
}

fn falls_written(out: DaOut) -> bool
    ensures { result ≡ falls_written out }
{
    matches!(out, DaOut::Falls(true))
}

// loop_body_assigns, of a loop with this side number and its body, the first of these rows.
fn loop_body_assigns(side: usize, body: Siblings, out: DaOut) -> bool
    ensures { result ≡ body_assigns side (forest body.entry) out }
{
    falls_written(out) && side == 1 && loops::stmt_cannot_escape(body.head())
}

// Whether the local is written after the rounds of a loop. Where it is so after the condition, the body is not looked at.
pub fn rounds_write(side: usize, body: Siblings, out: DaOut, after: bool) -> bool
    ensures { result ≡ after || body_assigns side (forest body.entry) out }
{
    after || loop_body_assigns(side, body, out)
}
