// Asking: a record and two tables that somebody lends are checked, and the walk answers. `ask` asks nothing of its caller; `walk` is for
// whoever knows that the tables pass. Nothing is written.
#![tactic(auto)]

ghost use Rattle.std.specs.Prelude.{◌≡◌};
ghost use Rattle.checks.specs.Checks.{passed};
ghost use Rattle.answers.specs.Answers.{numbers_of};
ghost use Rattle.ask.specs.Ask.{table_checked, walk_answer, walked, table_answer, ask_of};
ghost use Rattle.ask.specs.Meaning.{AskNumbers, AskMeans};

use answers::Answer;
use da::{DaOut, DaResult};
use da_rows::Context;
use refusals::Refusal;
use sheet_record::Record;
use table::Siblings;

fn walk_answer(res: DaResult) -> Answer
    ensures { result ≡ walk_answer res }
{
    match res {
        Ok(DaOut::Falls(written)) => Answer::Falls(written),
        Ok(DaOut::Jumps) => Answer::Jumps,
        Err(stop) => Answer::GivesUp(stop),
    }
}

// The walk of row 0, from the record's start, in a table that passes the check.
// A record's flags are numbers, since a caller may lend any record: 1 is set, as the definition says.
pub fn walk(record: Record, rows: &[u32], names: &[u32]) -> Answer
    requires { table_checked «record» rows.now ≡ passed }
    ensures { result ≡ walk_answer (walked «record» rows.now names.now) }
{
    let ctx = Context {
        names,
        local: record.local,
        sole: record.sole == 1,
    };
    let table = Siblings {
        table: rows,
        from: 0,
        to: record.rows,
    };
    walk_answer(da_walk::da_stmt(&ctx, table, record.start == 1))
}

// The check of the rows, then the walk.
fn table_answer(record: Record, rows: &[u32], names: &[u32]) -> Answer
    ensures { result ≡ table_answer «record» rows.now names.now }
{
    match checks::check(rows, record.rows, record.names) {
        Ok(()) => walk(record, rows, names),
        Err(refused) => Answer::Refused(Refusal::WrongTable, refused.place),
    }
}

// Whether every read of the local comes after a write, in the sheet that these tables hold.
pub fn ask(record: Record, rows: &[u32], names: &[u32]) -> Answer
    ensures value { result ≡ ask_of «record» rows.now names.now }
    ensures numbers { AskNumbers «record» (numbers_of result) }
    ensures means { AskMeans «record» rows.now names.now result }
{
    if !sheet_record::record_held(record, rows.len(), names.len()) {
        return Answer::Refused(Refusal::WrongRecord, 0);
    }
    if !sheet_record::marks_fit(names, record.names) {
        return Answer::Refused(Refusal::WrongTable, 0);
    }
    table_answer(record, rows, names)
}
