// The call that a server makes: a sheet is loaded into the two tables lent, and asked.
#![tactic(auto)]

ghost use Rattle.std.specs.Prelude.{◌≡◌, length};
ghost use Rattle.sheet.specs.Load.{load_of};
ghost use Rattle.answers.specs.Answers.{numbers_of};
ghost use Rattle.verdict.specs.Verdict.{verdict_of};
ghost use Rattle.verdict.specs.Meaning.{VerdictNumbers, VerdictMeans};

use answers::Answer;

// Whether every read of the local comes after a write in this sheet: load, then ask. Asking would not refuse what loading leaves, so the
// rows are walked at once. What is promised of an accepted sheet is the last clause. The tables end as loading leaves them: zeros after a
// refusal; after any other answer a caller can go on to ask for a name.
pub fn verdict(sheet: &[u8], rows: &mut [u32], names: &mut [u32]) -> Answer
    ensures value { result ≡ verdict_of sheet.now (length rows.old) (length names.old) }
    ensures row_table { rows.new ≡ (load_of sheet.now (length rows.old) (length names.old)).rows }
    ensures name_table { names.new ≡ (load_of sheet.now (length rows.old) (length names.old)).names }
    ensures numbers { VerdictNumbers (numbers_of result) }
    ensures demand_3 { VerdictMeans sheet.now result }
{
    match load::load(sheet, rows, names) {
        Ok(record) => ask::walk(record, rows, names),
        Err(refused) => Answer::Refused(refused.refusal, refused.place),
    }
}
