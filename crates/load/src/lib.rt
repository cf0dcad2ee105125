// Loading: from the bytes of a sheet to two lent tables and a record.
#![tactic(auto)]

ghost use Rattle.std.specs.Prelude.{◌≡◌, ◌++◌, ◌-◌, ◌≤◌, length, take, replicate};
ghost use Rattle.checks.specs.Checks.{passed, fields_of};
ghost use Rattle.sheet.specs.Load.{refusal_of, place_of, has_room, checked_answer, load_of};
ghost use Rattle.sheet.specs.Steps.{Room, FieldsRead, GoodFilled, finish_fronts};
ghost use Rattle.sheet.specs.Meaning.{LoadNumbers, LoadMeans};

use refusals::{Refusal, Refused};
use sheet::Loaded;
use sheet_record::Record;

// The check of the rows: refusals 7 to 9. Kinds and side numbers pass, since the lines have passed.
fn checked_answer(record: Record, rows: &[u32]) -> Loaded
    requires { («record».names ≤ 500) × (fields_of rows.now «record».rows «record».names ≡ passed) }
    ensures { result ≡ checked_answer «record» rows.now }
{
    match checks::check(rows, record.rows, record.names) {
        Ok(()) => Ok(record),
        Err(refused) => Err(Refused {
            refusal: refused.refusal,
            place: sheet::line_of(record, refused.place),
        }),
    }
}

// Zeros in the unused tails, then the checks.
fn clear_and_check(record: Record, rows: &mut [u32], names: &mut [u32]) -> Loaded
    requires room { Room «record» rows.old names.old }
    requires fields_read { FieldsRead «record» rows.old }
    ensures value { result ≡ (finish_fronts «record» rows.old names.old).answer }
    ensures filled { GoodFilled result (finish_fronts «record» rows.old names.old) rows.new names.new }
{
    rows[5 * record.rows..].fill(0);
    names[3 * record.names..].fill(0);
    checked_answer(record, rows)
}

// Whether tables of these lengths have room for a record's rows and names.
#[tactic(auto, unfolding(sheet::specs::Load::has_room))]
fn has_room(record: Record, rows: usize, names: usize) -> bool
    requires { («record».rows ≤ 2000) × («record».names ≤ 500) }
    ensures { result ≡ has_room rows names «record» }
{
    5 * record.rows <= rows && 3 * record.names <= names
}

// What follows good lines: 21, then what follows where there is room.
fn finish(record: Record, rows: &mut [u32], names: &mut [u32]) -> Loaded
    requires record_bound { («record».rows ≤ 2000) × («record».names ≤ 500) }
    requires fields_read { FieldsRead «record» rows.old }
    ensures value { result ≡ (finish_fronts «record» rows.old names.old).answer }
    ensures filled { GoodFilled result (finish_fronts «record» rows.old names.old) rows.new names.new }
{
    if !has_room(record, rows.len(), names.len()) {
        return Err(Refused {
            refusal: Refusal::NoRoom,
            place: 0,
        });
    }
    clear_and_check(record, rows, names)
}

// All of loading but the zeros of a refused one.
fn fill(s: &[u8], rows: &mut [u32], names: &mut [u32]) -> Loaded
    ensures value { result ≡ (load_of s.now (length rows.old) (length names.old)).answer }
    ensures filled { GoodFilled result (load_of s.now (length rows.old) (length names.old)) rows.new names.new }
{
    if 65536 < s.len() {
        return Err(Refused {
            refusal: Refusal::TooLong,
            place: 0,
        });
    }
    let record = sheet::read_lines(s, rows, names)?;
    finish(record, rows, names)
}

// Loads a sheet. A refusal leaves zeros in both tables, and so does a good load after the part that it fills.
pub fn load(sheet: &[u8], rows: &mut [u32], names: &mut [u32]) -> Loaded
    ensures value { result ≡ (load_of sheet.now (length rows.old) (length names.old)).answer }
    ensures row_table { rows.new ≡ (load_of sheet.now (length rows.old) (length names.old)).rows }
    ensures name_table { names.new ≡ (load_of sheet.now (length rows.old) (length names.old)).names }
    ensures numbers { LoadNumbers (refusal_of result) (place_of result) }
    ensures means { LoadMeans result rows.new names.new }
{
    let loaded = fill(sheet, rows, names);
    if loaded.is_err() {
        rows.fill(0);
        names.fill(0);
    }
    loaded
}
