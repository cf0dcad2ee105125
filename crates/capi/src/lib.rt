// The calls for programs in C and Rust: numbers, slices and arrays of a fixed length, so that no call can be lent too short a
// place for its answer. `include/da.h` declares them. A result is true exactly where the caller may go on: loaded, accepted, found.
#![tactic(auto)]

ghost use Rattle.std.specs.Prelude.{◌≡◌, length, is_ok};
ghost use Rattle.sheet.specs.Load.{load_of};
ghost use Rattle.sheet.specs.Meaning.{LoadMeans};
ghost use Rattle.answers.specs.Answers.{is_accepted};
ghost use Rattle.ask.specs.Ask.{ask_of};
ghost use Rattle.verdict.specs.Verdict.{verdict_of};
ghost use Rattle.names.specs.NameText.{name_place};
ghost use Rattle.capi.specs.Numbers.{most_row_numbers, most_name_numbers, RoomFor, answer_numbers, loaded_numbers, refusal_numbers, record_from, place_numbers};
ghost use Rattle.capi.specs.Meaning.{TrueMeans, AskedTrueMeans};

use answers::Answer;
use names::Span;
use refusals::Refusal;
use sheet::Loaded;
use sheet_record::Record;

// How many numbers a row table needs to hold every sheet.
#[unsafe(no_mangle)]
pub extern "C" fn da_row_numbers() -> usize
    ensures value { result ≡ most_row_numbers }
    ensures room { RoomFor result most_name_numbers }
{
    10000
}

// How many numbers a name table needs to hold every sheet.
#[unsafe(no_mangle)]
pub extern "C" fn da_name_numbers() -> usize
    ensures value { result ≡ most_name_numbers }
    ensures room { RoomFor most_row_numbers result }
{
    1500
}

// An answer's five numbers for C.
fn tell_answer(answer: Answer, out: &mut [usize; 5])
    ensures { out.new ≡ answer_numbers answer }
{
    let n = answers::numbers_of(answer);
    *out = [n.answer, n.state, n.reason, n.lo, n.hi];
}

// A loaded record's five numbers for C, zeros where the load was refused.
fn tell_record(loaded: Loaded, out: &mut [usize; 5])
    ensures { out.new ≡ loaded_numbers loaded }
{
    let r = sheet::record_of(loaded);
    *out = [r.names, r.rows, r.local, r.start, r.sole];
}

// A refused load's number and line for C, zeros where it was not refused.
fn tell_refusal(loaded: Loaded, out: &mut [usize; 2])
    ensures { out.new ≡ refusal_numbers loaded }
{
    *out = [sheet::refusal_of(loaded), sheet::place_of(loaded)];
}

// Loads a sheet into two lent tables.
#[unsafe(no_mangle)]
pub extern "C" fn da_load(
    sheet: &[u8],
    rows: &mut [u32],
    names: &mut [u32],
    record: &mut [usize; 5],
    refusal: &mut [usize; 2],
) -> bool
    ensures value { result ≡ is_ok (load_of sheet.now (length rows.old) (length names.old)).answer }
    ensures facts { «record».new ≡ loaded_numbers (load_of sheet.now (length rows.old) (length names.old)).answer }
    ensures refused { refusal.new ≡ refusal_numbers (load_of sheet.now (length rows.old) (length names.old)).answer }
    ensures row_table { rows.new ≡ (load_of sheet.now (length rows.old) (length names.old)).rows }
    ensures name_table { names.new ≡ (load_of sheet.now (length rows.old) (length names.old)).names }
    ensures means { LoadMeans (load_of sheet.now (length rows.old) (length names.old)).answer rows.new names.new }
{
    let loaded = load::load(sheet, rows, names);
    tell_record(loaded, record);
    tell_refusal(loaded, refusal);
    loaded.is_ok()
}

// A record from C's five numbers.
#[tactic(auto, unfolding(crate::specs::Numbers::record_from))]
fn record_from(numbers: &[usize; 5]) -> Record
    ensures { result ≡ record_from numbers.now }
{
    let [names, rows, local, start, sole] = *numbers;
    Record {
        names,
        rows,
        local,
        start,
        sole,
    }
}

// Whether every read of the local comes after a write, in the sheet that a record and two tables hold.
#[unsafe(no_mangle)]
pub extern "C" fn da_ask(
    record: &[usize; 5],
    rows: &[u32],
    names: &[u32],
    answer: &mut [usize; 5],
) -> bool
    ensures value { result ≡ is_accepted (ask_of (record_from «record».now) rows.now names.now) }
    ensures told { answer.new ≡ answer_numbers (ask_of (record_from «record».now) rows.now names.now) }
    ensures demand_3 { AskedTrueMeans (record_from «record».now) rows.now names.now result }
{
    let asked = ask::ask(record_from(record), rows, names);
    tell_answer(asked, answer);
    answers::accepted(asked)
}

// Whether every read of the local comes after a write in this sheet.
#[unsafe(no_mangle)]
pub extern "C" fn da_verdict(
    sheet: &[u8],
    rows: &mut [u32],
    names: &mut [u32],
    answer: &mut [usize; 5],
) -> bool
    ensures value { result ≡ is_accepted (verdict_of sheet.now (length rows.old) (length names.old)) }
    ensures told { answer.new ≡ answer_numbers (verdict_of sheet.now (length rows.old) (length names.old)) }
    ensures row_table { rows.new ≡ (load_of sheet.now (length rows.old) (length names.old)).rows }
    ensures name_table { names.new ≡ (load_of sheet.now (length rows.old) (length names.old)).names }
    ensures demand_3 { TrueMeans sheet.now result }
{
    let told = verdict::verdict(sheet, rows, names);
    tell_answer(told, answer);
    answers::accepted(told)
}

// A place's three numbers for C: offset, length and the refusal's number.
fn tell_place(named: Result<Span, Refusal>, out: &mut [usize; 3])
    ensures { out.new ≡ place_numbers named }
{
    *out = match named {
        Ok(span) => [span.offset, span.size, 0],
        Err(refusal) => [0, 0, refusals::number_of(refusal)],
    };
}

// Where a name's text stands in the sheet that was loaded: C has no part of a slice to be given.
#[unsafe(no_mangle)]
pub extern "C" fn da_name(
    sheet: &[u8],
    record: &[usize; 5],
    names: &[u32],
    number: usize,
    place: &mut [usize; 3],
) -> bool
    ensures value { result ≡ is_ok (name_place sheet.now (record_from «record».now) names.now number) }
    ensures told { place.new ≡ place_numbers (name_place sheet.now (record_from «record».now) names.now number) }
{
    let named = names::name_place(sheet, record_from(record), names, number);
    tell_place(named, place);
    named.is_ok()
}
