// What is told of a loaded sheet beside its rows: the record, and the name table, three numbers a name.
#![tactic(auto)]

ghost use Rattle.std.specs.Prelude.{◌≡◌, ◌+◌, ◌*◌, ◌≤◌, ◌<◌, leb, length};
ghost use Rattle.sheet_record.specs.Records.{record_fits, record_held, offset_at, size_at, mark_at, marks_fit};

// What loading tells beside the tables: "counts of names and rows, local, start, sole". All are numbers, since a caller may lend any record:
// `record_fits` refuses a start or sole that is neither 0 nor 1.
#[derive(Clone, Copy, Default)]
pub struct Record {
    pub names: usize,
    pub rows: usize,
    pub local: usize,
    pub start: usize,
    pub sole: usize,
}

// Whether a record's numbers are in the ranges that loading keeps.
#[tactic(auto, unfolding(crate::specs::Records::record_fits))]
pub fn record_fits(record: Record) -> bool
    ensures { result ≡ record_fits «record» }
{
    (1..=500).contains(&record.names)
        && (1..=2000).contains(&record.rows)
        && record.local < record.names
        && record.start <= 1
        && record.sole <= 1
}

// Whether a name table has its three numbers for each name.
pub fn names_held(record: Record, numbers: usize) -> bool
    requires { «record».names ≤ 500 }
    ensures { result ≡ leb (3 * «record».names) numbers }
{
    3 * record.names <= numbers
}

// Whether a record's numbers are in their ranges, and two tables of these lengths hold its rows and names.
#[tactic(auto, using(crate::proofs::Ranges::fits_names, crate::proofs::Ranges::fits_rows), unfolding(crate::specs::Records::record_held))]
pub fn record_held(record: Record, rows: usize, names: usize) -> bool
    ensures { result ≡ record_held «record» rows names }
{
    record_fits(record) && 5 * record.rows <= rows && names_held(record, names)
}

// The three numbers of a name. Each is one index: a function with the number as a const parameter below them would add a call and no fewer lines.
pub fn offset_at(names: &[u32], number: usize) -> usize
    requires { 3 * number + 2 < length names.now }
    ensures { result ≡ offset_at names.now number }
{
    names[3 * number] as usize
}

pub fn size_at(names: &[u32], number: usize) -> usize
    requires { 3 * number + 2 < length names.now }
    ensures { result ≡ size_at names.now number }
{
    names[3 * number + 1] as usize
}

pub fn mark_at(names: &[u32], number: usize) -> usize
    requires { 3 * number + 2 < length names.now }
    ensures { result ≡ mark_at names.now number }
{
    names[3 * number + 2] as usize
}

// Whether each jump mark of the first names of a table is 0 or 1.
pub fn marks_fit(names: &[u32], count: usize) -> bool
    requires { 3 * count ≤ length names.now }
    ensures { result ≡ marks_fit names.now count }
{
    (0..count).all(|i| mark_at(names, i) <= 1)
}
