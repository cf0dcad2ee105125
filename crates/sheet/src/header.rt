// The lines of a sheet that hold one number each: two before the names, four after them. What they are stands in two tables, from which
// they are read.
ghost use Rattle.std.specs.Prelude.{◌≡◌, ◌≤◌, List, length};
ghost use Rattle.sheet.specs.Header.{HeaderLine, greatest, head_lines, fact_lines};
ghost use Rattle.sheet.specs.Sections.{lines_from, number_step, head_from, facts_from};
ghost use Rattle.sheet.specs.Steps.{limit_of, KeysHeld, Keys, numbers_of, head_of, facts_of};

use super::at_line;
use lines::Line;
use refusals::Refused;
use sheet_record::Record;

// The greatest number that a line may hold: one that is given, or the greatest below the count of names.
#[derive(Clone, Copy)]
enum Limit {
    AtMost(usize),
    BelowNames,
}

impl Limit {
    fn among(self, names: usize) -> usize
        ensures { result ≡ greatest (limit_of self) names }
    {
        match self {
            Limit::AtMost(n) => n,
            Limit::BelowNames => names.saturating_sub(1),
        }
    }
}

// A line's key, and the least and the greatest number that it may hold.
#[derive(Clone, Copy)]
struct KeyLine {
    key: &'static [u8],
    low: usize,
    high: Limit,
}

// The lines before the names, the line of the first name, and the lines between names and rows.
const HEAD_LINES: usize = 2;

pub const FIRST_NAME: usize = HEAD_LINES + 1;

pub const FACT_LINES: usize = 4;

const HEAD: [KeyLine; HEAD_LINES] = [
    KeyLine {
        key: b"sheet=",
        low: 1,
        high: Limit::AtMost(1),
    },
    KeyLine {
        key: b"names=",
        low: 1,
        high: Limit::AtMost(500),
    },
];

const FACTS: [KeyLine; FACT_LINES] = [
    KeyLine {
        key: b"local=",
        low: 0,
        high: Limit::BelowNames,
    },
    KeyLine {
        key: b"start=",
        low: 0,
        high: Limit::AtMost(1),
    },
    KeyLine {
        key: b"sole=",
        low: 0,
        high: Limit::AtMost(1),
    },
    KeyLine {
        key: b"rows=",
        low: 1,
        high: Limit::AtMost(2000),
    },
];

// The numbers on the lines of a table, with so many names, and where the line after them starts. The first of them is line `first` of the
// sheet.
fn numbers_from<const N: usize>(
    s: &[u8],
    from: usize,
    header: &[KeyLine],
    names: usize,
    first: usize,
) -> Result<Line<[usize; N]>, Refused>
    requires keys { KeysHeld header.now }
    requires sizes { (length header.now ≡ N) × (first ≤ 2500) }
    ensures { (told : List HeaderLine) → Keys header.now told → result ≡ numbers_of (lines_from (number_step names s.now) (length told) told from first) }
{
    let mut numbers = [0; N];
    let mut at = from;
    for (i, line) in header.iter().enumerate() {
        let high = line.high.among(names);
        let read = at_line(
            first + i,
            lines::number_line(s, at, line.key, line.low, high),
        )?;
        numbers[i] = read.value;
        at = read.next;
    }
    Ok(Line {
        value: numbers,
        next: at,
    })
}

// The two lines before the names: the count of names, and where they start.
pub fn head_of(s: &[u8]) -> Result<Line<usize>, Refused>
    ensures { result ≡ head_of (head_from s.now) }
{
    let head = numbers_from::<HEAD_LINES>(s, 0, &HEAD, 0, 1)?;
    let [_, names] = head.value;
    Ok(Line {
        value: names,
        next: head.next,
    })
}

// The four lines after the names: the record, and where the rows start.
pub fn facts_from(s: &[u8], at: usize, names: usize) -> Result<Line<Record>, Refused>
    requires { names ≤ 500 }
    ensures { result ≡ facts_of names (facts_from names s.now at) }
{
    let facts = numbers_from::<FACT_LINES>(s, at, &FACTS, names, FIRST_NAME + names)?;
    let [local, start, sole, rows] = facts.value;
    Ok(Line {
        value: Record {
            names,
            rows,
            local,
            start,
            sole,
        },
        next: facts.next,
    })
}
