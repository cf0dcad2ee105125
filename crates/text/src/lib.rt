// Bytes from a place on: where a field stops, the number that it spells, whether a key stands there. A place past the end has
// no byte.
#![tactic(auto)]

ghost use Rattle.std.specs.Prelude.{◌≡◌, true, not, ◌+◌, ◌≤◌, ◌<◌, length, drop, position};
ghost use Rattle.text.specs.Fields.{is_stop, stop_at, is_graphic, below};
ghost use Rattle.text.specs.Steps.{after_byte, after_key, more_value, more_count, first_value, first_count, field_from, field_read, graphic_line};
ghost use Rattle.text.specs.Numbers.{bounded, number_of};

// What a field says, if it says anything, and the place after the byte that ends it.
#[derive(Clone, Copy)]
pub struct Field {
    pub value: Option<u32>,
    pub next: usize,
}

// The number of some digits, if it is one, and the place after them.
#[derive(Clone, Copy)]
struct Run {
    value: Option<u32>,
    stop: usize,
}

// Whether byte 10 ends a line whose text has only bytes from 33 to 126, the place of the first other byte, and the place after the
// line, if byte 10 ends it.
#[derive(Clone, Copy)]
pub struct GraphicLine {
    pub all: bool,
    pub stop: usize,
    pub next: Option<usize>,
}

// The bytes from a place on.
fn rest(s: &[u8], at: usize) -> &[u8]
    ensures { result.now ≡ drop at s.now }
{
    s.get(at..).unwrap_or(&[])
}

// The place after this byte, if it stands at a place.
#[tactic(auto, using(crate::proofs::Places::byte_past, crate::proofs::Places::byte_is, crate::proofs::Places::byte_other))]
pub fn after_byte(s: &[u8], at: usize, byte: u8) -> Option<usize>
    ensures { result ≡ after_byte byte s.now at }
{
    if *s.get(at)? == byte {
        Some(at + 1)
    } else {
        None
    }
}

#[tactic(auto, unfolding(crate::specs::Fields::is_stop))]
fn is_stop(b: u8, sep: u8) -> bool
    ensures { result ≡ is_stop sep b }
{
    b == sep || b == b'\n'
}

fn first_stop(t: &[u8], sep: u8) -> Option<usize>
    ensures { result ≡ position (is_stop sep) t.now }
{
    t.iter().position(|b| is_stop(*b, sep))
}

// The place of the first byte `sep` or byte 10 from a place on, or the end.
#[tactic(auto, using(crate::proofs::Stops::stop_found))]
pub fn stop_at(s: &[u8], at: usize, sep: u8) -> usize
    ensures { result ≡ stop_at sep s.now at }
{
    let rest = rest(s, at);
    at + first_stop(rest, sep).unwrap_or(rest.len())
}

#[tactic(auto, unfolding(crate::specs::Numbers::bounded))]
fn bounded(value: u64) -> Option<u32>
    ensures { result ≡ bounded value }
{
    u32::try_from(value).ok()
}

// The digits after a first one, as far as the number is below 4,294,967,300. By place: slices of what is left were tried, and take 55
// instructions a row more, of 235.
fn more_digits(s: &[u8], at: usize, first: u64) -> Run
    requires { first ≤ 9 }
    ensures value { result.value ≡ bounded (more_value first (drop at s.now)) }
    ensures stop { result.stop ≡ at + more_count first (drop at s.now) }
{
    let mut value = first;
    for stop in at..s.len() {
        let b = s[stop];
        if !b.is_ascii_digit() || 429496729 < value {
            return Run {
                value: bounded(value),
                stop,
            };
        }
        value = value * 10 + u64::from(b - b'0');
    }
    Run {
        value: bounded(value),
        stop: at.max(s.len()),
    }
}

// The digits from a place on: none where no digit stands there, and no more after a zero.
#[tactic(auto, using(crate::proofs::Runs::zero_value, crate::proofs::Runs::zero_count))]
fn first_digits(s: &[u8], at: usize) -> Run
    ensures value { result.value ≡ first_value (drop at s.now) }
    ensures stop { result.stop ≡ at + first_count (drop at s.now) }
{
    match s.get(at) {
        Some(b'0') => Run {
            value: Some(0),
            stop: at + 1,
        },
        Some(b) if b.is_ascii_digit() => more_digits(s, at + 1, u64::from(*b - b'0')),
        _ => Run {
            value: None,
            stop: at,
        },
    }
}

// The field whose bytes up to a place were read and say this. Where it has more of them, it says nothing; where another byte than `end` ends
// it, or none, there is no field.
#[tactic(auto, using(crate::proofs::FieldReads::from_ended, crate::proofs::FieldReads::from_far, crate::proofs::FieldReads::from_never))]
pub fn field_from(s: &[u8], stop: usize, sep: u8, end: u8, value: Option<u32>) -> Option<Field>
    ensures { result ≡ field_from value sep end s.now stop }
{
    if let Some(next) = after_byte(s, stop, end) {
        return Some(Field { value, next });
    }
    let next = after_byte(s, stop_at(s, stop, sep), end)?;
    Some(Field { value: None, next })
}

// The field at a place, with the number that it spells.
pub fn number(s: &[u8], at: usize, sep: u8, end: u8) -> Option<Field>
    requires { (sep ≤ 32) × (is_stop sep end ≡ true) }
    ensures { result ≡ field_read number_of sep end s.now at }
{
    let read = first_digits(s, at);
    field_from(s, read.stop, sep, end, read.value)
}

// The place after a key, if it stands at a place.
#[tactic(auto, using(crate::proofs::Places::begins, crate::proofs::Places::key_is, crate::proofs::Places::key_other))]
pub fn after_key(s: &[u8], at: usize, key: &[u8]) -> Option<usize>
    requires { 0 < length key.now }
    ensures { result ≡ after_key key.now s.now at }
{
    if rest(s, at).starts_with(key) {
        Some(at + key.len())
    } else {
        None
    }
}

#[tactic(auto, unfolding(crate::specs::Fields::is_graphic))]
fn first_not_graphic(t: &[u8]) -> Option<usize>
    ensures { result ≡ position (λ b. not (is_graphic b)) t.now }
{
    t.iter().position(|b| !b.is_ascii_graphic())
}

// The text from a place up to the end of its line.
#[tactic(auto, using(crate::proofs::Stops::graphic_found, crate::proofs::GraphicLaws::line_ended, crate::proofs::GraphicLaws::line_far))]
pub fn graphic_line(s: &[u8], at: usize) -> GraphicLine
    ensures { result ≡ graphic_line s.now at }
{
    let rest = rest(s, at);
    let stop = at + first_not_graphic(rest).unwrap_or(rest.len());
    let next = after_byte(s, stop, b'\n');
    if next.is_some() {
        return GraphicLine {
            all: true,
            stop,
            next,
        };
    }
    GraphicLine {
        all: false,
        stop,
        next: after_byte(s, stop_at(s, stop, b'\n'), b'\n'),
    }
}

// Whether the first text comes before the second in byte order.
#[tactic(auto, using(crate::proofs::Order::in_order))]
pub fn is_below(a: &[u8], b: &[u8]) -> bool
    ensures { result ≡ below a.now b.now }
{
    a.cmp(b).is_lt()
}
