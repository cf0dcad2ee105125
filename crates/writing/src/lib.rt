// Texts and numbers put one after the other: into a slice of bytes that the caller lends, from a place on, where each `put` answers the place after
// what it put; or into a text that has room for 128 bytes.
#![tactic(auto)]

ghost use Rattle.std.specs.Prelude.{◌≡◌, [], ◌∷◌, ◌+◌, ◌≤◌, length, take, replicate};
ghost use Rattle.writing.specs.Spelling.{spelled, field_text};
ghost use Rattle.writing.specs.Putting.{PutAt};

use itoa::Buffer;

// One byte.
pub fn put_byte(out: &mut [u8], at: usize, byte: u8) -> usize
    requires { at + 1 ≤ length out.old }
    ensures { PutAt out.old at (byte ∷ []) out.new result }
{
    out[at] = byte;
    at + 1
}

// A text.
pub fn put_text(out: &mut [u8], at: usize, text: &[u8]) -> usize
    requires { at + length text.now ≤ length out.old }
    ensures { PutAt out.old at text.now out.new result }
{
    let end = at + text.len();
    out[at..end].copy_from_slice(text);
    end
}

// The decimal text of a number.
fn put_number(out: &mut [u8], at: usize, n: usize) -> usize
    requires { at + length (spelled n) ≤ length out.old }
    ensures { PutAt out.old at (spelled n) out.new result }
{
    let mut buffer = Buffer::new();
    put_text(out, at, buffer.format(n).as_bytes())
}

// A key, the number that is its value, and a byte that ends them: a number has at most 20 digits.
pub fn put_field(out: &mut [u8], at: usize, key: &[u8], n: usize, end: u8) -> usize
    requires { at + length (field_text key.now (spelled n) end) ≤ length out.old }
    ensures put_at { PutAt out.old at (field_text key.now (spelled n) end) out.new result }
    ensures short { result ≤ at + length key.now + 21 }
{
    let value = put_text(out, at, key);
    let stop = put_number(out, value, n);
    put_byte(out, stop, end)
}

pub const ROOM: usize = 128;

// A buffer, and how many of its bytes are put so far. It is no arrayvec, of which no clause tells what stands after the items: whoever has a
// text is promised the zeros there (`filled_text` of `answers`).
#[derive(Drop)]
pub struct Text {
    pub bytes: [u8; ROOM],
    pub size: usize,
}

impl Text {
    // No byte yet.
    pub fn new() -> Self
        ensures bytes { result.bytes ≡ replicate 128 0 }
        ensures size { result.size ≡ 0 }
    {
        Text {
            bytes: [0; ROOM],
            size: 0,
        }
    }

    pub fn as_bytes(&self) -> &[u8]
        requires { self.now.size ≤ 128 }
        ensures { result.now ≡ take self.now.size self.now.bytes }
    {
        &self.bytes[..self.size]
    }

    pub fn put_byte(&mut self, byte: u8)
        requires { self.old.size + 1 ≤ 128 }
        ensures { PutAt self.old.bytes self.old.size (byte ∷ []) self.new.bytes self.new.size }
    {
        self.size = put_byte(&mut self.bytes, self.size, byte);
    }

    pub fn put_text(&mut self, text: &[u8])
        requires { self.old.size + length text.now ≤ 128 }
        ensures { PutAt self.old.bytes self.old.size text.now self.new.bytes self.new.size }
    {
        self.size = put_text(&mut self.bytes, self.size, text);
    }

    // A key, the number that is its value, and a byte that ends them: a number has at most 20 digits.
    pub fn put_field(&mut self, key: &[u8], n: usize, end: u8)
        requires { self.old.size + length (field_text key.now (spelled n) end) ≤ 128 }
        ensures put_at { PutAt self.old.bytes self.old.size (field_text key.now (spelled n) end) self.new.bytes self.new.size }
        ensures short { self.new.size ≤ self.old.size + length key.now + 21 }
    {
        self.size = put_field(&mut self.bytes, self.size, key, n, end);
    }
}
