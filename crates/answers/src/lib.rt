// What the caller of asking gets: one of four answers, its numbers, and its text.
#![tactic(auto)]

ghost use Rattle.std.specs.Prelude.{◌≡◌, ◌+◌, ◌≤◌, length, take};
ghost use Rattle.writing.specs.Putting.{PutAt};
ghost use Rattle.answers.specs.Answers.{is_accepted, numbers_of, answer_text, filled_text};
ghost use Rattle.answers.specs.Steps.{word_text, outcome_text, stop_text};

use da::DaGiveUp;
use refusals::Refusal;
pub use writing::Text;

// One of: falls with written or not; jumps; a give-up with reason, lo and hi; a refusal with its place. These two are no `Refused`: three of
// the four who answer so name them apart.
#[derive(Clone, Copy)]
pub enum Answer {
    Falls(bool),
    Jumps,
    GivesUp(DaGiveUp),
    Refused(Refusal, usize),
}

// An answer in numbers: which of the four it is, from 0 on, and its values, of which the unused are 0.
#[derive(Clone, Copy, Default)]
pub struct Numbers {
    pub answer: usize,
    pub state: usize,
    pub reason: usize,
    pub lo: usize,
    pub hi: usize,
}

// Whether an answer is accepted.
pub fn accepted(answer: Answer) -> bool
    ensures { result ≡ is_accepted answer }
{
    matches!(answer, Answer::Falls(_) | Answer::Jumps)
}

// Document 01's numbers of an answer.
pub fn numbers_of(answer: Answer) -> Numbers
    ensures { result ≡ numbers_of answer }
{
    match answer {
        Answer::Falls(written) => Numbers {
            state: usize::from(written),
            ..Numbers::default()
        },
        Answer::Jumps => Numbers {
            answer: 1,
            ..Numbers::default()
        },
        Answer::GivesUp(stop) => Numbers {
            answer: 2,
            reason: stop.reason as usize,
            lo: stop.lo as usize,
            hi: stop.hi as usize,
            ..Numbers::default()
        },
        Answer::Refused(refusal, place) => Numbers {
            answer: 3,
            reason: refusals::number_of(refusal),
            lo: place,
            ..Numbers::default()
        },
    }
}

// The first key with its word.
#[tactic(auto, unfolding(crate::specs::Steps::word_text))]
fn word_of(answer: Answer) -> &'static [u8]
    ensures text { result.now ≡ word_text answer }
    ensures short { length result.now ≤ 14 }
{
    match answer {
        Answer::Falls(_) => b"answer=falls",
        Answer::Jumps => b"answer=jumps",
        Answer::GivesUp(_) => b"answer=giveup",
        Answer::Refused(..) => b"answer=refused",
    }
}

// The first two fields.
#[tactic(auto, using(writing::proofs::FieldLaws::field_fits))]
fn put_outcome(text: &mut Text, answer: Answer, state: usize, separator: u8)
    requires { text.old.size + 42 ≤ 128 }
    ensures put_at { PutAt text.old.bytes text.old.size (outcome_text separator answer state) text.new.bytes text.new.size }
    ensures short { text.new.size ≤ text.old.size + 42 }
{
    text.put_text(word_of(answer));
    text.put_byte(separator);
    text.put_field(b"state=", state, separator);
}

// The last three fields.
#[tactic(auto, using(writing::proofs::FieldLaws::field_fits))]
fn put_stop(text: &mut Text, reason: usize, lo: usize, hi: usize, separator: u8)
    requires { text.old.size + 76 ≤ 128 }
    ensures put_at { PutAt text.old.bytes text.old.size (stop_text separator reason lo hi) text.new.bytes text.new.size }
    ensures short { text.new.size ≤ text.old.size + 76 }
{
    text.put_field(b"reason=", reason, separator);
    text.put_field(b"lo=", lo, separator);
    text.put_field(b"hi=", hi, b'\n');
}

// The text of an answer: five fields, each with its key, a separator between two of them and byte 10 at the end.
pub fn text_of(answer: Answer, separator: u8) -> Text
    ensures value { result ≡ filled_text separator answer }
    ensures room { 128 ≡ length result.bytes }
    ensures short { result.size ≤ 128 }
    ensures front { take result.size result.bytes ≡ answer_text separator answer }
{
    let mut text = Text::new();
    let n = numbers_of(answer);
    put_outcome(&mut text, answer, n.state, separator);
    put_stop(&mut text, n.reason, n.lo, n.hi, separator);
    text
}
