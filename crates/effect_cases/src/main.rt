// The reference test and the effect of expressions: one line out for each line of standard input, `title|local|rows`.
//
// Rows are written in preorder, split by spaces. A row is its kind, by word or number, and after a dot its side, 0 where none is
// given; in brackets after it stand the rows that it holds, so the ends need not be written. `&&`, `||` and `!` are binary.1, binary.2
// and unary.1. Three words stand for several rows: `x` is ident(path(seg.0)), `c` is ident(path(seg.1)), and `w` is w(x), a call that
// writes, call.1(path(seg.2) ident(path(seg.0))). `[n:text]` is the text n times. lo and hi are free.
//
// Out come the rows of the first mention, with the iff of events skipped and included, `-` where there is none; then, where row 0 is a
// statement, what stmt_no_ref says, and where it is an expression or a target, its effect and whether the local is written once its
// value is true, and false. Rows whose ends or depth do not pass the check are refused: nobody may ask about them. A read or a write
// that fails ends the run with its error.
#![tactic(auto)]

ghost use Rattle.std.specs.Prelude.{◌≤◌};
ghost use Rattle.case_text.specs.RowTexts.{EndsKept};

use effect_rules::{ExprDa, ExprEffect};
use reads::Iff;
use std::io;
use table::Siblings;

const MOST_ROWS: usize = 2001;

const NUMBERS: usize = 10005;

// Rows that are added one after the other, in front of zeros.
#[derive(Drop)]
struct Rows {
    numbers: [u32; NUMBERS],
    count: usize,
    ghost few: { count ≤ 2001 },
}

impl Rows {
    // Adds a row that holds so many of the rows after it. A row past the 2,001st is dropped.
    fn add(&mut self, kind: u32, side: u32, held: u8) {
        if self.count < MOST_ROWS {
            let end = self.count as u32 + 1 + u32::from(held);
            case_text::set_row(&mut self.numbers, self.count, kind, side, end);
            self.count += 1;
        }
    }

    fn add_ident(&mut self, name: u32) {
        self.add(41, 0, 2);
        self.add(1, 0, 1);
        self.add(2, name, 0);
    }

    fn add_write(&mut self) {
        self.add(54, 1, 5);
        self.add(1, 0, 1);
        self.add(2, 2, 0);
        self.add_ident(0);
    }

    fn add_word(&mut self, word: &[u8]) {
        match word {
            [] => {}
            b"x" => self.add_ident(0),
            b"c" => self.add_ident(1),
            b"w" => self.add_write(),
            [b'&', ..] => self.add(43, 1, 0),
            [b'|', ..] => self.add(43, 2, 0),
            [b'!', ..] => self.add(42, 1, 0),
            _ => {
                let (kind, side) = case_text::split(word, b'.');
                self.add(case_text::read_kind(kind), case_text::field(side), 0);
            }
        }
    }

    // Opens the last row: its end is 0 until it is closed.
    fn open(&mut self) {
        if 0 < self.count {
            self.numbers[5 * self.count - 1] = 0;
        }
    }

    // Ends the last row that is open.
    fn close(&mut self) {
        for i in (0..self.count).rev() {
            if self.numbers[5 * i + 4] == 0 {
                self.numbers[5 * i + 4] = self.count as u32;
                return;
            }
        }
    }

    fn add_all(&mut self, text: &[u8]) {
        for part in text.split_inclusive(|b| matches!(*b, b' ' | b'(' | b')')) {
            match part {
                [word @ .., b'('] => {
                    self.add_word(word);
                    self.open();
                }
                [word @ .., b')'] => {
                    self.add_word(word);
                    self.close();
                }
                [word @ .., b' '] => self.add_word(word),
                word => self.add_word(word),
            }
        }
    }

    // Adds the rows of `n:text`.
    fn add_repeated(&mut self, text: &[u8]) {
        let (count, part) = case_text::split(text, b':');
        for _ in 0..case_text::decimal(count) {
            self.add_all(part);
        }
    }

    // Adds the rows that a text gives.
    fn add_text(&mut self, text: &[u8]) {
        for part in text.split_inclusive(|b| *b == b']') {
            let (plain, repeated) = case_text::split(case_text::split(part, b']').0, b'[');
            self.add_all(plain);
            self.add_repeated(repeated);
        }
    }
}

fn say_mention(rt: &impl Print, mention: Option<usize>) -> io::Result<()> {
    match mention {
        Some(row) => print!(rt; " {row}"),
        None => rt.write_all(b" -"),
    }
}

fn say_effect(rt: &impl Print, effect: ExprEffect) -> io::Result<()> {
    let word = match effect.effect {
        ExprDa::Clean => "Clean",
        ExprDa::Writes => "Writes",
        ExprDa::Reads => "Reads",
    };
    print!(rt;
        ", {word} {} {}",
        u8::from(effect.when_true),
        u8::from(effect.when_false)
    )
}

// Kinds from 40 on are of expressions and targets.
fn answer(rt: &impl Print, rows: Siblings, local: usize) -> io::Result<()> {
    rt.write_all(b": first")?;
    say_mention(rt, reads::first_mention(rows, Iff::Skipped, local))?;
    say_mention(rt, reads::first_mention(rows, Iff::Included, local))?;
    let Some(row) = rows.first() else {
        return Ok(());
    };
    let kind = row.kind();
    if kinds::is_statement(kind) {
        print!(rt; ", no_ref {}", u8::from(reads::stmt_no_ref(rows, local)))
    } else if 40 <= kind {
        say_effect(rt, expr_effect::expr_writes_when(rows, local))
    } else {
        Ok(())
    }
}

// The ends are checked on the same rows as blocks, since these need be neither a statement's nor fit their kinds. Nobody may ask about rows
// that are refused, whatever for.
fn check_and_answer(
    rt: &impl Print,
    rows: &[u32],
    blocks: &[u32],
    count: usize,
    local: usize,
) -> io::Result<()>
    requires { EndsKept rows.now blocks.now }
{
    match checks::check(blocks, count, 1) {
        Ok(()) => {
            let all = Siblings {
                table: rows,
                from: 0,
                to: count,
            };
            answer(rt, all, local)
        }
        Err(_) => rt.write_all(b": refused"),
    }
}

fn report(rt: &impl Print, title: &[u8], rows: &Rows, local: usize) -> io::Result<()> {
    let mut blocks = rows.numbers;
    case_text::as_blocks(&mut blocks);
    rt.write_all(title)?;
    check_and_answer(rt, &rows.numbers, &blocks, rows.count, local)?;
    rt.write_all(b"\n")
}

fn one_case(rt: &impl Print, text: &[u8]) -> io::Result<()> {
    let (title, text) = case_text::split(text, b'|');
    let (local, text) = case_text::split(text, b'|');
    let mut rows = Rows {
        numbers: [0; NUMBERS],
        count: 0,
    };
    rows.add_text(text);
    report(rt, title, &rows, case_text::decimal(local))
}

fn main(rt: HostRuntime) -> io::Result<()> {
    let mut space = [0u8; 65536];
    let n = frames::read_full(&mut rt.stdin(), &mut space)?;
    for part in space[..n].split_inclusive(|b| *b == b'\n') {
        one_case(&rt, case_text::split(part, b'\n').0)?;
    }
    Ok(())
}
