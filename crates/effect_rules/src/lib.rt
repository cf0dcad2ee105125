// What an expression's row does to the local, from what its operands do: the rules of da/expr_effect.rs, which look at no row.
#![tactic(auto)]

ghost use Rattle.std.specs.Prelude.{◌≡◌};
ghost use Rattle.effect_rules.specs.Rules.{join as join_of, short_circuit, one_arm, after_cond, effect_of, writes_when, operands_write, vetted_effect};

// What evaluating an expression does to the local, as in the Rust.
#[derive(Clone, Copy)]
pub enum ExprDa {
    // No read can happen while the local is unwritten; a write may.
    Clean,
    // Every evaluation writes the whole local, and no read comes before that.
    Writes,
    // It may be read.
    Reads,
}

// The effect of an expression, and whether the local is written once its value is known to be true, and to be false.
#[derive(Clone, Copy)]
pub struct ExprEffect {
    pub effect: ExprDa,
    pub when_true: bool,
    pub when_false: bool,
}

impl ExprEffect {
    // Nothing evaluated.
    pub const NONE: ExprEffect = ExprEffect {
        effect: ExprDa::Clean,
        when_true: false,
        when_false: false,
    };

    // Whether the local is written once the value is known to be `outcome`.
    pub fn writes_when(self, outcome: bool) -> bool
        ensures { result ≡ writes_when self outcome }
    {
        if outcome {
            self.when_true
        } else {
            self.when_false
        }
    }
}

// The effect of a row, and what its operands write once the row is true, and once it is false: what the row itself writes
// takes its own effect into account.
#[derive(Clone, Copy)]
pub struct RowEffect {
    pub effect: ExprDa,
    pub operands_true: bool,
    pub operands_false: bool,
}

impl RowEffect {
    // No row.
    pub const NONE: RowEffect = RowEffect {
        effect: ExprDa::Clean,
        operands_true: false,
        operands_false: false,
    };
}

// What the Rust's match tells apart: a paren's inner expression, logical not, the operand of another unary operator, && and
// ||, the operands of another binary operator, the arms of a conditional, a call that writes, and whatever expr_no_ref decides.
#[derive(Clone, Copy)]
pub enum Form {
    Inner,
    LogNot,
    Operand,
    LogAnd,
    LogOr,
    Operands,
    Arms,
    CallWrites,
    Vetted,
}

// Two operands that are both evaluated, in an order that IEEE 1800 does not fix: a read on either side may come first.
fn join(l: ExprDa, r: ExprDa) -> ExprDa
    ensures { result ≡ join_of l r }
{
    match (l, r) {
        (ExprDa::Reads, _) | (_, ExprDa::Reads) => ExprDa::Reads, // it may come first
        (ExprDa::Writes, _) | (_, ExprDa::Writes) => ExprDa::Writes,
        (ExprDa::Clean, ExprDa::Clean) => ExprDa::Clean,
    }
}

// && and ||: `wrote` is whether the left writes on the outcome on which the right is reached. A write on the right cannot be
// claimed, since it may not happen; a read there is none of an unwritten local if the left wrote.
fn short_circuit(l: ExprDa, r: ExprDa, wrote: bool) -> ExprDa
    ensures { result ≡ short_circuit l r wrote }
{
    match (l, r) {
        (ExprDa::Reads | ExprDa::Writes, _) => l,
        (ExprDa::Clean, ExprDa::Reads) => if wrote { ExprDa::Clean } else { ExprDa::Reads },
        (ExprDa::Clean, ExprDa::Writes | ExprDa::Clean) => ExprDa::Clean, // the right may not be evaluated
    }
}

// Exactly one arm runs: neither arm's write is certain, either arm's read may happen.
fn one_arm(t: ExprDa, f: ExprDa) -> ExprDa
    ensures { result ≡ one_arm t f }
{
    match (t, f) {
        (ExprDa::Reads, _) | (_, ExprDa::Reads) => ExprDa::Reads,
        _ => ExprDa::Clean, // where both write too, as in the Rust, though one of them runs
    }
}

// A conditional: its condition is evaluated first, and always.
fn after_cond(c: ExprDa, arms: ExprDa) -> ExprDa
    ensures { result ≡ after_cond c arms }
{
    match c {
        ExprDa::Reads | ExprDa::Writes => c,
        ExprDa::Clean => arms,
    }
}

fn vetted_effect(refers: bool) -> ExprDa
    ensures { result ≡ vetted_effect refers }
{
    if refers { ExprDa::Reads } else { ExprDa::Clean }
}

pub fn effect_of(form: Form, refers: bool, a: ExprEffect, b: ExprEffect, c: ExprEffect) -> ExprDa
    ensures { result ≡ effect_of form refers a b c }
{
    let first = a.effect;
    let second = b.effect;
    let third = c.effect;
    match form {
        Form::Inner | Form::LogNot | Form::Operand => first,
        Form::LogAnd => short_circuit(first, second, a.when_true),
        Form::LogOr => short_circuit(first, second, a.when_false),
        Form::Operands => join(first, second),
        Form::Arms => after_cond(first, one_arm(second, third)),
        Form::CallWrites => ExprDa::Writes,
        Form::Vetted => vetted_effect(refers),
    }
}

// What a clean row's operands write once the row is known to be `outcome`. The left alone may have made && false, and || true.
pub fn operands_write(form: Form, outcome: bool, a: ExprEffect, b: ExprEffect) -> bool
    ensures { result ≡ operands_write form outcome a b }
{
    match form {
        Form::Inner => a.writes_when(outcome),
        Form::LogNot => a.writes_when(!outcome),
        Form::LogAnd => outcome && (a.when_true || b.when_true),
        Form::LogOr => !outcome && (a.when_false || b.when_false),
        Form::Operand | Form::Operands | Form::Arms | Form::CallWrites | Form::Vetted => false,
    }
}
