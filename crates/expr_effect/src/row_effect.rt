// A row of an expression: the arm of the Rust's match that it comes to, and its effect and writing by the rules of that arm.
ghost use Rattle.std.specs.Prelude.{◌≡◌};
ghost use Rattle.effect_rules.specs.Rules.{unary_form, binary_form, call_form, form_of, combined, guarded};
ghost use Rattle.effect_rules.specs.Steps.{is_whole};

use effect_rules::{ExprDa, ExprEffect, Form, RowEffect};
use kinds::ExprClass;

#[tactic(auto, unfolding(effect_rules::specs::Rules::unary_form))]
fn unary_form(side: usize) -> Form
    ensures { result ≡ unary_form side }
{
    if side == 1 {
        Form::LogNot
    } else {
        Form::Operand
    }
}

#[tactic(auto, unfolding(effect_rules::specs::Rules::binary_form))]
fn binary_form(side: usize) -> Form
    ensures { result ≡ binary_form side }
{
    match side {
        1 => Form::LogAnd,
        2 => Form::LogOr,
        _ => Form::Operands,
    }
}

#[tactic(auto, unfolding(effect_rules::specs::Rules::call_form))]
fn call_form(side: usize) -> Form
    ensures { result ≡ call_form side }
{
    if side == 1 {
        Form::CallWrites
    } else {
        Form::Vetted
    }
}

pub fn form_of(class: ExprClass, side: usize) -> Form
    ensures { result ≡ form_of class side }
{
    match class {
        ExprClass::Paren => Form::Inner,
        ExprClass::Unary => unary_form(side),
        ExprClass::Binary => binary_form(side),
        ExprClass::Ternary => Form::Arms,
        ExprClass::Call => call_form(side),
        ExprClass::Ident
        | ExprClass::Lident
        | ExprClass::Opaque
        | ExprClass::Event
        | ExprClass::Other => Form::Vetted,
    }
}

// Forms whose operands are not looked at one by one.
pub fn is_whole(form: Form) -> bool
    ensures { result ≡ is_whole form }
{
    matches!(form, Form::CallWrites | Form::Vetted)
}

pub fn combine(form: Form, refers: bool, a: ExprEffect, b: ExprEffect, c: ExprEffect) -> RowEffect
    ensures { result ≡ combined form refers a b c }
{
    RowEffect {
        effect: effect_rules::effect_of(form, refers, a, b, c),
        operands_true: effect_rules::operands_write(form, true, a, b),
        operands_false: effect_rules::operands_write(form, false, a, b),
    }
}

// A row that writes does so on every outcome; one that may read claims no write, so that no write can be claimed that a read
// came before.
pub fn guard(row: RowEffect) -> ExprEffect
    ensures { result ≡ guarded row }
{
    let (when_true, when_false) = match row.effect {
        ExprDa::Writes => (true, true),
        ExprDa::Reads => (false, false),
        ExprDa::Clean => (row.operands_true, row.operands_false),
    };
    ExprEffect {
        effect: row.effect,
        when_true,
        when_false,
    }
}
