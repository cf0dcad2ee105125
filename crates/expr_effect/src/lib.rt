// What evaluating an expression does to the local: da/expr_effect.rs, over rows. The effect of a row and its writing on both
// outcomes are worked out together, in one visit a row; whoever asks passes over quiet rows before (`all_quiet`), and rows that the reference
// test decides are looked at by it.
#![tactic(auto)]

ghost use Rattle.std.specs.Prelude.{◌≡◌, true};
ghost use Rattle.table.specs.Rows.{tree};
ghost use Rattle.table.specs.Siblings.{forest};
ghost use Rattle.reads.specs.declared.Iff.TheVariants.{Skipped};
ghost use Rattle.reads.specs.Mentions.{refers};
ghost use Rattle.effect_rules.specs.Rules.{combined, no_effect};
ghost use Rattle.expr_effect.specs.Effect.{expr_effect_of};
ghost use Rattle.expr_effect.specs.Law.{DaTold, EffectTold};
ghost use Rattle.expr_effect.specs.Steps.{unguarded};

use effect_rules::{ExprEffect, Form, RowEffect};
use table::{Node, Siblings};

mod row_effect; // row_effect.rt: the arm of the Rust's match that a row comes to, and the row's effect by it

// A row whose operands are not looked at one by one: a call that writes, of which the reference test tells nothing, or what that
// test decides.
fn whole(row: Node, local: usize, form: Form) -> RowEffect
    ensures { result ≡ combined form (refers Skipped local (tree row.entry.table.now row.entry.at row.entry.end)) no_effect no_effect no_effect }
{
    let none = ExprEffect::NONE;
    let clear = reads::no_ref(row.alone(), local);
    row_effect::combine(form, !clear, none, none, none)
}

// The effect of the first of these rows, and what its operands write. The operands are asked for effect and writing at once, by
// `expr_writes_when`, which asks this function for the effect of the same row.
#[cycle(effect)]
pub fn expr_da(rows: Siblings, local: usize) -> RowEffect
    ensures value { result ≡ unguarded local (forest rows.entry) }
    ensures means { DaTold local (forest rows.entry) result }
{
    let Some(row) = rows.first() else {
        return RowEffect::NONE;
    };
    let form = row_effect::form_of(kinds::expr_class(row.kind()), row.side());
    if row_effect::is_whole(form) {
        return whole(row, local, form);
    }
    let first = row.children();
    let second = first.rest();
    let third = second.rest();
    let a = expr_writes_when(first, local);
    let b = expr_writes_when(second, local);
    let c = expr_writes_when(third, local);
    row_effect::combine(form, false, a, b, c)
}

// The effect of the first of these rows, and whether the local is written once its value is true, and once it is false.
#[cycle(effect)]
pub fn expr_writes_when(rows: Siblings, local: usize) -> ExprEffect
    ensures value { result ≡ expr_effect_of local (forest rows.entry) 0 }
    ensures means { EffectTold local (forest rows.entry) result }
{
    row_effect::guard(expr_da(rows, local))
}

// Whether every row of the first of these is plainly quiet. A yes says that it has no effect, a no says nothing.
pub fn all_quiet(rows: Siblings, local: usize) -> bool
    ensures to_value { result ≡ true → expr_effect_of local (forest rows.entry) 0 ≡ no_effect }
    ensures means { result ≡ true → EffectTold local (forest rows.entry) no_effect }
{
    reads::after_quiet(rows.head(), local).is_empty()
}
