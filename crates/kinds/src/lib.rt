// The table of kinds: what document 01 says of each kind, as numbers, and what the rules call it.
#![tactic(auto)]

ghost use Rattle.std.specs.Prelude.{◌≡◌, true, cond, List, ◌∷◌, map};
ghost use Rattle.kinds.specs.Kinds.{Item, Sides, kinds as kind_list, in_class, S, side_fits, takes};
ghost use Rattle.kinds.specs.Named.{expr_class, stmt_class};
ghost use Rattle.kinds.specs.Steps.{numbers, sides_number, items_number, side_below, of_first, takes_first, repeats_first, rest_first};

// The side numbers of a kind: those below a count, or the numbers of the names.
#[derive(Clone, Copy)]
pub enum SideNumbers {
    Below(usize),
    Names,
}

// The items of a kind's children in one number, 16 bits an item with the first item lowest (specs/Steps). One number is what is left of a row's
// children, and the check of a table keeps it of each open row on a stack of fixed size.
pub type Items = usize;

// What the table holds of a kind.
#[derive(Clone, Copy)]
pub struct Kind {
    pub sides: SideNumbers,
    pub children: Items,
}

// The kinds that the rules of expressions and targets name.
#[derive(Clone, Copy)]
pub enum ExprClass {
    Ident,
    Call,
    Lident,
    Opaque,
    Event,
    Unary,
    Binary,
    Ternary,
    Paren,
    Other,
}

// The kinds that the rules of statements name; arms, declarations and what stands for an absent statement among them.
#[derive(Clone, Copy)]
pub enum StmtClass {
    Absent,
    Match,
    Default,
    Decl,
    Blocking,
    Nonblocking,
    If,
    Return,
    Case,
    For,
    While,
    Repeat,
    Forever,
    Block,
    Fork,
    Systask,
    Task,
    Delayctrl,
    Eventctrl,
    Wait,
    Disable,
    Null,
    Unmodelled,
    NoStmt,
}

// An item asks for the kinds of a class, here by the number of its first kind and, 8 bits higher, the number past its last.
const PATH: Items = 0x0201;

const SEG: Items = 0x0302;

const DELAY: Items = 0x0403;

const INTRA: Items = 0x0504;

const STAR_OR_LIST: Items = 0x0705;

const EVENT: Items = 0x0807;

const ARM: Items = 0x0a08;

const DECL: Items = 0x0b0a;

const STATEMENT: Items = 0x280b;

const EXPRESSION: Items = 0x3c28;

const TARGET: Items = 0x423c;

// The mark of an item in whose place `none` may stand, that of one that may stand any number of times, and no items.
const OPTIONAL: Items = 0x0080;

const ANY: Items = 0x8000;

const NONE: Items = 0;

const KINDS: [Kind; 66] = [
    // none
    Kind {
        sides: SideNumbers::Below(1),
        children: NONE,
    },
    // path seg*
    Kind {
        sides: SideNumbers::Below(1),
        children: SEG | ANY,
    },
    // seg
    Kind {
        sides: SideNumbers::Names,
        children: NONE,
    },
    // delay E*
    Kind {
        sides: SideNumbers::Below(1),
        children: EXPRESSION | ANY,
    },
    // intra E? (star or list)
    Kind {
        sides: SideNumbers::Below(1),
        children: (EXPRESSION | OPTIONAL) | STAR_OR_LIST << 16,
    },
    // star
    Kind {
        sides: SideNumbers::Below(1),
        children: NONE,
    },
    // list event*
    Kind {
        sides: SideNumbers::Below(1),
        children: EVENT | ANY,
    },
    // event E E?
    Kind {
        sides: SideNumbers::Below(1),
        children: EXPRESSION | (EXPRESSION | OPTIONAL) << 16,
    },
    // match S E*
    Kind {
        sides: SideNumbers::Below(1),
        children: STATEMENT | (EXPRESSION | ANY) << 16,
    },
    // default S
    Kind {
        sides: SideNumbers::Below(1),
        children: STATEMENT,
    },
    // decl E?
    Kind {
        sides: SideNumbers::Names,
        children: EXPRESSION | OPTIONAL,
    },
    // blocking delay? intra? L E
    Kind {
        sides: SideNumbers::Below(1),
        children: (DELAY | OPTIONAL) | (INTRA | OPTIONAL) << 16 | TARGET << 32 | EXPRESSION << 48,
    },
    // nonblocking delay? intra? L E
    Kind {
        sides: SideNumbers::Below(1),
        children: (DELAY | OPTIONAL) | (INTRA | OPTIONAL) << 16 | TARGET << 32 | EXPRESSION << 48,
    },
    // if E S S?
    Kind {
        sides: SideNumbers::Below(1),
        children: EXPRESSION | STATEMENT << 16 | (STATEMENT | OPTIONAL) << 32,
    },
    // return E?
    Kind {
        sides: SideNumbers::Below(1),
        children: EXPRESSION | OPTIONAL,
    },
    // case E (match or default)*
    Kind {
        sides: SideNumbers::Below(1),
        children: EXPRESSION | (ARM | ANY) << 16,
    },
    // for S E S S
    Kind {
        sides: SideNumbers::Below(2),
        children: STATEMENT | EXPRESSION << 16 | STATEMENT << 32 | STATEMENT << 48,
    },
    // while E S
    Kind {
        sides: SideNumbers::Below(2),
        children: EXPRESSION | STATEMENT << 16,
    },
    // repeat E S
    Kind {
        sides: SideNumbers::Below(2),
        children: EXPRESSION | STATEMENT << 16,
    },
    // forever S
    Kind {
        sides: SideNumbers::Below(2),
        children: STATEMENT,
    },
    // block decl* S*
    Kind {
        sides: SideNumbers::Below(1),
        children: (DECL | ANY) | (STATEMENT | ANY) << 16,
    },
    // fork S*
    Kind {
        sides: SideNumbers::Below(1),
        children: STATEMENT | ANY,
    },
    // systask E*
    Kind {
        sides: SideNumbers::Below(1),
        children: EXPRESSION | ANY,
    },
    // task path E*
    Kind {
        sides: SideNumbers::Below(8),
        children: PATH | (EXPRESSION | ANY) << 16,
    },
    // randstmt
    Kind {
        sides: SideNumbers::Below(1),
        children: NONE,
    },
    // delayctrl delay S?
    Kind {
        sides: SideNumbers::Below(1),
        children: DELAY | (STATEMENT | OPTIONAL) << 16,
    },
    // eventctrl (star or list) S?
    Kind {
        sides: SideNumbers::Below(1),
        children: STAR_OR_LIST | (STATEMENT | OPTIONAL) << 16,
    },
    // trigger
    Kind {
        sides: SideNumbers::Below(1),
        children: NONE,
    },
    // wait E S?
    Kind {
        sides: SideNumbers::Below(1),
        children: EXPRESSION | (STATEMENT | OPTIONAL) << 16,
    },
    // disable path
    Kind {
        sides: SideNumbers::Below(1),
        children: PATH,
    },
    // waitfork
    Kind {
        sides: SideNumbers::Below(1),
        children: NONE,
    },
    // concurrent S? S?
    Kind {
        sides: SideNumbers::Below(1),
        children: (STATEMENT | OPTIONAL) | (STATEMENT | OPTIONAL) << 16,
    },
    // passign
    Kind {
        sides: SideNumbers::Below(1),
        children: NONE,
    },
    // deassign
    Kind {
        sides: SideNumbers::Below(1),
        children: NONE,
    },
    // force
    Kind {
        sides: SideNumbers::Below(1),
        children: NONE,
    },
    // release
    Kind {
        sides: SideNumbers::Below(1),
        children: NONE,
    },
    // deferred S S
    Kind {
        sides: SideNumbers::Below(1),
        children: STATEMENT | STATEMENT << 16,
    },
    // cover
    Kind {
        sides: SideNumbers::Below(1),
        children: NONE,
    },
    // null
    Kind {
        sides: SideNumbers::Below(1),
        children: NONE,
    },
    // error
    Kind {
        sides: SideNumbers::Below(1),
        children: NONE,
    },
    // lit
    Kind {
        sides: SideNumbers::Below(1),
        children: NONE,
    },
    // ident path
    Kind {
        sides: SideNumbers::Below(1),
        children: PATH,
    },
    // unary E
    Kind {
        sides: SideNumbers::Below(2),
        children: EXPRESSION,
    },
    // binary E E
    Kind {
        sides: SideNumbers::Below(3),
        children: EXPRESSION | EXPRESSION << 16,
    },
    // ternary E E E
    Kind {
        sides: SideNumbers::Below(1),
        children: EXPRESSION | EXPRESSION << 16 | EXPRESSION << 32,
    },
    // bitsel E E
    Kind {
        sides: SideNumbers::Below(1),
        children: EXPRESSION | EXPRESSION << 16,
    },
    // partsel E E E
    Kind {
        sides: SideNumbers::Below(1),
        children: EXPRESSION | EXPRESSION << 16 | EXPRESSION << 32,
    },
    // indexed E E E
    Kind {
        sides: SideNumbers::Below(1),
        children: EXPRESSION | EXPRESSION << 16 | EXPRESSION << 32,
    },
    // mtm E E E
    Kind {
        sides: SideNumbers::Below(1),
        children: EXPRESSION | EXPRESSION << 16 | EXPRESSION << 32,
    },
    // concat E*
    Kind {
        sides: SideNumbers::Below(1),
        children: EXPRESSION | ANY,
    },
    // syscall E*
    Kind {
        sides: SideNumbers::Below(1),
        children: EXPRESSION | ANY,
    },
    // pattern E*
    Kind {
        sides: SideNumbers::Below(1),
        children: EXPRESSION | ANY,
    },
    // replicate E E*
    Kind {
        sides: SideNumbers::Below(1),
        children: EXPRESSION | (EXPRESSION | ANY) << 16,
    },
    // method E E*
    Kind {
        sides: SideNumbers::Below(1),
        children: EXPRESSION | (EXPRESSION | ANY) << 16,
    },
    // call path E*
    Kind {
        sides: SideNumbers::Below(4),
        children: PATH | (EXPRESSION | ANY) << 16,
    },
    // paren E
    Kind {
        sides: SideNumbers::Below(1),
        children: EXPRESSION,
    },
    // cast E E?
    Kind {
        sides: SideNumbers::Below(1),
        children: EXPRESSION | (EXPRESSION | OPTIONAL) << 16,
    },
    // namedarg E?
    Kind {
        sides: SideNumbers::Below(1),
        children: EXPRESSION | OPTIONAL,
    },
    // new E E?
    Kind {
        sides: SideNumbers::Below(1),
        children: EXPRESSION | (EXPRESSION | OPTIONAL) << 16,
    },
    // opaque
    Kind {
        sides: SideNumbers::Below(1),
        children: NONE,
    },
    // lident path
    Kind {
        sides: SideNumbers::Below(1),
        children: PATH,
    },
    // lbit L E
    Kind {
        sides: SideNumbers::Below(1),
        children: TARGET | EXPRESSION << 16,
    },
    // lpart L E E
    Kind {
        sides: SideNumbers::Below(1),
        children: TARGET | EXPRESSION << 16 | EXPRESSION << 32,
    },
    // lidx L E E
    Kind {
        sides: SideNumbers::Below(1),
        children: TARGET | EXPRESSION << 16 | EXPRESSION << 32,
    },
    // lconcat L*
    Kind {
        sides: SideNumbers::Below(1),
        children: TARGET | ANY,
    },
    // lerror
    Kind {
        sides: SideNumbers::Below(1),
        children: NONE,
    },
];

// The whole table. A caller lays it down once, above its loop over rows.
pub fn kinds() -> [Kind; 66]
    ensures { result ≡ map numbers kind_list }
{
    KINDS
}

// Whether a side number is one of the kind's, with so many names.
#[tactic(auto, using(crate::proofs::Numbers::side_told), unfolding(crate::specs::Steps::side_below))]
pub fn side_fits(kind: Kind, side: usize, names: usize) -> bool
    ensures value { result ≡ side_below kind.sides names side }
    ensures means { (s : Sides) → kind.sides ≡ sides_number s → result ≡ side_fits s names side }
{
    let count = match kind.sides {
        SideNumbers::Below(count) => count,
        SideNumbers::Names => names,
    };
    side < count
}

// Whether a kind is a statement: kinds 11 to 39 are.
#[tactic(auto, using(crate::proofs::Numbers::statements))]
pub fn is_statement(kind: usize) -> bool
    ensures { result ≡ in_class S kind }
{
    matches!(kind, 11..=39)
}

// What the rules of expressions and targets call a kind. No `From`: several kinds have one class, so a class is no conversion of a number.
#[tactic(auto, using(crate::proofs::Named::named))]
pub fn expr_class(kind: usize) -> ExprClass
    ensures { result ≡ expr_class kind }
{
    match kind {
        7 => ExprClass::Event,
        41 => ExprClass::Ident,
        42 => ExprClass::Unary,
        43 => ExprClass::Binary,
        44 => ExprClass::Ternary,
        54 => ExprClass::Call,
        55 => ExprClass::Paren,
        59 => ExprClass::Opaque,
        60 => ExprClass::Lident,
        _ => ExprClass::Other,
    }
}

// What the rules of statements call a kind.
#[tactic(auto, using(crate::proofs::Named::stmt_named))]
pub fn stmt_class(kind: usize) -> StmtClass
    ensures { result ≡ stmt_class kind }
{
    match kind {
        0 => StmtClass::Absent,
        8 => StmtClass::Match,
        9 => StmtClass::Default,
        10 => StmtClass::Decl,
        11 => StmtClass::Blocking,
        12 => StmtClass::Nonblocking,
        13 => StmtClass::If,
        14 => StmtClass::Return,
        15 => StmtClass::Case,
        16 => StmtClass::For,
        17 => StmtClass::While,
        18 => StmtClass::Repeat,
        19 => StmtClass::Forever,
        20 => StmtClass::Block,
        21 => StmtClass::Fork,
        22 => StmtClass::Systask,
        23 => StmtClass::Task,
        25 => StmtClass::Delayctrl,
        26 => StmtClass::Eventctrl,
        28 => StmtClass::Wait,
        29 => StmtClass::Disable,
        38 => StmtClass::Null,
        24 | 27 | 30..=37 | 39 => StmtClass::Unmodelled,
        _ => StmtClass::NoStmt,
    }
}

// Whether a kind is of the class that the first item of a kind's children asks for. Both this and the next return as soon as they can: as `&&` and
// `||` both sides are worked out each time, at 10 instructions more for a row that is checked.
fn of_first(items: Items, kind: usize) -> bool
    ensures { result ≡ of_first items kind }
{
    if kind < items % 128 {
        return false;
    }
    kind < items / 256 % 128
}

// Whether the first item of a kind's children takes a child of this kind.
#[tactic(auto, using(crate::proofs::Numbers::taking))]
pub fn takes_first(items: Items, kind: usize) -> bool
    ensures value { result ≡ takes_first items kind }
    ensures means { (i : Item) (others : List Item) → items ≡ items_number (i ∷ others) → result ≡ takes i kind }
{
    if of_first(items, kind) {
        return true;
    }
    if kind != 0 {
        return false;
    }
    128 <= items % 256
}

// Whether it may stand any number of times.
#[tactic(auto, using(crate::proofs::Numbers::repeats_told), unfolding(crate::specs::Steps::repeats_first))]
pub fn repeats_first(items: Items) -> bool
    ensures value { result ≡ repeats_first items }
    ensures means { (i : Item) (others : List Item) → items ≡ items_number (i ∷ others) → result ≡ i.may_repeat }
{
    32768 <= items % 65536
}

// The items after the first.
#[tactic(auto, using(crate::proofs::Numbers::rest_told), unfolding(crate::specs::Steps::rest_first))]
pub fn rest_first(items: Items) -> Items
    ensures value { result ≡ rest_first items }
    ensures means { (i : Item) (others : List Item) → items ≡ items_number (i ∷ others) → result ≡ items_number others }
{
    items / 65536
}
