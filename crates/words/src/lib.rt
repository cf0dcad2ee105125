// The kind of a word, by a key of its letters: the word is read where it stands, and compared with none.
#![tactic(auto)]

ghost use Rattle.std.specs.Prelude.{◌≡◌, true, List, ℕ};
ghost use Rattle.kinds.specs.Words.{kind_of};
ghost use Rattle.words.specs.Steps.{letters, letters_up_to, letters_of, key, KindTold};

// The kind whose word some small letters are, if they are one, and the place after them; at most twelve are read, more than
// any word has.
#[derive(Clone, Copy)]
pub struct KindAt {
    pub kind: Option<u32>,
    pub stop: usize,
}

// The key of such letters, and how many they are.
#[derive(Clone, Copy)]
struct KeyRead {
    value: u64,
    count: usize,
}

// The key of the small letters at the front: five bits a letter, the first letter lowest, so twelve letters fit.
fn key_of(t: &[u8]) -> KeyRead
    ensures value { result.value ≡ key (letters_of 12 t.now) }
    ensures count { result.count ≡ letters_up_to 12 t.now }
{
    let front = &t[..t.len().min(12)];
    let mut value: u64 = 0;
    let mut scale: u64 = 1;
    for (count, b) in front.iter().enumerate() {
        if !b.is_ascii_lowercase() {
            return KeyRead { value, count };
        }
        value += (u64::from(*b) - 96) * scale;
        scale *= 32;
    }
    KeyRead {
        value,
        count: front.len(),
    }
}

// The kind of the word of small letters that has this key: keys tell such words apart, so no word is compared.
fn kind_of_key(value: u64) -> Option<u32>
    ensures { (w : List ℕ) → letters w ≡ true → value ≡ key w → result ≡ kind_of w }
{
    match value {
        178670 => Some(0), // none
        282672 => Some(1), // path
        7347 => Some(2), // seg
        26259620 => Some(3), // delay
        1659337 => Some(4), // intra
        591507 => Some(5), // star
        675116 => Some(6), // list
        21436101 => Some(7), // event
        8507437 => Some(8), // match
        21899548836 => Some(9), // default
        396452 => Some(10), // decl
        255864192386 => Some(11), // blocking
        8384157856119278 => Some(12), // nonblocking
        201 => Some(13), // if
        489345202 => Some(14), // return
        183331 => Some(15), // case
        18918 => Some(16), // for
        5645591 => Some(17), // while
        672317618 => Some(18), // repeat
        19518376422 => Some(19), // forever
        11648386 => Some(20), // block
        379366 => Some(21), // fork
        12450418483 => Some(22), // systask
        379956 => Some(23), // task
        701844568114 => Some(24), // randstmt
        13834216583332 => Some(25), // delayctrl
        13834211759813 => Some(26), // eventctrl
        19502704212 => Some(27), // trigger
        664631 => Some(28), // wait
        5773511972 => Some(29), // disable
        397794747447 => Some(30), // waitfork
        719272356723171 => Some(31), // concurrent
        15277345840 => Some(32), // passign
        488875066532 => Some(33), // deassign
        5360102 => Some(34), // force
        6007468210 => Some(35), // release
        143430686884 => Some(36), // deferred
        19061219 => Some(37), // cover
        406190 => Some(38), // null
        19384901 => Some(39), // error
        20780 => Some(40), // lit
        21435529 => Some(41), // ident
        26805717 => Some(42), // unary
        857782562 => Some(43), // binary
        27449051316 => Some(44), // ternary
        408539426 => Some(45), // bitsel
        13073270832 => Some(46), // partsel
        4488073673 => Some(47), // indexed
        13965 => Some(48), // mtm
        672250339 => Some(49), // concat
        13288722227 => Some(50), // syscall
        15642284080 => Some(51), // pattern
        6185937158322 => Some(52), // replicate
        150229165 => Some(53), // method
        405539 => Some(54), // call
        14862384 => Some(55), // paren
        674851 => Some(56), // cast
        259883447342 => Some(57), // namedarg
        23726 => Some(58), // new
        190350863 => Some(59), // opaque
        685936940 => Some(60), // lident
        664652 => Some(61), // lbit
        21562892 => Some(62), // lpart
        790828 => Some(63), // lidx
        21512010860 => Some(64), // lconcat
        620316844 => Some(65), // lerror
        _ => None,
    }
}

// The kind whose word the small letters from a place on are.
#[tactic(auto, using(crate::proofs::Words::stop_fits))]
pub fn find_kind_at(s: &[u8], at: usize) -> KindAt
    ensures { KindTold s.now at result.kind result.stop }
{
    let read = key_of(&s[at.min(s.len())..]);
    KindAt {
        kind: kind_of_key(read.value),
        stop: at + read.count,
    }
}

// The kind of a word.
#[tactic(auto, using(crate::proofs::Words::word_part, crate::proofs::Words::word_whole))]
pub fn find_kind(word: &[u8]) -> Option<u32>
    ensures { result ≡ kind_of word.now }
{
    let read = find_kind_at(word, 0);
    if read.stop == word.len() {
        read.kind
    } else {
        None
    }
}
