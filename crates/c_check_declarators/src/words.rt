//! Words and names of types that stand together in a list of specifiers (C99 6.7.1, 6.7.2).
#![tactic(auto)]

ghost use Rattle.std.specs.Prelude.{◌≡◌, ◌<◌, IfSome, None, Some, true, false, if◌then◌else◌};
ghost use Rattle.c_typing.specs.Declarators.{are_allowed, counting_word, none_counted, words_shape};
ghost use Rattle.c_check_declarators.specs.WordViews.{tally_view, IsSmall};
ghost use Rattle.c_typing.specs.Specifying.{words_type};
ghost use Rattle.c_typing.specs.Refusals.{one_named};

use c_lexer::Keyword;
use cc_base::TypeId;
use std::marker::Model;

/// How often each word stands in a list, and how many names of types.
#[derive(Clone, Copy)]
pub(crate) struct Tally {
    void: u8,
    char: u8,
    short: u8,
    int: u8,
    long: u8,
    signed: u8,
    unsigned: u8,
    storage: u8,
    named: u8,
}

/// Whether they may stand together.
fn is_allowed(t: Tally) -> bool
    ensures { result ≡ are_allowed (tally_view t) }
{
    let signs = u16::from(t.signed) + u16::from(t.unsigned);
    let bases = u16::from(t.void) + u16::from(t.char) + u16::from(t.short) + u16::from(t.long);
    let named = u16::from(t.named);
    let int = u16::from(t.int);
    t.storage <= 1
        && bases + named <= 1
        && signs <= 1
        && int <= 1
        && u16::from(t.char) + int <= 1
        && (u16::from(t.void) + named == 0 || signs + int == 0)
}

fn with_type_word(t: Tally, word: Keyword) -> Tally
    requires { IsSmall (tally_view t) }
    ensures { tally_view result ≡ counting_word word (tally_view t) }
{
    let mut t = t;
    match word {
        Keyword::Void => t.void += 1,
        Keyword::Char => t.char += 1,
        Keyword::Short => t.short += 1,
        Keyword::Int => t.int += 1,
        Keyword::Long => t.long += 1,
        Keyword::Signed => t.signed += 1,
        Keyword::Unsigned => t.unsigned += 1,
        Keyword::Auto | Keyword::Register | Keyword::Static | Keyword::Extern | Keyword::Typedef =>
            t.storage += 1,
        _ => {}
    }
    t
}

fn with_one_named(t: Tally) -> Tally
    requires { IsSmall (tally_view t) }
    ensures { tally_view result ≡ one_named (tally_view t) }
{
    let mut t = t;
    t.named += 1;
    t
}

/// Words and names that may stand together.
#[derive(Drop)]
pub struct Words(Tally);

impl Model for Words {
    ghost use Rattle.std.specs.Prelude.{IsTrue};
    ghost use Rattle.c_typing.specs.Declarators.{Counted, are_allowed};
    ghost use Rattle.c_check_declarators.specs.WordViews.{tally_view};

    ghost Value = { Counted };

    ghost view = { λ w. tally_view w.0 };

    ghost invariant = { λ w. IsTrue (are_allowed (tally_view w.0)) };
}

impl Words {
    /// No words and no names.
    pub fn none() -> Words
        ensures { result ≡ none_counted }
    {
        Words(Tally {
            void: 0,
            char: 0,
            short: 0,
            int: 0,
            long: 0,
            signed: 0,
            unsigned: 0,
            storage: 0,
            named: 0,
        })
    }

    /// With a word more, if it goes with them.
    pub(crate) fn with_word(&self, word: Keyword) -> Option<Words>
        ensures { result ≡ (if are_allowed (counting_word word self.now) then Some
            (counting_word word self.now) else None) }
    {
        let t = with_type_word(self.0, word);
        if is_allowed(t) { Some(Words(t)) } else { None }
    }

    /// With a name of a type more, if it goes with them.
    pub fn with_name(&self) -> Option<Words>
        ensures { result ≡ (if are_allowed (one_named self.now) then Some
            (one_named self.now) else None) }
    {
        let t = with_one_named(self.0);
        if is_allowed(t) { Some(Words(t)) } else { None }
    }

    /// The type that the words name, where no name of a type stands among them.
    pub fn ty(&self) -> TypeId
        ensures { result ≡ words_type self.now }
    {
        let t = self.0;
        if t.void == 1 {
            return TypeId(0);
        }
        let signed = t.unsigned == 0;
        let number = if t.char == 1 {
            2
        } else if t.short == 1 {
            4
        } else if t.long == 1 {
            8
        } else {
            6
        };
        if signed {
            TypeId(number - 1)
        } else {
            TypeId(number)
        }
    }
}
