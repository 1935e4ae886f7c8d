//! Rules of a grammar: parsers as functions on the list of tokens that are left, and the promises that
//! they carry. The crate is generic in the tokens and knows nothing of any one language; its
//! functions do nothing, and their contracts are laws of a small grammar that shows the use.
#![tactic(auto)]

ghost use Rattle.std.specs.Prelude.{◌≡◌, ℕ, List, [], ◌∷◌};
ghost use Rattle.parse_rules.specs.Parsers.{Read, Stopped, Syntax, Unsupported, Deep};
ghost use Rattle.parse_rules.specs.Grammars.{Supported};
ghost use Rattle.parse_rules.specs.Promises.{Answered};
ghost use Rattle.parse_rules.specs.Example.{Token, Number, Plus, Open, Close, Sum, Digit, Paren, Add, height, Sums, In, sum, Valid};

/// Of sums of digits with parentheses: no two of them spell the same tokens, and each answer of their
/// parser means what it should.
pub fn sums_are_answered()
    ensures one_sum { (a b : Sum) (tokens : List Token) → In Sums Supported a tokens
        → In Sums Supported b tokens → a ≡ b }
    ensures answered { (d : ℕ) (tokens : List Token) → Answered Valid (In Sums) height d tokens
        (sum d Sums tokens) }
{}

/// The answers for `1+2`, `1 2`, `1+` and `1+()`, for `((1` with two nodes allowed and for `((1))`
/// with three.
pub fn answers_to_small_sums()
    ensures whole { sum 2 Sums (Number 1 ∷ Plus ∷ Number 2 ∷ [])
        ≡ Read (Add (Digit 1) (Digit 2)) [] }
    ensures front { sum 2 Sums (Number 1 ∷ Number 2 ∷ []) ≡ Read (Digit 1) (Number 2 ∷ []) }
    ensures unfinished { sum 2 Sums (Number 1 ∷ Plus ∷ []) ≡ Stopped Syntax [] }
    ensures empty_pair { sum 2 Sums (Number 1 ∷ Plus ∷ Open ∷ Close ∷ [])
        ≡ Stopped Unsupported (Close ∷ []) }
    ensures too_deep { sum 2 Sums (Open ∷ Open ∷ Number 1 ∷ []) ≡ Stopped Deep (Number 1 ∷ []) }
    ensures deep_enough { sum 3 Sums (Open ∷ Open ∷ Number 1 ∷ Close ∷ Close ∷ [])
        ≡ Read (Paren (Paren (Digit 1))) [] }
{}
