//! Laws of the parts: each is the contract of a function that does nothing, so that it is proved once and can be cited.
ghost use Rattle.std.specs.Prelude.{◌≡◌, ◌≤◌, ℕ, List};
ghost use Rattle.parse_rules.specs.Grammars.{Supported, Each};
ghost use Rattle.c_tree.specs.Grammar.{Naming};
ghost use Rattle.c_tree.specs.Symbols.{Symbol};
ghost use Rattle.c_tree.specs.Tree as tree;
ghost use Rattle.c_tree.specs.Words.{TypeNames, Scope};
ghost use Rattle.c_parse_words.specs.Written.{IsWritten};
ghost use Rattle.c_expr_parse.specs.Answers.{OneIsRight, ReadOrDeep, ExprAnswered, SpecifiersAnswered, DeclaratorAnswered, InitialiserAnswered};
ghost use Rattle.c_expr_parse.specs.Parts.{SpellsExpr, SpellsSpecifiers, SpellsDeclarator, SpellsInitialiser};

/// No two expressions in the grammar spell the same tokens.
pub fn expressions_are_spelled_once()
    ensures { (names : TypeNames) (least : ℕ) (a b : tree.Expr) (tokens : List Symbol) → least ≤ 14
        → SpellsExpr names least Supported a tokens → SpellsExpr names least Supported b tokens → a
        ≡ b }
{}

/// No two lists of specifiers in the grammar spell the same tokens.
pub fn specifiers_are_spelled_once()
    ensures { (names : TypeNames) (scope : Scope) (a b : tree.Specifiers) (tokens : List Symbol)
        → SpellsSpecifiers names scope Supported a tokens
        → SpellsSpecifiers names scope Supported b tokens → a ≡ b }
{}

/// No two declarators in the grammar spell the same tokens.
pub fn declarators_are_spelled_once()
    ensures { (names : TypeNames) (naming : Naming) (a b : tree.Declarator) (tokens : List Symbol)
        → SpellsDeclarator names naming Supported a tokens
        → SpellsDeclarator names naming Supported b tokens → a ≡ b }
{}

/// No two initialisers in the grammar spell the same tokens.
pub fn initialisers_are_spelled_once()
    ensures { (names : TypeNames) (a b : tree.Initialiser) (tokens : List Symbol)
        → SpellsInitialiser names Supported a tokens → SpellsInitialiser names Supported b tokens
        → a ≡ b }
{}

/// One answer about expressions is right, apart from the choice between a refusal and a stop at a depth before it.
pub fn expressions_are_answered_once()
    ensures one { (names : TypeNames) (least d : ℕ) (tokens : List Symbol) → least ≤ 14
        → Each IsWritten tokens → OneIsRight (ExprAnswered names least d tokens) }
    ensures shallow { (names : TypeNames) (least d : ℕ) (tokens : List Symbol) → least ≤ 14
        → Each IsWritten tokens → ReadOrDeep (ExprAnswered names least d tokens) }
{}

/// One answer about specifiers is right, apart from the choice between a refusal and a stop at a depth before it.
pub fn specifiers_are_answered_once()
    ensures one { (names : TypeNames) (scope : Scope) (d : ℕ) (tokens : List Symbol)
        → Each IsWritten tokens → OneIsRight (SpecifiersAnswered names scope d tokens) }
    ensures shallow { (names : TypeNames) (scope : Scope) (d : ℕ) (tokens : List Symbol)
        → Each IsWritten tokens → ReadOrDeep (SpecifiersAnswered names scope d tokens) }
{}

/// One answer about declarators is right, apart from the choice between a refusal and a stop at a depth before it.
pub fn declarators_are_answered_once()
    ensures one { (names : TypeNames) (naming : Naming) (d : ℕ) (tokens : List Symbol)
        → Each IsWritten tokens → OneIsRight (DeclaratorAnswered names naming d tokens) }
    ensures shallow { (names : TypeNames) (naming : Naming) (d : ℕ) (tokens : List Symbol)
        → Each IsWritten tokens → ReadOrDeep (DeclaratorAnswered names naming d tokens) }
{}

/// One answer about initialisers is right, apart from the choice between a refusal and a stop at a depth before it.
pub fn initialisers_are_answered_once()
    ensures one { (names : TypeNames) (d : ℕ) (tokens : List Symbol) → Each IsWritten tokens
        → OneIsRight (InitialiserAnswered names d tokens) }
    ensures shallow { (names : TypeNames) (d : ℕ) (tokens : List Symbol) → Each IsWritten tokens
        → ReadOrDeep (InitialiserAnswered names d tokens) }
{}
