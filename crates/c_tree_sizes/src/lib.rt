//! A typed tree makes at most two things for each of its tokens, if each of its string literals has one. Each law is the contract of a
//! function that does nothing.
#![tactic(auto)]

ghost use Rattle.std.specs.List.{All};
ghost use Rattle.std.specs.Prelude.{◌+◌, ◌≤◌, length};
ghost use Rattle.c_tree.specs.Erasure.{erased, erased_place, erased_unit};
ghost use Rattle.c_tree.specs.Spelling.{expr_spelling, unit_spelling};
ghost use Rattle.c_tree.specs.TypedParts.{made_by, made_by_place, made_by_unit, statics_of};
ghost use Rattle.c_tree.specs.TypedTree.{TypedExpr, TypedPlace, TypedTranslationUnit};
ghost use Rattle.c_tree_sizes.specs.Pieces.{HasPieces};
ghost use Rattle.c_tree_sizes.specs.Theorems.{SpecifiersMakeTwoForAToken, DeclaratorsMakeTwoForAToken};

/// A typed unit, well typed or not, makes at most two things for each token that it is spelled with, and two more for each string literal
/// and each other object that lives as long as the program. So a number of 32 bits counts what a unit of fewer than 2 ^ 29 tokens and
/// at most 2 ^ 18 such objects makes.
pub fn a_unit_makes_few_things_for_its_tokens()
    ensures { (u : TypedTranslationUnit) → length (made_by_unit u) ≤ length
        (unit_spelling (erased_unit u)) + length (unit_spelling (erased_unit u)) +
        (length (statics_of u) + length (statics_of u)) }
{}

/// An expression, a place, a list of specifiers or a declarator that is typed, well or not, makes at most two things for each token that it is
/// spelled with, where each string literal in it has a piece. One without a piece would have no token to pay for it.
pub fn a_part_makes_two_things_for_a_token()
    ensures expression { (e : TypedExpr) → All HasPieces (made_by e)
        → length (made_by e) ≤ length (expr_spelling (erased e)) + length
        (expr_spelling (erased e)) }
    ensures place { (p : TypedPlace) → All HasPieces (made_by_place p)
        → length (made_by_place p) ≤ length (expr_spelling (erased_place p)) + length
        (expr_spelling (erased_place p)) }
    ensures specifiers { SpecifiersMakeTwoForAToken }
    ensures declarator { DeclaratorsMakeTwoForAToken }
{}
