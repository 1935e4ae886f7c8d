//! Specifiers, declarators and the parameters of functions are given.
#![tactic(auto)]

ghost use Rattle.c_typing_given.specs.Theorems.{SpecifiersAreGiven, LoneSpecifiersAreGiven, DeclaratorsAreGiven, PrototypesAreGiven};

/// Specifiers are given, with a declarator after them or alone (C99 6.7.2.3).
pub fn specifiers_are_given()
    ensures listed { SpecifiersAreGiven }
    ensures alone { LoneSpecifiersAreGiven }
{}

/// A declarator is given, whose name is to be `which`, unless it is a function's. So are the parameters of a function, in a scope of their
/// own.
pub fn a_declarator_is_given()
    ensures declarator { DeclaratorsAreGiven }
    ensures prototype { PrototypesAreGiven }
{}
