//! At most one typed tree: two well typed trees over one table that erase to the same tree, begin among the same scopes and number their
//! nodes from the same number on are one tree, and leave the same scopes. So the types, nodes, values and conversions in a typed tree are
//! those of its text. Each law is the contract of a function that does nothing.
//!
//! What a value is converted to, and what takes an allocation over, is fixed by what stands around it: the laws of values say where.
#![tactic(auto)]

ghost use Rattle.c_typing_unique.specs.Theorems.{PlainValuesAreOne, DroppedValuesAreOne, ConvertedValuesAreOne, AssignedValuesAreOne, BareValuesAreOne, PlacesAreOne, AggregatesAreNoValues, TypeNamesAreOne, SpecifiersAreOne, LoneSpecifiersAreOne, DeclaratorsAreOne, ParametersAreOne};

/// An expression has one plain value. It has one value where it is dropped (C99 6.8.3), where it is converted to a type (C99 6.8.6.4), and
/// where it is assigned to one (C99 6.5.16, 6.7.8), an allocation that is taken over among them; and one apart from its conversion.
pub fn an_expression_has_one_value()
    ensures plain { PlainValuesAreOne }
    ensures dropped { DroppedValuesAreOne }
    ensures converted { ConvertedValuesAreOne }
    ensures assigned { AssignedValuesAreOne }
    ensures apart { BareValuesAreOne }
{}

/// An expression is one place, and no plain value where the place is a struct or union.
pub fn an_expression_is_one_place()
    ensures place { PlacesAreOne }
    ensures aggregate { AggregatesAreNoValues }
{}

/// A type name has one tree, and so has a list of specifiers, with a declarator after it or alone.
pub fn a_type_name_has_one_tree()
    ensures type_name { TypeNamesAreOne }
    ensures specifiers { SpecifiersAreOne }
    ensures alone { LoneSpecifiersAreOne }
{}

/// A declarator has one tree and makes one type, where its name has one home; and the parameters of a function have one tree.
pub fn a_declarator_has_one_tree()
    ensures declarator { DeclaratorsAreOne }
    ensures parameters { ParametersAreOne }
{}
