//! What type names, specifiers, declarators and parameters use: types, sizes of arrays, which are of 64 bits, and members, which have names.
#![tactic(auto)]

ghost use Rattle.std.specs.Prelude.{◌≡◌};
ghost use Rattle.c_tree.specs.Tree as tree;
ghost use Rattle.c_tree.specs.TypedTree.{TypedEnumerators, TypedMembers, TypedTypeName};
ghost use Rattle.c_typing.specs.Judging.{Gives, State};
ghost use Rattle.c_typing.specs.Settled.{IsKnown};
ghost use Rattle.c_typing.specs.Walks.{judge_enumerators, judge_members, judge_type_name};
ghost use Rattle.c_type_order.specs.TypesUsed.{used_by_enumerators, used_by_members, used_by_type_name};
ghost use Rattle.c_type_order.specs.Uses.{IsUsed};
ghost use Rattle.c_type_order.specs.Theorems.{SpecifiersUseTypesInOrder, FormsUseTypesInOrder, DeclaratorsUseTypesInOrder, PrototypesUseTypesInOrder};

/// What a type name, specifiers, members and enumerators use.
pub fn types_of_specifiers_are_used_in_order()
    ensures type_name { (name : tree.TypeName) (t : TypedTypeName) (s r : State) → IsKnown s
        → judge_type_name name s ≡ Gives t r → IsUsed (λ T. used_by_type_name T t) s.table r.table }
    ensures specifiers { SpecifiersUseTypesInOrder }
    ensures members { (all : tree.Members) (rows : TypedMembers) (s r : State) → IsKnown s
        → judge_members all s ≡ Gives rows r
        → IsUsed (λ T. used_by_members T rows) s.table r.table }
    ensures enumerators { (all : tree.Enumerators) (list : TypedEnumerators) (s r : State)
        → IsKnown s → judge_enumerators all s ≡ Gives list r
        → IsUsed (λ T. used_by_enumerators T list) s.table r.table }
{}

/// What the inside of a declarator uses, what a declarator with the types that it makes uses, and what a function's parameters use.
pub fn types_of_declarators_are_used_in_order()
    ensures form { FormsUseTypesInOrder }
    ensures declarator { DeclaratorsUseTypesInOrder }
    ensures prototype { PrototypesUseTypesInOrder }
{}
