//! The view of a table that remembers what it found.
#![tactic(auto)]

ghost use Rattle.std.specs.Prelude.{ℕ, ◌≡◌, ◌≢◌, ◌↔◌, ◌⊎◌, length, IfOk, OnOk, IsTrue};
ghost use Rattle.std.specs.List.{AllPairs, Contains};
ghost use Rattle.cc_base.specs.declared.number.TypeId.{TypeId};
ghost use Rattle.cc_base.specs.declared.number.NodeId.{NodeId};
ghost use Rattle.cc_base.specs.declared.kind.Kind.{Kind};
ghost use Rattle.c_types.specs.Table.{IsType};
ghost use Rattle.c_types.specs.Cells.{holds_pointer};
ghost use Rattle.c_types.specs.Equality.{physically_equal, begins_with, strictly_below, cells_of};
ghost use Rattle.c_types.specs.Flows.{flow_class, CorrespondAtTop, StandAlike};
ghost use Rattle.c_types.specs.Contents.{HoldsMixed};
ghost use Rattle.phys_types.specs.Firsts.{AreFirstEquals};
ghost use Rattle.phys_types.specs.Found.{Gains};
ghost use Rattle.phys_types.specs.Lending.{lent_layout};
ghost use Rattle.phys_types.specs.Pairs.{AreCorrespondingNodes, TellsEqualKinds};
ghost use Rattle.phys_types.specs.Rounds.{TellEqual};
ghost use Rattle.phys_types.specs.Shown.{IsLayoutOf, IsKeptOf};
ghost use Rattle.phys_types.specs.Standing.{AreEqualTypes, CorrespondInSome};

use crate::alike::{add_alike, add_copies};
use crate::building::{kept, lend_type};
use crate::comparing::{begins, begins_by_part, number_of};
use crate::firsts::firsts_of;
use crate::following::follow;
use crate::found::Found;
use crate::keeping::Repeated;
use crate::lending::Lent;
use crate::mixed_unions::{has_union, unions_of};
use crate::order::in_order;
use crate::phys::{is_one_function, settled_class, settled_pairs};
use crate::round::settle;
use crate::top::add_top;
use c_types::{FlowClass, Types};
use cc_base::{NoMemory, NodeId, TypeId};
use std::alloc::Global;
use std::marker::Model;

/// How the layouts of all types of a table lie to each other: what is known of the types is found once, and each question reads it
/// (CCured, TOPLAS 2005). Contracts see the table.
#[derive(Drop)]
pub struct Known<'a> {
    alloc: Global,
    types: &'a Types,
    order: Vec<TypeId>,
    places: Vec<usize>,
    numbers: Vec<usize>,
    layouts: Vec<Repeated>,
}

impl<'a> Model for Known<'a> {
    ghost use Rattle.std.specs.Prelude.{List};
    ghost use Rattle.c_types.specs.Table.{Entry};

    ghost Value = { List Entry };

    ghost use Rattle.phys_types.specs.Views.{IsKnown};

    ghost view = { λ s. s.types.now };

    ghost invariant = { λ s. IsKnown s.types.now s.order.items s.places.items s.numbers.items s.layouts.items };
}

impl<'a> Known<'a> {
    /// Of all types of a table.
    pub(crate) fn of(alloc: Global, types: &'a Types) -> Result<Known<'a>, NoMemory>
        ensures { IfOk result (λ known. known ≡ types.now) }
    {
        let _count = types.count();
        let order = in_order(alloc, types)?;
        let settled = settle(alloc, types, &order.list, &order.places)?;
        Ok(Known {
            alloc,
            types,
            order: order.list,
            places: order.places,
            numbers: settled.numbers,
            layouts: settled.layouts,
        })
    }

    /// The layout of a type: its cells. One of a long array is written out, any other takes constant time.
    pub fn layout(&self, t: TypeId) -> Result<Lent<'_>, NoMemory>
        requires { IsType self.now t }
        ensures { IfOk result (λ lent. IsLayoutOf self.now (physically_equal self.now) t
            (lent_layout lent)) }
    {
        lend_type(self.alloc, &self.places, &self.layouts, t)
    }

    /// The layout of a type as a part and how often it stands. Takes no memory.
    pub fn repeated(&self, t: TypeId) -> &Repeated
        requires { IsType self.now t }
        ensures { IsKeptOf self.now (physically_equal self.now) t result.now }
    {
        kept(&self.places, &self.layouts, t)
    }

    /// How many cells a type has. Takes no memory.
    pub fn cell_count(&self, t: TypeId) -> u64
        requires { IsType self.now t }
        ensures { result ≡ length (cells_of self.now t) }
    {
        let own = kept(&self.places, &self.layouts, t);
        own.count * own.part.size
    }

    /// Whether a type holds a pointer by value. Takes no memory.
    pub fn holds_pointer(&self, t: TypeId) -> bool
        requires { IsType self.now t }
        ensures { result ≡ holds_pointer self.now t }
    {
        self.repeated(t).part.holds
    }

    /// Whether two types are physically equal.
    pub fn is_equal(&self, t: TypeId, u: TypeId) -> bool
        requires first { IsType self.now t }
        requires second { IsType self.now u }
        ensures { result ≡ physically_equal self.now t u }
    {
        number_of(&self.numbers, t) == number_of(&self.numbers, u)
    }

    /// Numbers of the types that are the same exactly for physically equal ones. Takes no memory.
    pub fn numbers(&self) -> &[usize]
        ensures { TellEqual self.now result.now }
    {
        &self.numbers
    }

    /// Of each type the first that is physically equal: types are physically equal exactly where these are the same.
    pub fn first_equals(&self) -> Result<Vec<TypeId>, NoMemory>
        ensures { IfOk result (λ firsts. AreFirstEquals self.now firsts.items) }
    {
        firsts_of(self.alloc, self.types.count(), &self.numbers)
    }

    /// Whether a type begins with another.
    pub fn begins_with(&self, t: TypeId, u: TypeId) -> Result<bool, NoMemory>
        requires first { IsType self.now t }
        requires second { IsType self.now u }
        ensures { IfOk result (λ begins. begins ≡ begins_with self.now t u) }
    {
        if is_one_function(self.types, t, u) {
            return Ok(false);
        }
        if begins_by_part(&self.numbers, self.repeated(t), self.repeated(u)) {
            return Ok(true);
        }
        let x = self.layout(t)?;
        let y = self.layout(u)?;
        Ok(begins(&self.numbers, x.layout(), y.layout()))
    }

    /// Whether a type lies strictly below another: it begins with it and isn't physically equal to it.
    pub fn strictly_below(&self, t: TypeId, u: TypeId) -> Result<bool, NoMemory>
        requires first { IsType self.now t }
        requires second { IsType self.now u }
        ensures { IfOk result (λ below. below ≡ strictly_below self.now t u) }
    {
        let begins = self.begins_with(t, u)?;
        Ok(begins && !self.is_equal(t, u))
    }

    /// The class of a flow from a pointer to `from` to a pointer to `to`.
    pub fn class(&self, from: TypeId, to: TypeId) -> Result<FlowClass, NoMemory>
        requires from { IsType self.now from }
        requires to { IsType self.now to }
        ensures { IfOk result (λ class. class ≡ flow_class self.now from to) }
    {
        settled_class(
            self.alloc,
            self.types,
            &self.order,
            &self.places,
            &self.numbers,
            &self.layouts,
            from,
            to,
        )
    }

    /// The nodes of the pointers that correspond in a flow, at every depth, as `Phys::pairs` gives them.
    pub fn pairs(&self, from: TypeId, to: TypeId) -> Result<Vec<(NodeId, NodeId)>, NoMemory>
        requires from { IsType self.now from }
        requires to { IsType self.now to }
        ensures nodes { IfOk result (λ pairs. AreCorrespondingNodes self.now from to pairs.items) }
        ensures once { IfOk result (λ pairs. AllPairs (λ x y. x ≢ y) pairs.items) }
        ensures kinds { (kind : NodeId → Kind) → IfOk result
            (λ pairs. TellsEqualKinds self.now from to kind pairs.items) }
    {
        settled_pairs(
            self.alloc,
            self.types,
            &self.order,
            &self.places,
            &self.numbers,
            &self.layouts,
            from,
            to,
        )
    }

    /// The mixed unions that a type holds by value.
    pub fn mixed_unions(&self, t: TypeId) -> Result<Vec<TypeId>, NoMemory>
        requires { IsType self.now t }
        ensures { IfOk result (λ unions. (v : TypeId)
            → Contains unions.items v ↔ HoldsMixed self.now t v) }
    {
        let lent = self.layout(t)?;
        unions_of(self.alloc, &lent.layout().spots)
    }

    /// Whether a type is a mixed union.
    pub fn is_mixed(&self, t: TypeId) -> Result<bool, NoMemory>
        requires { IsType self.now t }
        ensures { IfOk result (λ mixed. IsTrue mixed ↔ HoldsMixed self.now t t) }
    {
        let lent = self.layout(t)?;
        Ok(has_union(&lent.layout().spots, t))
    }

    /// Adds the pointers of two types that correspond in a flow of this class between pointers to them, but not those that they lead to.
    pub fn add_flow(
        &self,
        found: &mut Found,
        class: FlowClass,
        from: TypeId,
        to: TypeId,
    ) -> Result<(), NoMemory>
        requires class { class ≡ flow_class self.now from to }
        requires from { IsType self.now from }
        requires to { IsType self.now to }
        ensures { OnOk result (Gains (CorrespondAtTop self.now
            (flow_class self.now from to) from to) found.old found.new) }
    {
        let x = self.repeated(from);
        let y = self.repeated(to);
        add_top(self.alloc, self.types, found, class, from, x, to, y)
    }

    /// Adds the pointers at the same places of two types of which one begins with the other, or which are physically equal, but not
    /// those that they lead to.
    pub fn add_places(&self, found: &mut Found, t: TypeId, u: TypeId) -> Result<(), NoMemory>
        requires first { IsType self.now t }
        requires second { IsType self.now u }
        requires near { IsTrue (physically_equal self.now t u) ⊎ IsTrue (begins_with self.now t u)
            ⊎ IsTrue (begins_with self.now u t) }
        ensures { OnOk result (Gains (StandAlike self.now t u) found.old found.new) }
    {
        let x = self.repeated(t);
        let y = self.repeated(u);
        if self.is_equal(t, u) {
            add_alike(self.types, found, t, x, u, y)
        } else {
            add_copies(found, x, y)
        }
    }

    /// Adds the pointers at the same places of what the pointers found so far point to, at every depth.
    pub fn follow(&self, found: &mut Found) -> Result<(), NoMemory>
        requires { (t u : TypeId) → Contains found.old.pointees (t, u)
            → AreEqualTypes self.now t u }
        ensures { OnOk result (Gains (CorrespondInSome self.now found.old.pointees) found.old
            found.new) }
    {
        follow(self.types, &self.places, &self.layouts, found)
    }
}
