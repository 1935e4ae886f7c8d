//! The table of types: adding, defining and reading types.
#![tactic(auto)]

ghost use Rattle.std.specs.Prelude.{◌≡◌, ◌↔◌, ◌⊎◌, ◌+◌, ◌<◌, ◌≤◌, [], ◌∷◌, ◌++◌, length, sum_by, None, Some, IfOk, IfErr, OnOk, OnErr, SomeIff, IfSome, IsTrue, MatchOption, map, ◌*◌};
ghost use Rattle.std.specs.List.{All};
ghost use Rattle.cc_base.specs.declared.number.TypeId.{TypeId};
ghost use Rattle.cc_base.specs.declared.fault.Limit.TheVariants.{Types as limit_types, Object as limit_object};
ghost use Rattle.c_types.specs.declared.fault.TypeFault.TheVariants.{TooLarge, NoMemory as no_memory};
ghost use Rattle.c_types.specs.declared.shape.TypeShape.TheVariants.{Integer, Struct, Union};
ghost use Rattle.c_types.specs.Table.{IsType, IsComplete, IsAggregate, HasShape, entry_at, shape_at, members_at, is_complete};
ghost use Rattle.c_types.specs.Layouts.{layout_of, size_of, align_of, offset_of, member_at, members_end, struct_layout, union_layout};
ghost use Rattle.c_types.specs.PointerCounts.{larger, largest_member, pointers_of_shape, pointers_in};
ghost use Rattle.c_types.specs.Sound.{IsWellFormed, IsSized, IsIntegerSize};
ghost use Rattle.c_types.specs.Sameness.{is_same_type};
ghost use Rattle.c_types.specs.Kept.{IsKeptOf, ArePlaces};
ghost use Rattle.c_types.specs.Calls.{IsNew, IsAddable, IsDefinable, IsTypeFault, basic_entry, basic_table, new_layout, with_members, defined_layout};

use crate::canonical::{canonical, first_of, first_with};
use crate::fault::TypeFault;
use crate::kept::{FieldPlace, Kept};
use crate::layout::{Layout, round_up};
use crate::shape::TypeShape;
use cc_base::{Limit, NoMemory, TypeId};
use indexmap::IndexMap;
use std::alloc::Global;
use std::marker::Model;

/// The most types of a unit.
const MOST_TYPES: usize = 16_384;

/// The most bytes of a type.
const MOST_BYTES: u64 = 1_048_576;

/// The table of the types of a unit. Contracts see the list of its types, in which a type's number
/// is its place.
pub struct Types {
    alloc: Global,
    entries: IndexMap<TypeShape, Kept>,
    /// Beside each canonical shape the first type that has it.
    known: IndexMap<TypeShape, TypeId>,
}

impl Drop for Types {
    fn drop(self) {
        let Self {
            alloc: _,
            entries: _,
            known: _,
        } = self;
    }
}

impl Model for Types {
    ghost use Rattle.std.specs.Prelude.{List};
    ghost use Rattle.c_types.specs.Table.{Entry};

    ghost Value = { List Entry };

    ghost use Rattle.c_types.specs.Kept.{table_of, IsSound};

    ghost view = { λ s. table_of s.entries.entries };

    ghost invariant = { λ s. IsSound s.entries.entries s.known.entries };
}

impl Types {
    /// The number of types. Each table is well formed.
    pub fn count(&self) -> u32
        ensures number { result ≡ length self.now }
        ensures formed { IsWellFormed self.now }
    {
        self.entries.len() as u32
    }

    /// The table of `void` and the integer types.
    pub fn new(alloc: Global) -> Result<Types, NoMemory>
        ensures { IfOk result (λ types. types ≡ basic_table) }
    {
        let mut types = Types {
            alloc,
            entries: IndexMap::new(alloc),
            known: IndexMap::new(alloc),
        };
        types.insert(TypeShape::Void, Layout::none())?;
        types.insert_integer(1, true)?;
        types.insert_integer(1, false)?;
        types.insert_integer(2, true)?;
        types.insert_integer(2, false)?;
        types.insert_integer(4, true)?;
        types.insert_integer(4, false)?;
        types.insert_integer(8, true)?;
        types.insert_integer(8, false)?;
        Ok(types)
    }

    /// A table of the same types.
    pub fn copy(&self) -> Result<Types, NoMemory>
        ensures { IfOk result (λ types. types ≡ self.now) }
    {
        Ok(Types {
            alloc: self.alloc,
            entries: self.entries.clone()?,
            known: self.known.clone()?,
        })
    }

    /// The number of a type by its shape; one that is not in the table is added to it.
    ///
    /// The answer is `TooLarge(Types)` where the table has 16,384 types already, else
    /// `TooLarge(Object)` where the type would have more than 1,048,576 bytes.
    pub fn add(&mut self, shape: TypeShape) -> Result<TypeId, TypeFault>
        requires { IsAddable self.old shape }
        ensures known { (t : TypeId) → HasShape self.old t shape → (result ≡ Ok t)
            × (self.new ≡ self.old) }
        ensures added { IsNew self.old shape → IfOk result (λ t. (t.0 ≡ length self.old)
            × (self.new ≡ self.old ++ (basic_entry shape ∷ []))) }
        ensures types { (result ≡ Err (TooLarge limit_types)) ↔
            (IsNew self.old shape × (16384 < length self.old + 1)) }
        ensures object { (result ≡ Err (TooLarge limit_object)) ↔
            (IsNew self.old shape × (length self.old + 1 ≤ 16384)
            × (1048576 < (new_layout self.old shape).size)) }
        ensures refused { IfErr result IsTypeFault }
        ensures unchanged { OnErr result (self.new ≡ self.old) }
        ensures others { (t : TypeId) → IsType self.old t → layout_of self.new t
            ≡ layout_of self.old t }
    {
        if let Some(t) = self.find(&shape) {
            return Ok(t);
        }
        if self.entries.len() >= MOST_TYPES {
            return Err(TypeFault::TooLarge(Limit::Types));
        }
        let Some(layout) = self.new_layout(&shape) else {
            return Err(TypeFault::TooLarge(Limit::Object));
        };
        Ok(self.insert(shape, layout)?)
    }

    /// The number of the type with a shape, if it is there.
    fn find(&self, shape: &TypeShape) -> Option<TypeId>
        ensures there { MatchOption result (IsNew self.now shape.now)
            (λ t. HasShape self.now t shape.now) }
        ensures unique { IfSome result (λ t. (u : TypeId) → HasShape self.now u shape.now → t ≡ u) }
    {
        match self.entries.get_index_of(shape) {
            Some(index) => Some(TypeId(index as u32)),
            None => None,
        }
    }

    /// The layout of a shape that has no members, unless it has too many bytes.
    fn new_layout(&self, shape: &TypeShape) -> Option<Layout>
        requires { IsAddable self.now shape.now }
        ensures { SomeIff result ((new_layout self.now shape.now).size ≤ 1048576)
            (new_layout self.now shape.now) }
    {
        match shape {
            TypeShape::Integer { bytes, signed: _ } => Some(Layout::of_bytes(*bytes)),
            TypeShape::Pointer(_, _) => Some(Layout::of_bytes(8)),
            TypeShape::Array(element, count) => array_layout(self.layout(*element), *count),
            _ => Some(Layout::none()),
        }
    }

    /// Gives a struct or union its members (C99 6.7.2.1).
    ///
    /// The answer is `TooLarge(Object)` where the type would have more than 1,048,576 bytes.
    pub fn define(&mut self, t: TypeId, members: Vec<TypeId>) -> Result<(), TypeFault>
        requires { IsDefinable self.old t members.items }
        ensures defined { OnOk result (self.new ≡ with_members self.old t members.items) }
        ensures object { (result ≡ Err (TooLarge limit_object)) ↔
            (1048576 < (defined_layout self.old t members.items).size) }
        ensures refused { IfErr result (λ fault. (fault ≡ TooLarge limit_object)
            ⊎ (fault ≡ no_memory)) }
        ensures unchanged { OnErr result (self.new ≡ self.old) }
        ensures others { (u : TypeId) → IsComplete self.old u → layout_of self.new u
            ≡ layout_of self.old u }
    {
        let Some(layout) = self.defined_layout(t, &members) else {
            return Err(TypeFault::TooLarge(Limit::Object));
        };
        let pointers = self.defined_pointers(t, &members);
        let fields = self.places(t, &members)?;
        let first = first_of(&self.entries, t);
        self.entries[t.0 as usize] = Kept {
            layout,
            pointers,
            fields,
            first,
        };
        Ok(())
    }

    /// The layout of a struct or union with these members, unless it has too many bytes.
    fn defined_layout(&self, t: TypeId, members: &[TypeId]) -> Option<Layout>
        requires typed { IsType self.now t }
        requires aggregate { IsAggregate self.now t }
        requires complete { All (IsComplete self.now) members.now }
        ensures { SomeIff result ((defined_layout self.now t members.now).size ≤ 1048576)
            (defined_layout self.now t members.now) }
    {
        match self.shape(t) {
            TypeShape::Struct(_) => self.struct_layout(members),
            _ => self.union_layout(members),
        }
    }

    /// The layout of a struct with these members, unless it has too many bytes.
    fn struct_layout(&self, members: &[TypeId]) -> Option<Layout>
        requires { All (IsComplete self.now) members.now }
        ensures { SomeIff result ((struct_layout (map (layout_of self.now) members.now)).size ≤
            1048576) (struct_layout (map (layout_of self.now) members.now)) }
    {
        let mut end = 0;
        let mut align = 1;
        'members: for m in members {
            let member = self.layout(*m);
            end = round_up(end, member.align) + member.size;
            if end > MOST_BYTES {
                return None;
            }
            align = align.max(member.align);
        }
        bounded(round_up(end, align), align)
    }

    /// The layout of a union with these members, unless it has too many bytes.
    fn union_layout(&self, members: &[TypeId]) -> Option<Layout>
        requires { All (IsComplete self.now) members.now }
        ensures { SomeIff result ((union_layout (map (layout_of self.now) members.now)).size ≤
            1048576) (union_layout (map (layout_of self.now) members.now)) }
    {
        let mut size = 0;
        let mut align = 1;
        'members: for m in members {
            let member = self.layout(*m);
            size = size.max(member.size);
            align = align.max(member.align);
        }
        bounded(round_up(size, align), align)
    }

    /// The places of the members of a struct or union.
    fn places(&self, t: TypeId, members: &[TypeId]) -> Result<Vec<FieldPlace>, NoMemory>
        requires typed { IsType self.now t }
        requires aggregate { IsAggregate self.now t }
        requires complete { All (IsComplete self.now) members.now }
        requires small { (defined_layout self.now t members.now).size ≤ 1048576 }
        ensures { IfOk result (λ fields. ArePlaces (layout_of self.now)
            (shape_at self.now t) members.now fields.items) }
    {
        match self.shape(t) {
            TypeShape::Struct(_) => self.struct_places(members),
            _ => self.union_places(members),
        }
    }

    /// The places of the members of a struct, each at the next multiple of its alignment.
    fn struct_places(&self, members: &[TypeId]) -> Result<Vec<FieldPlace>, NoMemory>
        requires complete { All (IsComplete self.now) members.now }
        requires small { members_end (map (layout_of self.now) members.now) ≤ 1048576 }
        ensures { IfOk result (λ fields. ArePlaces (layout_of self.now)
            (Struct 0) members.now fields.items) }
    {
        let mut fields = Vec::with_capacity(self.alloc, members.len())?;
        let mut end = 0;
        'members: for m in members {
            let member = self.layout(*m);
            let offset = round_up(end, member.align);
            fields.push(FieldPlace { offset, ty: *m })?;
            end = offset + member.size;
        }
        Ok(fields)
    }

    /// The places of the members of a union, all at its start.
    fn union_places(&self, members: &[TypeId]) -> Result<Vec<FieldPlace>, NoMemory>
        ensures { IfOk result (λ fields. ArePlaces (layout_of self.now)
            (Union 0) members.now fields.items) }
    {
        let mut fields = Vec::with_capacity(self.alloc, members.len())?;
        'members: for m in members {
            fields.push(FieldPlace { offset: 0, ty: *m })?;
        }
        Ok(fields)
    }

    /// How many pointers an object of a shape that has no members holds.
    fn new_pointers(&self, shape: &TypeShape) -> u64
        requires addable { IsAddable self.now shape.now }
        requires small { (new_layout self.now shape.now).size ≤ 1048576 }
        ensures { result ≡ pointers_of_shape (size_of self.now)
            (pointers_in self.now) shape.now [] }
    {
        match shape {
            TypeShape::Pointer(_, _) => 1,
            TypeShape::Array(element, count) => *count * self.pointers(*element),
            _ => 0,
        }
    }

    /// How many pointers an object of a struct or union with these members holds.
    fn defined_pointers(&self, t: TypeId, members: &[TypeId]) -> u64
        requires typed { IsType self.now t }
        requires aggregate { IsAggregate self.now t }
        requires complete { All (IsComplete self.now) members.now }
        requires small { (defined_layout self.now t members.now).size ≤ 1048576 }
        ensures { result ≡ pointers_of_shape (size_of self.now) (pointers_in self.now)
            (shape_at self.now t) members.now }
    {
        let _ = &self.alloc;
        match self.shape(t) {
            TypeShape::Struct(_) => self.pointers_of_all(members),
            _ => match self.largest(members) {
                Some(member) => self.pointers(member),
                None => 0,
            },
        }
    }

    /// How many pointers the members of a struct hold together.
    fn pointers_of_all(&self, members: &[TypeId]) -> u64
        requires complete { All (IsComplete self.now) members.now }
        requires small { sum_by (pointers_in self.now) members.now ≤ 131072 }
        ensures { result ≡ sum_by (pointers_in self.now) members.now }
    {
        let mut total = 0;
        'members: for m in members {
            total += self.pointers(*m);
        }
        total
    }

    /// The first of the greatest size among the members of a union.
    fn largest(&self, members: &[TypeId]) -> Option<TypeId>
        requires { All (IsComplete self.now) members.now }
        ensures largest { result ≡ largest_member (size_of self.now) None members.now }
        ensures complete { IfSome result (IsComplete self.now) }
    {
        let mut found: Option<TypeId> = None;
        'members: for m in members {
            found = self.larger(found, *m);
        }
        found
    }

    /// The larger of two members of a union; of two that are equally large the first.
    fn larger(&self, found: Option<TypeId>, member: TypeId) -> Option<TypeId>
        requires other { IfSome found (IsComplete self.now) }
        requires member { IsComplete self.now member }
        ensures { result ≡ Some (larger (size_of self.now) found member) }
    {
        match found {
            Some(other) if self.size_of(member) <= self.size_of(other) => Some(other),
            _ => Some(member),
        }
    }

    /// Puts a type with a new shape at the end of the table.
    fn insert(&mut self, shape: TypeShape, layout: Layout) -> Result<TypeId, NoMemory>
        requires fresh { IsNew self.old shape }
        requires room { length self.old < 16384 }
        requires addable { IsAddable self.old shape }
        requires layout { layout ≡ new_layout self.old shape }
        requires small { layout.size ≤ 1048576 }
        ensures number { IfOk result (λ t. t.0 ≡ length self.old) }
        ensures added { OnOk result (self.new ≡ self.old ++ (basic_entry shape ∷ [])) }
        ensures unchanged { OnErr result (self.new ≡ self.old) }
        ensures others { (t : TypeId) → IsType self.old t → layout_of self.new t
            ≡ layout_of self.old t }
    {
        let t = TypeId(self.entries.len() as u32);
        let pointers = self.new_pointers(&shape);
        let canonical = canonical(self.alloc, &self.entries, &shape)?;
        self.entries.reserve(1)?;
        let first = first_with(&mut self.known, canonical, t)?;
        let kept = Kept {
            layout,
            pointers,
            fields: Vec::new(self.alloc),
            first,
        };
        self.entries.insert(shape, kept)?;
        Ok(t)
    }

    /// Puts a new integer type at the end of the table.
    fn insert_integer(&mut self, bytes: u64, signed: bool) -> Result<TypeId, NoMemory>
        requires fresh { IsNew self.old (Integer bytes signed) }
        requires room { length self.old < 16384 }
        requires bytes { IsIntegerSize bytes }
        ensures added { OnOk result (self.new ≡ self.old ++
            (basic_entry (Integer bytes signed) ∷ [])) }
    {
        let shape = TypeShape::Integer { bytes, signed };
        self.insert(shape, Layout::of_bytes(bytes))
    }

    /// What is kept of a type.
    fn kept(&self, t: TypeId) -> (&TypeShape, &Kept)
        requires { IsType self.now t }
        ensures shape { result.0.now ≡ shape_at self.now t }
        ensures kept { IsKeptOf self.now t result.1.now }
        ensures members { map (λ f. f.ty) result.1.now.fields.items ≡ members_at self.now t }
    {
        self.entries.get_index(t.0 as usize).unwrap()
    }

    /// Whether two types are the same (C99 6.2.7).
    pub fn is_same(&self, t: TypeId, u: TypeId) -> bool
        requires left { IsType self.now t }
        requires right { IsType self.now u }
        ensures { result ≡ is_same_type self.now t u }
    {
        first_of(&self.entries, t) == first_of(&self.entries, u)
    }

    /// The shape of a type.
    pub fn shape(&self, t: TypeId) -> &TypeShape
        requires { IsType self.now t }
        ensures { result.now ≡ shape_at self.now t }
    {
        self.kept(t).0
    }

    /// Whether a type is a complete object type (C99 6.2.5).
    pub fn is_complete(&self, t: TypeId) -> bool
        requires { IsType self.now t }
        ensures { result ≡ is_complete (entry_at self.now t) }
    {
        match self.shape(t) {
            TypeShape::Void | TypeShape::Function(_, _) => false,
            TypeShape::Struct(_) | TypeShape::Union(_) => self.fields(t) > 0,
            _ => true,
        }
    }

    /// The size and the alignment of a type.
    pub(crate) fn layout(&self, t: TypeId) -> Layout
        requires { IsType self.now t }
        ensures layout { result ≡ layout_of self.now t }
        ensures sized { IsComplete self.now t → IsSized self.now t }
    {
        let _ = &self.alloc;
        self.kept(t).1.layout
    }

    /// The number of bytes of a complete type (C99 6.5.3.4).
    pub fn size_of(&self, t: TypeId) -> u64
        requires { IsComplete self.now t }
        ensures { result ≡ size_of self.now t }
    {
        self.layout(t).size
    }

    /// The alignment of a complete type, in bytes (C99 6.2.5).
    pub fn align_of(&self, t: TypeId) -> u64
        requires { IsComplete self.now t }
        ensures { result ≡ align_of self.now t }
    {
        self.layout(t).align
    }

    /// How many pointers an object of a type holds, of a union those of its largest member. It takes constant time.
    pub fn pointers(&self, t: TypeId) -> u64
        requires { IsType self.now t }
        ensures count { result ≡ pointers_in self.now t }
        ensures small { 8 * result ≤ size_of self.now t }
    {
        let _ = &self.alloc;
        self.kept(t).1.pointers
    }

    /// The number of members of a struct or union, 0 where none are defined so far.
    pub fn fields(&self, t: TypeId) -> usize
        requires typed { IsType self.now t }
        requires aggregate { IsAggregate self.now t }
        ensures { result ≡ length (members_at self.now t) }
    {
        self.kept(t).1.fields.len()
    }

    /// The place and the type of the member number `i` of a complete struct or union (C99 6.7.2.1).
    pub fn field(&self, t: TypeId, i: usize) -> FieldPlace
        requires typed { IsType self.now t }
        requires aggregate { IsAggregate self.now t }
        requires there { i < length (members_at self.now t) }
        ensures offset { result.offset ≡ offset_of self.now t i }
        ensures ty { result.ty ≡ member_at self.now t i }
    {
        self.kept(t).1.fields[i]
    }
}

/// The layout of an array of `count` elements, unless it has too many bytes (C99 6.2.5).
fn array_layout(element: Layout, count: u64) -> Option<Layout>
    ensures { SomeIff result (count * element.size ≤ 1048576)
        (record { size = count * element.size; align = element.align }) }
{
    bounded(count.checked_mul(element.size)?, element.align)
}

/// The layout with this size, unless it has too many bytes.
fn bounded(size: u64, align: u64) -> Option<Layout>
    ensures { SomeIff result (size ≤ 1048576) (record { size = size; align = align }) }
{
    if size > MOST_BYTES {
        None
    } else {
        Some(Layout { size, align })
    }
}
