//! Names with their types and homes (C99 6.2.2, 6.2.4, 6.7).
#![tactic(auto)]

ghost use Rattle.std.specs.Prelude.{◌≡◌};
ghost use Rattle.c_types.specs.Table.{shape_at};
ghost use Rattle.c_typing.specs.Shapes.{is_function_shape};
ghost use Rattle.c_check_context.specs.CodeViews.{storage_view, declared_view, name_view, object_view};
ghost use Rattle.c_check_context.specs.ContextViews.{state_of};
ghost use Rattle.c_unit_typing.specs.UnitJudging.{Answers};
ghost use Rattle.c_unit_typing.specs.DeclarationJudging as judging;

use crate::context::Context;
use crate::homes::{Storage, is_linked_object};
use c_tree::{Home, Identifier};
use c_types::Types;
use c_typing::Declared;
use c_typing::shapes::{is_function, shape_at};
use c_typing::stops::no_room;
use cc_base::{Fault, NodeId, TypeId};

/// The bytes of an object of a complete type.
fn complete_size(types: &Types, t: TypeId) -> Option<u64>
    ensures { result ≡ judging.complete_size types.now t }
{
    if t.0 >= types.count() || !types.is_complete(t) {
        return None;
    }
    Some(types.size_of(t))
}

impl Context {
    /// A new object that lives as long as the program: its bytes are counted.
    #[tactic(auto, unfolding(c_unit_typing::specs::DeclarationJudging::new_static, c_unit_typing::specs::DeclarationJudging::count_object))]
    fn new_static(&mut self, name: &Identifier, home: NodeId, t: TypeId) -> Result<(), Fault>
        ensures { Answers (λ u. home) (judging.new_static name.now home t (state_of self.old))
            result (state_of self.new) }
    {
        let Some(bytes) = complete_size(&self.types, t) else {
            return Err(no_room(name.place));
        };
        self.count_global(name.place, bytes)?;
        self.lasting(home)
    }

    /// An object is declared, by its home.
    #[tactic(auto, unfolding(c_unit_typing::specs::DeclarationJudging::declare_object))]
    fn declare_object(
        &mut self,
        linked: bool,
        name: &Identifier,
        t: TypeId,
        home: Home,
    ) -> Result<(), Fault>
        ensures { Answers (λ u. object_view t home) (judging.declare_object linked name.now t home
            (state_of self.old)) result (state_of self.new) }
    {
        match home {
            Home::Static(n) => {
                self.new_static(name, n, t)?;
                self.object_name(linked, name, Declared::Object(t, n))
            }
            Home::Known(n) => self.object_name(linked, name, Declared::Object(t, n)),
            Home::Local(n) => self.new_name(name, Declared::Object(t, n)),
            Home::None => Err(no_room(name.place)),
            Home::Parameter(_) => Err(no_room(name.place)),
        }
    }

    /// A function, or an object by its home.
    #[tactic(auto, unfolding(c_unit_typing::specs::DeclarationJudging::declare_by))]
    fn declare_by(
        &mut self,
        function: bool,
        linked: bool,
        name: &Identifier,
        t: TypeId,
        home: Home,
    ) -> Result<(), Fault>
        ensures { Answers (λ u. declared_view function t home)
            (judging.declare_by function linked name.now t home (state_of self.old)) result
            (state_of self.new) }
    {
        if function {
            self.linked_name(name, Declared::Function(t))
        } else {
            self.declare_object(linked, name, t, home)
        }
    }

    /// A name is declared, with its type and its home.
    #[tactic(auto, unfolding(c_unit_typing::specs::DeclarationJudging::declare))]
    pub fn declare(
        &mut self,
        file: bool,
        storage: Storage,
        name: &Identifier,
        t: TypeId,
        home: Home,
    ) -> Result<(), Fault>
        ensures { Answers (λ u. name_view (is_function_shape (shape_at self.old.types t))
            (storage_view storage) t home) (judging.declare file
            (storage_view storage) name.now t home (state_of self.old)) result (state_of self.new) }
    {
        match storage {
            Storage::AsTypedef => self.new_name(name, Declared::Typedef(t)),
            _ => {
                let function = is_function(shape_at(&self.types, t));
                self.declare_by(function, is_linked_object(file, storage), name, t, home)
            }
        }
    }
}
