//! Type names (C99 6.7.6) and declarators that may be left out.
ghost use Rattle.std.specs.Prelude.{IfOk, option_map};
ghost use Rattle.c_tree.specs.Depth.{type_name_height, declared_height};
ghost use Rattle.c_tree.specs.Views.{declared_of, declarator_view, type_name_view};
ghost use Rattle.c_parse_words.specs.Seen.{names_of, naming_view, Reads};
ghost use Rattle.c_expr_parse.specs.ExprRules as spec;
ghost use Rattle.c_expr_parse.specs.Rules.{rules};
ghost use Rattle.c_expr_parse.specs.Nests.{Nests, IsMeasured};

use crate::grammar::Grammar;
use c_parse_words::begins::{Naming, begins_declarator};
use c_parse_words::cursor::Cursor;
use c_parse_words::measured::Measured;
use c_parse_words::stop::Stop;
use c_parse_words::words::Scope;
use c_tree::{Declarator, Expr, Specifiers, TypeName};
use indexmap::IndexSet;
use std::alloc::Global;

impl<
    'a,
    E: Fn(Global, &IndexSet<Vec<u8>>, &mut Cursor<'_>, u16, u8) -> Result<Measured<Expr>, Stop>,
    S: Fn(
        Global,
        &IndexSet<Vec<u8>>,
        &mut Cursor<'_>,
        u16,
        Scope,
    ) -> Result<Measured<Specifiers>, Stop>,
    D: Fn(
        Global,
        &IndexSet<Vec<u8>>,
        &mut Cursor<'_>,
        u16,
        Naming,
    ) -> Result<Measured<Declarator>, Stop>,
> Grammar<'a, E, S, D> {
    /// A declarator where one comes.
    #[tactic(auto, unfolding(crate::specs::ExprRules::declared))]
    pub fn declared(
        &self,
        cursor: &mut Cursor<'_>,
        naming: Naming,
    ) -> Result<Measured<Option<Declarator>>, Stop>
        requires nests { Nests self.now.names.now self.now.depth (E.pre self.now.read_expr)
            (E.post self.now.read_expr) (S.pre self.now.read_specifiers)
            (S.post self.now.read_specifiers) (D.pre self.now.read_declarator)
            (D.post self.now.read_declarator) }
        ensures reads { Reads (λ m. declared_of (option_map declarator_view m.tree))
            (spec.declared (names_of self.now.names.now)
            (rules (names_of self.now.names.now) self.now.depth) (naming_view naming) cursor.old)
            result cursor.new }
        ensures height { IfOk result (λ m. IsMeasured self.now.depth
            (declared_height (declared_of (option_map declarator_view m.tree))) m.height) }
    {
        if !begins_declarator(self.names, naming, cursor.peek()) {
            return Ok(Measured {
                tree: None,
                height: 0,
            });
        }
        let Measured { tree, height } = self.declarator(cursor, naming)?;
        Ok(Measured {
            tree: Some(tree),
            height,
        })
    }

    #[tactic(auto, using(c_tree::proofs::ViewLaws::expr_views), unfolding(crate::specs::ExprRules::type_name))]
    pub fn type_name(&self, cursor: &mut Cursor<'_>) -> Result<Measured<TypeName>, Stop>
        requires nests { Nests self.now.names.now self.now.depth (E.pre self.now.read_expr)
            (E.post self.now.read_expr) (S.pre self.now.read_specifiers)
            (S.post self.now.read_specifiers) (D.pre self.now.read_declarator)
            (D.post self.now.read_declarator) }
        ensures reads { Reads (λ m. type_name_view m.tree) (spec.type_name
            (names_of self.now.names.now) (rules (names_of self.now.names.now) self.now.depth)
            cursor.old) result cursor.new }
        ensures height { IfOk result (λ m. IsMeasured self.now.depth
            (type_name_height (type_name_view m.tree)) m.height) }
    {
        let Measured {
            tree: specifiers,
            height,
        } = self.specifiers(cursor, Scope::InType)?;
        let declared = self.declared(cursor, Naming::WithoutName)?;
        Ok(Measured {
            tree: TypeName {
                specifiers,
                declarator: declared.tree,
            },
            height: height.max(declared.height),
        })
    }
}
