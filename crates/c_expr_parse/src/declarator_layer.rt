//! Declarators (C99 6.7.5, 6.7.6).
ghost use Rattle.std.specs.Prelude.{◌≡◌, suc, IfOk};
ghost use Rattle.c_tree.specs.Depth.{core_height, declarator_height, parts_height};
ghost use Rattle.c_tree.specs.Tree as tree;
ghost use Rattle.c_tree.specs.Views.{core_view, declarator_view};
ghost use Rattle.c_parse_words.specs.Lists.{parts_seen};
ghost use Rattle.c_parse_words.specs.Seen.{names_of, naming_view, core_start_view, Reads};
ghost use Rattle.c_expr_parse.specs.DeclaratorRules as spec;
ghost use Rattle.c_expr_parse.specs.Rules.{rules};
ghost use Rattle.c_expr_parse.specs.Nests.{Nests, IsMeasured};

use crate::boxing::boxed;
use crate::grammar::Grammar;
use c_parse_words::begins::{CoreStart, Naming, begins_parameters, may_omit_name, next_core};
use c_parse_words::cursor::Cursor;
use c_parse_words::lookahead::{is_close_paren, open_bracket};
use c_parse_words::measured::Measured;
use c_parse_words::stars::stars;
use c_parse_words::stop::Stop;
use c_parse_words::words::Scope;
use c_tree::{Core, Declarator, Expr, Identifier, Items, Part, Specifiers, Star};
use cc_base::Place;
use indexmap::IndexSet;
use std::alloc::Global;

impl<
    'a,
    E: Fn(Global, &IndexSet<Vec<u8>>, &mut Cursor<'_>, u16, u8) -> Result<Measured<Expr>, Stop>,
    S: Fn(
        Global,
        &IndexSet<Vec<u8>>,
        &mut Cursor<'_>,
        u16,
        Scope,
    ) -> Result<Measured<Specifiers>, Stop>,
    D: Fn(
        Global,
        &IndexSet<Vec<u8>>,
        &mut Cursor<'_>,
        u16,
        Naming,
    ) -> Result<Measured<Declarator>, Stop>,
> Grammar<'a, E, S, D> {
    /// The parts that go on from these, after stars and what they stand around.
    #[tactic(auto, using(c_tree::proofs::ViewLaws::expr_views), unfolding(crate::specs::DeclaratorRules::parts_from))]
    fn parts_from(
        &self,
        cursor: &mut Cursor<'_>,
        stars: Items<Star>,
        core: Measured<Core>,
        before: Measured<Items<Part>>,
    ) -> Result<Measured<Declarator>, Stop>
        requires nests { Nests self.now.names.now self.now.depth (E.pre self.now.read_expr)
            (E.post self.now.read_expr) (S.pre self.now.read_specifiers)
            (S.post self.now.read_specifiers) (D.pre self.now.read_declarator)
            (D.post self.now.read_declarator) }
        requires core { IsMeasured self.now.depth (core_height (core_view core.tree)) core.height }
        requires measured { IsMeasured self.now.depth (parts_height (parts_seen before.tree))
            before.height }
        ensures reads { Reads (λ m. declarator_view m.tree) (spec.parts_from
            (names_of self.now.names.now) (rules (names_of self.now.names.now) self.now.depth) stars
            (core_view core.tree) (parts_seen before.tree) cursor.old) result cursor.new }
        ensures height { IfOk result (λ m. IsMeasured (suc self.now.depth)
            (declarator_height (declarator_view m.tree)) m.height) }
    {
        let Measured { tree, height } = self.more_parts(cursor, before)?;
        Ok(Measured {
            height: 1 + core.height.max(height),
            tree: Declarator {
                stars,
                core: core.tree,
                parts: tree,
            },
        })
    }

    fn no_parts(&self) -> Measured<Items<Part>>
        ensures parts { parts_seen result.tree ≡ tree.NoPart }
        ensures height { result.height ≡ 0 }
    {
        Measured {
            tree: Items::new(self.alloc),
            height: 0,
        }
    }

    /// After a `(` that a declarator follows.
    #[tactic(auto, using(c_tree::proofs::ViewLaws::expr_views), unfolding(crate::specs::DeclaratorRules::nested))]
    fn nested(
        &self,
        cursor: &mut Cursor<'_>,
        naming: Naming,
        stars: Items<Star>,
        at: Place,
    ) -> Result<Measured<Declarator>, Stop>
        requires nests { Nests self.now.names.now self.now.depth (E.pre self.now.read_expr)
            (E.post self.now.read_expr) (S.pre self.now.read_specifiers)
            (S.post self.now.read_specifiers) (D.pre self.now.read_declarator)
            (D.post self.now.read_declarator) }
        ensures reads { Reads (λ m. declarator_view m.tree) (spec.nested
            (names_of self.now.names.now) (rules (names_of self.now.names.now) self.now.depth)
            (naming_view naming) stars at cursor.old) result cursor.new }
        ensures height { IfOk result (λ m. IsMeasured (suc self.now.depth)
            (declarator_height (declarator_view m.tree)) m.height) }
    {
        let inner = boxed(self.alloc, self.declarator(cursor, naming)?)?;
        let close = is_close_paren(cursor.peek());
        cursor.expect(close)?;
        let core = Measured {
            tree: Core::Nested(at, inner.tree),
            height: inner.height,
        };
        self.parts_from(cursor, stars, core, self.no_parts())
    }

    /// After a `(` that begins the first part, where no name stands.
    #[tactic(auto, using(c_tree::proofs::ViewLaws::expr_views), unfolding(crate::specs::DeclaratorRules::unnamed_function))]
    fn unnamed_function(
        &self,
        cursor: &mut Cursor<'_>,
        stars: Items<Star>,
        at: Place,
    ) -> Result<Measured<Declarator>, Stop>
        requires nests { Nests self.now.names.now self.now.depth (E.pre self.now.read_expr)
            (E.post self.now.read_expr) (S.pre self.now.read_specifiers)
            (S.post self.now.read_specifiers) (D.pre self.now.read_declarator)
            (D.post self.now.read_declarator) }
        ensures reads { Reads (λ m. declarator_view m.tree) (spec.unnamed_function
            (names_of self.now.names.now) (rules (names_of self.now.names.now) self.now.depth) stars
            at cursor.old) result cursor.new }
        ensures height { IfOk result (λ m. IsMeasured (suc self.now.depth)
            (declarator_height (declarator_view m.tree)) m.height) }
    {
        let parts = self.function_part(cursor, self.no_parts(), at)?;
        let core = Measured {
            tree: Core::Unnamed,
            height: 0,
        };
        self.parts_from(cursor, stars, core, parts)
    }

    /// After a `(` that may begin a declarator or, where a name may be left out, parameters.
    #[tactic(auto, using(crate::proofs::CoreLaws::parameters_come, crate::proofs::CoreLaws::declarator_comes))]
    fn after_core_paren(
        &self,
        cursor: &mut Cursor<'_>,
        naming: Naming,
        stars: Items<Star>,
        at: Place,
    ) -> Result<Measured<Declarator>, Stop>
        requires nests { Nests self.now.names.now self.now.depth (E.pre self.now.read_expr)
            (E.post self.now.read_expr) (S.pre self.now.read_specifiers)
            (S.post self.now.read_specifiers) (D.pre self.now.read_declarator)
            (D.post self.now.read_declarator) }
        ensures reads { Reads (λ m. declarator_view m.tree) (spec.after_core_paren
            (names_of self.now.names.now) (rules (names_of self.now.names.now) self.now.depth)
            (naming_view naming) stars at cursor.old) result cursor.new }
        ensures height { IfOk result (λ m. IsMeasured (suc self.now.depth)
            (declarator_height (declarator_view m.tree)) m.height) }
    {
        if may_omit_name(naming) && begins_parameters(self.names, cursor.peek()) {
            return self.unnamed_function(cursor, stars, at);
        }
        self.nested(cursor, naming, stars, at)
    }

    /// A declarator without a name has a star or a part.
    #[tactic(auto, using(crate::proofs::CoreLaws::nothing_comes, crate::proofs::CoreLaws::part_comes, crate::proofs::CoreLaws::stars_stand, c_tree::proofs::ViewLaws::expr_views))]
    fn unnamed(
        &self,
        cursor: &mut Cursor<'_>,
        stars: Items<Star>,
    ) -> Result<Measured<Declarator>, Stop>
        requires nests { Nests self.now.names.now self.now.depth (E.pre self.now.read_expr)
            (E.post self.now.read_expr) (S.pre self.now.read_specifiers)
            (S.post self.now.read_specifiers) (D.pre self.now.read_declarator)
            (D.post self.now.read_declarator) }
        ensures reads { Reads (λ m. declarator_view m.tree) (spec.unnamed
            (names_of self.now.names.now) (rules (names_of self.now.names.now) self.now.depth) stars
            cursor.old) result cursor.new }
        ensures height { IfOk result (λ m. IsMeasured (suc self.now.depth)
            (declarator_height (declarator_view m.tree)) m.height) }
    {
        if stars.is_empty() && open_bracket(cursor.peek()).is_none() {
            return Err(Stop::Syntax);
        }
        let core = Measured {
            tree: Core::Unnamed,
            height: 0,
        };
        self.parts_from(cursor, stars, core, self.no_parts())
    }

    #[tactic(auto, using(c_tree::proofs::ViewLaws::expr_views), unfolding(crate::specs::DeclaratorRules::parts_from))]
    fn with_name(
        &self,
        cursor: &mut Cursor<'_>,
        stars: Items<Star>,
        bytes: &[u8],
        place: Place,
    ) -> Result<Measured<Declarator>, Stop>
        requires nests { Nests self.now.names.now self.now.depth (E.pre self.now.read_expr)
            (E.post self.now.read_expr) (S.pre self.now.read_specifiers)
            (S.post self.now.read_specifiers) (D.pre self.now.read_declarator)
            (D.post self.now.read_declarator) }
        ensures reads { Reads (λ m. declarator_view m.tree) (spec.parts_from
            (names_of self.now.names.now) (rules (names_of self.now.names.now) self.now.depth) stars
            (tree.Names (record { bytes = bytes.now; place = place })) tree.NoPart cursor.old)
            result cursor.new }
        ensures height { IfOk result (λ m. IsMeasured (suc self.now.depth)
            (declarator_height (declarator_view m.tree)) m.height) }
    {
        let core = Measured {
            tree: Core::Names(Identifier {
                bytes: Items::from_slice(self.alloc, bytes)?,
                place,
            }),
            height: 0,
        };
        self.parts_from(cursor, stars, core, self.no_parts())
    }

    #[tactic(auto, unfolding(crate::specs::DeclaratorRules::with_core))]
    fn with_core(
        &self,
        cursor: &mut Cursor<'_>,
        naming: Naming,
        stars: Items<Star>,
        start: CoreStart<'_>,
    ) -> Result<Measured<Declarator>, Stop>
        requires nests { Nests self.now.names.now self.now.depth (E.pre self.now.read_expr)
            (E.post self.now.read_expr) (S.pre self.now.read_specifiers)
            (S.post self.now.read_specifiers) (D.pre self.now.read_declarator)
            (D.post self.now.read_declarator) }
        ensures reads { Reads (λ m. declarator_view m.tree) (spec.with_core
            (names_of self.now.names.now) (rules (names_of self.now.names.now) self.now.depth)
            (naming_view naming) stars (core_start_view start.entry) cursor.old) result cursor.new }
        ensures height { IfOk result (λ m. IsMeasured (suc self.now.depth)
            (declarator_height (declarator_view m.tree)) m.height) }
    {
        match start {
            CoreStart::Name(bytes, place) => {
                cursor.skip()?;
                self.with_name(cursor, stars, bytes, place)
            }
            CoreStart::Paren(at) => {
                cursor.skip()?;
                self.after_core_paren(cursor, naming, stars, at)
            }
            CoreStart::None => {
                if may_omit_name(naming) {
                    self.unnamed(cursor, stars)
                } else {
                    Err(Stop::Syntax)
                }
            }
        }
    }

    /// Stars, a name or a declarator in parentheses or neither, and parts.
    #[tactic(auto, unfolding(crate::specs::DeclaratorRules::declarator_layer))]
    pub fn stars_and_core(
        &self,
        cursor: &mut Cursor<'_>,
        naming: Naming,
    ) -> Result<Measured<Declarator>, Stop>
        requires nests { Nests self.now.names.now self.now.depth (E.pre self.now.read_expr)
            (E.post self.now.read_expr) (S.pre self.now.read_specifiers)
            (S.post self.now.read_specifiers) (D.pre self.now.read_declarator)
            (D.post self.now.read_declarator) }
        ensures reads { Reads (λ m. declarator_view m.tree) (spec.declarator_layer
            (names_of self.now.names.now) (rules (names_of self.now.names.now) self.now.depth)
            (naming_view naming) cursor.old) result cursor.new }
        ensures height { IfOk result (λ m. IsMeasured (suc self.now.depth)
            (declarator_height (declarator_view m.tree)) m.height) }
    {
        let stars = stars(self.alloc, cursor)?;
        let start = next_core(self.names, naming, cursor.peek());
        self.with_core(cursor, naming, stars, start)
    }
}
