//! Declarations in blocks (C99 6.7).
ghost use Rattle.std.specs.Prelude.{◌≡◌, Bool, IfOk, false};
ghost use Rattle.parse_rules.specs.Parsers.{by_first};
ghost use Rattle.c_tree.specs.Grammar.{names_after, names_after_all};
ghost use Rattle.c_tree.specs.StatementViews.{declaration_view};
ghost use Rattle.c_tree.specs.Views.{declarator_view, specifiers_view};
ghost use Rattle.c_tree.specs.Words.{InBlock, TypeNames, has_typedef};
ghost use Rattle.c_parse_words.specs.Seen.{after_skip, names_of, Reads};
ghost use Rattle.c_parse_words.specs.Tests as tests;
ghost use Rattle.c_expr_parse.specs.Rules.{rules};
ghost use Rattle.c_parser.specs.DeclarationRules as spec;
ghost use Rattle.c_parser.specs.Seen.{init_declarators_seen};

use crate::reader::Reader;
use crate::tokens::expect_semicolon;
use c_parse_words::begins::{Naming, begins_declarator};
use c_parse_words::cursor::Cursor;
use c_parse_words::lookahead::{equals_sign, is_comma};
use c_parse_words::stop::Stop;
use c_parse_words::words::Scope;
use c_tree::{Declaration, Declarator, InitDeclarator, Items, Specifiers};

impl<'a> Reader<'a> {
    /// `=` and an initialiser after a declarator, or nothing.
    #[tactic(auto, using(c_tree::proofs::PushLaws::pushes), unfolding(crate::specs::DeclarationRules::with_initialiser))]
    pub fn with_initialiser(
        &self,
        cursor: &mut Cursor<'_>,
        mut before: Items<InitDeclarator>,
        declarator: Declarator,
    ) -> Result<Items<InitDeclarator>, Stop>
        ensures reads { Reads init_declarators_seen (by_first tests.equals_sign
            (spec.with_initialiser (names_of self.now.names.now) self.now.depth
            (init_declarators_seen before) (declarator_view declarator)) cursor.old) result
            cursor.new }
        ensures names { IfOk result (λ list. (is_typedef : Bool) (base : TypeNames)
            → names_after_all is_typedef base (init_declarators_seen list)
            ≡ names_after is_typedef (names_after_all is_typedef base
            (init_declarators_seen before)) (declarator_view declarator)) }
    {
        let Some(at) = equals_sign(cursor.peek()) else {
            before.push(InitDeclarator::Plain(declarator))?;
            return Ok(before);
        };
        cursor.skip()?;
        let value = self.initialiser(cursor)?;
        before.push(InitDeclarator::Initialised(declarator, at, value))?;
        Ok(before)
    }

    /// One declarator that declares no type, after others.
    #[tactic(auto, unfolding(crate::specs::DeclarationRules::next_declarator))]
    fn next_declarator(
        &self,
        cursor: &mut Cursor<'_>,
        before: Items<InitDeclarator>,
    ) -> Result<Items<InitDeclarator>, Stop>
        ensures { Reads init_declarators_seen (spec.next_declarator
            (names_of self.now.names.now) false self.now.depth
            (init_declarators_seen before) cursor.old) result cursor.new }
    {
        let declarator = self.declarator(cursor)?;
        self.with_initialiser(cursor, before, declarator)
    }

    #[tactic(auto, using(crate::proofs::NamesInForce::no_names))]
    fn declarator_after_comma(
        &self,
        cursor: &mut Cursor<'_>,
        before: Items<InitDeclarator>,
    ) -> Result<Items<InitDeclarator>, Stop>
        ensures { Reads init_declarators_seen (after_skip (spec.next_declarator
            (names_after_all false (names_of self.now.names.now) (init_declarators_seen before))
            false self.now.depth (init_declarators_seen before)) cursor.old) result cursor.new }
    {
        cursor.skip()?;
        self.next_declarator(cursor, before)
    }

    #[tactic(auto, unfolding(crate::specs::DeclarationRules::declarators_from))]
    fn more_declarators(
        &self,
        cursor: &mut Cursor<'_>,
        first: Items<InitDeclarator>,
    ) -> Result<Items<InitDeclarator>, Stop>
        ensures { Reads init_declarators_seen (spec.declarators_from
            (names_of self.now.names.now) false self.now.depth
            (init_declarators_seen first) cursor.old) result cursor.new }
    {
        let mut list = first;
        for _turn in 0..cursor.left() {
            if !is_comma(cursor.peek()) {
                return Ok(list);
            }
            list = self.declarator_after_comma(cursor, list)?;
        }
        Ok(list)
    }

    /// The declarators of a declaration that declares no type, if there are any.
    #[tactic(auto, unfolding(crate::specs::DeclarationRules::init_declarators))]
    fn init_declarators(&self, cursor: &mut Cursor<'_>) -> Result<Items<InitDeclarator>, Stop>
        ensures { Reads init_declarators_seen (spec.init_declarators
            (names_of self.now.names.now) false self.now.depth cursor.old) result cursor.new }
    {
        let none = Items::new(self.alloc);
        if !begins_declarator(self.names, Naming::WithName, cursor.peek()) {
            return Ok(none);
        }
        let first = self.next_declarator(cursor, none)?;
        self.more_declarators(cursor, first)
    }

    /// Specifiers in a block, where no `typedef` stands.
    fn block_specifiers(&self, cursor: &mut Cursor<'_>) -> Result<Specifiers, Stop>
        ensures reads { Reads specifiers_view ((rules (names_of self.now.names.now)
            self.now.depth).specifiers InBlock cursor.old) result cursor.new }
        ensures plain { IfOk result (λ specifiers. has_typedef (specifiers_view specifiers)
            ≡ false) }
    {
        self.specifiers(cursor, Scope::InBlock)
    }

    /// A declaration in a block.
    #[tactic(auto, unfolding(crate::specs::DeclarationRules::declaration))]
    pub fn declaration(&self, cursor: &mut Cursor<'_>) -> Result<Declaration, Stop>
        ensures { Reads declaration_view (spec.declaration (names_of self.now.names.now) InBlock
            self.now.depth cursor.old) result cursor.new }
    {
        let specifiers = self.block_specifiers(cursor)?;
        let declarators = self.init_declarators(cursor)?;
        expect_semicolon(cursor)?;
        Ok(Declaration {
            specifiers,
            declarators,
        })
    }
}
