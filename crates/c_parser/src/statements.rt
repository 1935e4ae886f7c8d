//! Statements (C99 6.8).
ghost use Rattle.std.specs.Prelude.{◌≡◌, option_map};
ghost use Rattle.c_tree.specs.StatementViews.{statement_view};
ghost use Rattle.c_tree.specs.Views.{expr_view};
ghost use Rattle.c_parse_words.specs.Seen.{names_of, Reads};
ghost use Rattle.c_parser.specs.Nests.{NestsStatements};
ghost use Rattle.c_parser.specs.Seen.{for_made, start_view};
ghost use Rattle.c_parser.specs.StatementRules as spec;
ghost use Rattle.c_parser.specs.Tests as tests;

use crate::lookahead::{StatementStart, begins_statement, is_else, statement_start, while_word};
use crate::reader::Reader;
use crate::tokens::{expect_close_brace, expect_semicolon, take, take_open_brace, take_open_paren};
use c_parse_words::begins::begins_specifier;
use c_parse_words::cursor::Cursor;
use c_parse_words::stop::{Stop, too_deep};
use c_parse_words::words::Scope;
use c_tree::{Boxed, Declaration, Expr, Statement};
use cc_base::Place;
use indexmap::IndexSet;
use std::alloc::Global;

/// How a `for` begins.
#[derive(Drop)]
pub enum ForStart {
    Expr(Option<Boxed<Expr>>),
    Declaration(Boxed<Declaration>),
}

/// The statement of a `for` from its parts.
#[tactic(auto, using(c_tree::proofs::StatementViewLaws::statement_views))]
fn made_for(
    at: Place,
    paren: Place,
    start: ForStart,
    test: Option<Boxed<Expr>>,
    step: Option<Boxed<Expr>>,
    body: Boxed<Statement>,
) -> Statement
    ensures { statement_view result ≡ for_made at paren start (option_map expr_view test)
        (option_map expr_view step) (statement_view body) }
{
    match start {
        ForStart::Expr(first) => Statement::For(at, paren, first, test, step, body),
        ForStart::Declaration(first) => {
            Statement::ForDeclaration(at, paren, first, test, step, body)
        }
    }
}

/// What statements stand on.
#[derive(Clone, Copy)]
pub struct Statements<'a, S> {
    /// Reads what is no statement, where so many nodes may lie below that of the statement.
    pub reader: Reader<'a>,
    /// Reads a statement.
    pub read_inner: S,
}

impl<
    'a,
    S: Fn(Global, &IndexSet<Vec<u8>>, &mut Cursor<'_>, u16) -> Result<Statement, Stop>,
> Statements<'a, S> {
    /// A statement inside another one.
    pub fn statement(&self, cursor: &mut Cursor<'_>) -> Result<Statement, Stop>
        requires { NestsStatements self.now.reader.names.now self.now.reader.depth
            (S.pre self.now.read_inner) (S.post self.now.read_inner) }
        ensures { Reads statement_view (spec.statement (names_of self.now.reader.names.now)
            self.now.reader.depth cursor.old) result cursor.new }
    {
        (self.read_inner)(
            self.reader.alloc,
            self.reader.names,
            cursor,
            self.reader.depth,
        )
    }

    fn inner(&self, cursor: &mut Cursor<'_>) -> Result<Boxed<Statement>, Stop>
        requires { NestsStatements self.now.reader.names.now self.now.reader.depth
            (S.pre self.now.read_inner) (S.post self.now.read_inner) }
        ensures { Reads statement_view (spec.statement (names_of self.now.reader.names.now)
            self.now.reader.depth cursor.old) result cursor.new }
    {
        let statement = self.statement(cursor)?;
        Ok(Boxed::new(self.reader.alloc, statement)?)
    }

    /// `else` and a statement, or nothing.
    #[tactic(auto, using(c_tree::proofs::StatementViewLaws::statement_views), unfolding(crate::specs::StatementRules::with_else))]
    fn with_else(
        &self,
        cursor: &mut Cursor<'_>,
        at: Place,
        paren: Place,
        test: Boxed<Expr>,
        then: Boxed<Statement>,
    ) -> Result<Statement, Stop>
        requires { NestsStatements self.now.reader.names.now self.now.reader.depth
            (S.pre self.now.read_inner) (S.post self.now.read_inner) }
        ensures { Reads statement_view (spec.with_else (spec.statement
            (names_of self.now.reader.names.now) self.now.reader.depth) at paren (expr_view test)
            (statement_view then) cursor.old) result cursor.new }
    {
        if !is_else(cursor.peek()) {
            return Ok(Statement::If(at, paren, test, then));
        }
        cursor.skip()?;
        let other = self.inner(cursor)?;
        Ok(Statement::IfElse(at, paren, test, then, other))
    }

    #[tactic(auto, unfolding(crate::specs::StatementRules::statement_from, c_parse_words::specs::WordRules::take))]
    fn if_statement(&self, cursor: &mut Cursor<'_>, at: Place) -> Result<Statement, Stop>
        requires { NestsStatements self.now.reader.names.now self.now.reader.depth
            (S.pre self.now.read_inner) (S.post self.now.read_inner) }
        ensures { Reads statement_view (spec.statement_from
            (names_of self.now.reader.names.now) self.now.reader.depth
            (spec.statement (names_of self.now.reader.names.now) self.now.reader.depth)
            (tests.StartIf at) cursor.old) result cursor.new }
    {
        cursor.skip()?;
        let paren = take_open_paren(cursor)?;
        let test = self.reader.condition(cursor)?;
        let then = self.inner(cursor)?;
        self.with_else(cursor, at, paren, test, then)
    }

    #[tactic(auto, using(c_tree::proofs::StatementViewLaws::statement_views), unfolding(crate::specs::StatementRules::statement_from, c_parse_words::specs::WordRules::take))]
    fn switch_statement(&self, cursor: &mut Cursor<'_>, at: Place) -> Result<Statement, Stop>
        requires { NestsStatements self.now.reader.names.now self.now.reader.depth
            (S.pre self.now.read_inner) (S.post self.now.read_inner) }
        ensures { Reads statement_view (spec.statement_from
            (names_of self.now.reader.names.now) self.now.reader.depth
            (spec.statement (names_of self.now.reader.names.now) self.now.reader.depth)
            (tests.StartSwitch at) cursor.old) result cursor.new }
    {
        cursor.skip()?;
        let paren = take_open_paren(cursor)?;
        let e = self.reader.condition(cursor)?;
        let brace = take_open_brace(cursor)?;
        let items = self.block_items(cursor, true)?;
        expect_close_brace(cursor)?;
        Ok(Statement::Switch(at, paren, e, brace, items))
    }

    #[tactic(auto, using(c_tree::proofs::StatementViewLaws::statement_views), unfolding(crate::specs::StatementRules::statement_from, c_parse_words::specs::WordRules::take))]
    fn while_statement(&self, cursor: &mut Cursor<'_>, at: Place) -> Result<Statement, Stop>
        requires { NestsStatements self.now.reader.names.now self.now.reader.depth
            (S.pre self.now.read_inner) (S.post self.now.read_inner) }
        ensures { Reads statement_view (spec.statement_from
            (names_of self.now.reader.names.now) self.now.reader.depth
            (spec.statement (names_of self.now.reader.names.now) self.now.reader.depth)
            (tests.StartWhile at) cursor.old) result cursor.new }
    {
        cursor.skip()?;
        let paren = take_open_paren(cursor)?;
        let test = self.reader.condition(cursor)?;
        let body = self.inner(cursor)?;
        Ok(Statement::While(at, paren, test, body))
    }

    #[tactic(auto, using(c_tree::proofs::StatementViewLaws::statement_views), unfolding(crate::specs::StatementRules::statement_from, c_parse_words::specs::WordRules::take))]
    fn do_statement(&self, cursor: &mut Cursor<'_>) -> Result<Statement, Stop>
        requires { NestsStatements self.now.reader.names.now self.now.reader.depth
            (S.pre self.now.read_inner) (S.post self.now.read_inner) }
        ensures { Reads statement_view (spec.statement_from
            (names_of self.now.reader.names.now) self.now.reader.depth
            (spec.statement (names_of self.now.reader.names.now) self.now.reader.depth)
            tests.StartDo cursor.old) result cursor.new }
    {
        cursor.skip()?;
        let body = self.inner(cursor)?;
        let word = while_word(cursor.peek());
        let at = take(cursor, word)?;
        let paren = take_open_paren(cursor)?;
        let test = self.reader.condition(cursor)?;
        expect_semicolon(cursor)?;
        Ok(Statement::DoWhile(body, at, paren, test))
    }

    /// The parts of a `for` after the first.
    #[tactic(auto, using(crate::proofs::ForLaws::for_rest_parts))]
    fn for_rest(
        &self,
        cursor: &mut Cursor<'_>,
        at: Place,
        paren: Place,
        start: ForStart,
    ) -> Result<Statement, Stop>
        requires { NestsStatements self.now.reader.names.now self.now.reader.depth
            (S.pre self.now.read_inner) (S.post self.now.read_inner) }
        ensures { Reads statement_view (spec.for_rest (names_of self.now.reader.names.now)
            self.now.reader.depth (spec.statement (names_of self.now.reader.names.now)
            self.now.reader.depth) (for_made at paren start) cursor.old) result cursor.new }
    {
        let test = self.reader.optional_semicolon(cursor)?;
        let step = self.reader.optional_close_paren(cursor)?;
        let body = self.inner(cursor)?;
        Ok(made_for(at, paren, start, test, step, body))
    }

    #[tactic(auto, unfolding(crate::specs::StatementRules::for_expr))]
    fn for_expr(&self, cursor: &mut Cursor<'_>, at: Place, paren: Place) -> Result<Statement, Stop>
        requires { NestsStatements self.now.reader.names.now self.now.reader.depth
            (S.pre self.now.read_inner) (S.post self.now.read_inner) }
        ensures { Reads statement_view (spec.for_expr (names_of self.now.reader.names.now)
            self.now.reader.depth (spec.statement (names_of self.now.reader.names.now)
            self.now.reader.depth) at paren cursor.old) result cursor.new }
    {
        let first = self.reader.optional(cursor)?;
        expect_semicolon(cursor)?;
        self.for_rest(cursor, at, paren, ForStart::Expr(first))
    }

    #[tactic(auto, unfolding(crate::specs::StatementRules::for_declaration))]
    fn for_declaration(
        &self,
        cursor: &mut Cursor<'_>,
        at: Place,
        paren: Place,
    ) -> Result<Statement, Stop>
        requires { NestsStatements self.now.reader.names.now self.now.reader.depth
            (S.pre self.now.read_inner) (S.post self.now.read_inner) }
        ensures { Reads statement_view (spec.for_declaration
            (names_of self.now.reader.names.now) self.now.reader.depth
            (spec.statement (names_of self.now.reader.names.now) self.now.reader.depth) at paren
            cursor.old) result cursor.new }
    {
        let first = Boxed::new(self.reader.alloc, self.reader.declaration(cursor)?)?;
        self.for_rest(cursor, at, paren, ForStart::Declaration(first))
    }

    #[tactic(auto, unfolding(crate::specs::StatementRules::statement_from, c_parse_words::specs::WordRules::take))]
    fn for_statement(&self, cursor: &mut Cursor<'_>, at: Place) -> Result<Statement, Stop>
        requires { NestsStatements self.now.reader.names.now self.now.reader.depth
            (S.pre self.now.read_inner) (S.post self.now.read_inner) }
        ensures { Reads statement_view (spec.statement_from
            (names_of self.now.reader.names.now) self.now.reader.depth
            (spec.statement (names_of self.now.reader.names.now) self.now.reader.depth)
            (tests.StartFor at) cursor.old) result cursor.new }
    {
        cursor.skip()?;
        let paren = take_open_paren(cursor)?;
        if begins_specifier(self.reader.names, Scope::InBlock, cursor.peek()) {
            self.for_declaration(cursor, at, paren)
        } else {
            self.for_expr(cursor, at, paren)
        }
    }

    /// A block from its `{`.
    #[tactic(auto, using(c_tree::proofs::StatementViewLaws::statement_views), unfolding(crate::specs::StatementRules::statement_from))]
    fn block(&self, cursor: &mut Cursor<'_>, brace: Place) -> Result<Statement, Stop>
        requires { NestsStatements self.now.reader.names.now self.now.reader.depth
            (S.pre self.now.read_inner) (S.post self.now.read_inner) }
        ensures { Reads statement_view (spec.statement_from
            (names_of self.now.reader.names.now) self.now.reader.depth
            (spec.statement (names_of self.now.reader.names.now) self.now.reader.depth)
            (tests.StartBlock brace) cursor.old) result cursor.new }
    {
        cursor.skip()?;
        let items = self.block_items(cursor, false)?;
        expect_close_brace(cursor)?;
        Ok(Statement::Block(brace, items))
    }

    #[tactic(auto, using(c_tree::proofs::StatementViewLaws::statement_views), unfolding(crate::specs::StatementRules::statement_from))]
    fn return_statement(&self, cursor: &mut Cursor<'_>, at: Place) -> Result<Statement, Stop>
        requires { NestsStatements self.now.reader.names.now self.now.reader.depth
            (S.pre self.now.read_inner) (S.post self.now.read_inner) }
        ensures { Reads statement_view (spec.statement_from
            (names_of self.now.reader.names.now) self.now.reader.depth
            (spec.statement (names_of self.now.reader.names.now) self.now.reader.depth)
            (tests.StartReturn at) cursor.old) result cursor.new }
    {
        cursor.skip()?;
        let e = self.reader.optional(cursor)?;
        expect_semicolon(cursor)?;
        Ok(Statement::Return(at, e))
    }

    #[tactic(auto, using(c_tree::proofs::StatementViewLaws::statement_views), unfolding(crate::specs::StatementRules::statement_from))]
    fn expression_statement(&self, cursor: &mut Cursor<'_>) -> Result<Statement, Stop>
        requires { NestsStatements self.now.reader.names.now self.now.reader.depth
            (S.pre self.now.read_inner) (S.post self.now.read_inner) }
        ensures { Reads statement_view (spec.statement_from
            (names_of self.now.reader.names.now) self.now.reader.depth
            (spec.statement (names_of self.now.reader.names.now) self.now.reader.depth)
            tests.NoStatementStart cursor.old) result cursor.new }
    {
        let e = self.reader.expr(cursor, 0)?;
        expect_semicolon(cursor)?;
        Ok(Statement::Express(e))
    }

    #[tactic(auto, using(c_tree::proofs::StatementViewLaws::statement_views), unfolding(crate::specs::StatementRules::statement_from))]
    fn break_statement(&self, cursor: &mut Cursor<'_>, at: Place) -> Result<Statement, Stop>
        requires { NestsStatements self.now.reader.names.now self.now.reader.depth
            (S.pre self.now.read_inner) (S.post self.now.read_inner) }
        ensures { Reads statement_view (spec.statement_from
            (names_of self.now.reader.names.now) self.now.reader.depth
            (spec.statement (names_of self.now.reader.names.now) self.now.reader.depth)
            (tests.StartBreak at) cursor.old) result cursor.new }
    {
        cursor.skip()?;
        expect_semicolon(cursor)?;
        Ok(Statement::Break(at))
    }

    #[tactic(auto, using(c_tree::proofs::StatementViewLaws::statement_views), unfolding(crate::specs::StatementRules::statement_from))]
    fn continue_statement(&self, cursor: &mut Cursor<'_>, at: Place) -> Result<Statement, Stop>
        requires { NestsStatements self.now.reader.names.now self.now.reader.depth
            (S.pre self.now.read_inner) (S.post self.now.read_inner) }
        ensures { Reads statement_view (spec.statement_from
            (names_of self.now.reader.names.now) self.now.reader.depth
            (spec.statement (names_of self.now.reader.names.now) self.now.reader.depth)
            (tests.StartContinue at) cursor.old) result cursor.new }
    {
        cursor.skip()?;
        expect_semicolon(cursor)?;
        Ok(Statement::Continue(at))
    }

    #[tactic(auto, using(c_tree::proofs::StatementViewLaws::statement_views), unfolding(crate::specs::StatementRules::statement_from))]
    fn empty_statement(&self, cursor: &mut Cursor<'_>) -> Result<Statement, Stop>
        requires { NestsStatements self.now.reader.names.now self.now.reader.depth
            (S.pre self.now.read_inner) (S.post self.now.read_inner) }
        ensures { Reads statement_view (spec.statement_from
            (names_of self.now.reader.names.now) self.now.reader.depth
            (spec.statement (names_of self.now.reader.names.now) self.now.reader.depth)
            tests.StartEmpty cursor.old) result cursor.new }
    {
        cursor.skip()?;
        Ok(Statement::Empty)
    }

    /// A statement that begins so.
    fn statement_from(
        &self,
        cursor: &mut Cursor<'_>,
        start: StatementStart,
    ) -> Result<Statement, Stop>
        requires { NestsStatements self.now.reader.names.now self.now.reader.depth
            (S.pre self.now.read_inner) (S.post self.now.read_inner) }
        ensures { Reads statement_view (spec.statement_from
            (names_of self.now.reader.names.now) self.now.reader.depth
            (spec.statement (names_of self.now.reader.names.now) self.now.reader.depth)
            (start_view start) cursor.old) result cursor.new }
    {
        match start {
            StatementStart::Block(brace) => self.block(cursor, brace),
            StatementStart::Empty => self.empty_statement(cursor),
            StatementStart::If(at) => self.if_statement(cursor, at),
            StatementStart::Switch(at) => self.switch_statement(cursor, at),
            StatementStart::While(at) => self.while_statement(cursor, at),
            StatementStart::Do => self.do_statement(cursor),
            StatementStart::For(at) => self.for_statement(cursor, at),
            StatementStart::Break(at) => self.break_statement(cursor, at),
            StatementStart::Continue(at) => self.continue_statement(cursor, at),
            StatementStart::Return(at) => self.return_statement(cursor, at),
            StatementStart::None => self.expression_statement(cursor),
        }
    }
}

/// A statement. `depth` is the number of nodes that are allowed on a path.
pub fn read_statement(
    alloc: Global,
    names: &IndexSet<Vec<u8>>,
    cursor: &mut Cursor<'_>,
    depth: u16,
) -> Result<Statement, Stop>
    ensures { Reads statement_view (spec.statement (names_of names.now) depth cursor.old) result
        cursor.new }
{
    let next = cursor.peek();
    if depth == 0 {
        return Err(too_deep(begins_statement(names, next)));
    }
    Statements {
        reader: Reader {
            alloc,
            names,
            depth: depth - 1,
        },
        read_inner: read_statement,
    }
    .statement_from(cursor, statement_start(next))
}
