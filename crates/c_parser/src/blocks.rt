//! What a block holds (C99 6.8.1, 6.8.2).
ghost use Rattle.std.specs.Prelude.{◌≡◌, Bool};
ghost use Rattle.parse_rules.specs.Parsers.{loop};
ghost use Rattle.c_tree.specs.Grammar as grammar;
ghost use Rattle.c_tree.specs.StatementViews.{block_item_view, block_view};
ghost use Rattle.c_tree.specs.Tree.{BlockItems, NoBlockItem};
ghost use Rattle.c_parse_words.specs.Seen.{names_of, next_view, Reads};
ghost use Rattle.c_parser.specs.Nests.{NestsStatements};
ghost use Rattle.c_parser.specs.Seen.{label_view};
ghost use Rattle.c_parser.specs.StatementRules as spec;
ghost use Rattle.c_parser.specs.Tests as tests;

use crate::lookahead::{LabelStart, begins_label, begins_statement, label_start};
use crate::reader::Reader;
use crate::statements::Statements;
use crate::tokens::expect_colon;
use c_parse_words::begins::begins_specifier;
use c_parse_words::cursor::Cursor;
use c_parse_words::next::Next;
use c_parse_words::stop::Stop;
use c_parse_words::words::Scope;
use c_tree::{BlockItem, Items, Statement};
use indexmap::IndexSet;
use std::alloc::Global;

/// Whether the item is a label.
#[tactic(auto, using(c_tree::proofs::StatementViewLaws::statement_views))]
fn is_label(item: &BlockItem) -> bool
    ensures { (before : BlockItems) → result
        ≡ grammar.ends_in_label (block_item_view item.now before) }
{
    match item {
        BlockItem::Statement(_) | BlockItem::Declaration(_) => false,
        BlockItem::Case(_, _) | BlockItem::Default(_) => true,
    }
}

/// Whether the last item is a label.
#[tactic(auto, using(c_tree::proofs::PushLaws::pushes))]
fn ends_in_label(items: &[BlockItem]) -> bool
    ensures { result ≡ grammar.ends_in_label (block_view items.now) }
{
    match items.split_last() {
        Some((last, _)) => is_label(last),
        None => false,
    }
}

impl<'a> Reader<'a> {
    /// Whether a declaration may stand after these items, and comes.
    fn begins_declaration(&self, items: &[BlockItem], next: Next<'_>) -> bool
        ensures { result ≡ tests.begins_declaration (names_of self.now.names.now)
            (block_view items.now) (next_view next.entry) }
    {
        !ends_in_label(items) && begins_specifier(self.names, Scope::InBlock, next)
    }

    /// Whether an item may stand after these, in a block with labels or without, and comes.
    fn begins_item(&self, has_labels: bool, items: &[BlockItem], next: Next<'_>) -> bool
        ensures { result ≡ tests.begins_item (names_of self.now.names.now) has_labels
            (block_view items.now) (next_view next.entry) }
    {
        (has_labels && begins_label(next))
            || self.begins_declaration(items, next)
            || begins_statement(self.names, next)
    }

    #[tactic(auto, using(c_tree::proofs::PushLaws::pushes, c_tree::proofs::StatementViewLaws::statement_views), unfolding(crate::specs::StatementRules::with_label))]
    fn with_label(
        &self,
        cursor: &mut Cursor<'_>,
        mut items: Items<BlockItem>,
        start: LabelStart,
    ) -> Result<Items<BlockItem>, Stop>
        ensures { Reads block_view (spec.with_label (names_of self.now.names.now) self.now.depth
            (block_view items) (label_view start) cursor.old) result cursor.new }
    {
        match start {
            LabelStart::Case(at) => {
                cursor.skip()?;
                let value = self.expr(cursor, 2)?;
                expect_colon(cursor)?;
                items.push(BlockItem::Case(at, value))?;
                Ok(items)
            }
            LabelStart::Default(at) => {
                cursor.skip()?;
                expect_colon(cursor)?;
                items.push(BlockItem::Default(at))?;
                Ok(items)
            }
            LabelStart::None => Err(Stop::Syntax),
        }
    }

    #[tactic(auto, using(c_tree::proofs::PushLaws::pushes, c_tree::proofs::StatementViewLaws::statement_views), unfolding(crate::specs::StatementRules::next_declaration))]
    fn next_declaration(
        &self,
        cursor: &mut Cursor<'_>,
        mut items: Items<BlockItem>,
    ) -> Result<Items<BlockItem>, Stop>
        ensures { Reads block_view (spec.next_declaration (names_of self.now.names.now)
            self.now.depth (block_view items) cursor.old) result cursor.new }
    {
        let declaration = self.declaration(cursor)?;
        items.push(BlockItem::Declaration(declaration))?;
        Ok(items)
    }
}

impl<
    'a,
    S: Fn(Global, &IndexSet<Vec<u8>>, &mut Cursor<'_>, u16) -> Result<Statement, Stop>,
> Statements<'a, S> {
    #[tactic(auto, using(c_tree::proofs::PushLaws::pushes, c_tree::proofs::StatementViewLaws::statement_views), unfolding(crate::specs::StatementRules::next_statement))]
    fn next_statement(
        &self,
        cursor: &mut Cursor<'_>,
        mut items: Items<BlockItem>,
    ) -> Result<Items<BlockItem>, Stop>
        requires { NestsStatements self.now.reader.names.now self.now.reader.depth
            (S.pre self.now.read_inner) (S.post self.now.read_inner) }
        ensures { Reads block_view (spec.next_statement (spec.statement
            (names_of self.now.reader.names.now) self.now.reader.depth)
            (block_view items) cursor.old) result cursor.new }
    {
        let statement = self.statement(cursor)?;
        items.push(BlockItem::Statement(statement))?;
        Ok(items)
    }

    #[tactic(auto, unfolding(crate::specs::StatementRules::unlabelled))]
    fn unlabelled(
        &self,
        cursor: &mut Cursor<'_>,
        items: Items<BlockItem>,
    ) -> Result<Items<BlockItem>, Stop>
        requires { NestsStatements self.now.reader.names.now self.now.reader.depth
            (S.pre self.now.read_inner) (S.post self.now.read_inner) }
        ensures { Reads block_view (spec.unlabelled (names_of self.now.reader.names.now)
            self.now.reader.depth (spec.statement (names_of self.now.reader.names.now)
            self.now.reader.depth) (block_view items) cursor.old) result cursor.new }
    {
        if self
            .reader
            .begins_declaration(items.as_slice(), cursor.peek())
        {
            self.reader.next_declaration(cursor, items)
        } else {
            self.next_statement(cursor, items)
        }
    }

    #[tactic(auto, unfolding(crate::specs::StatementRules::item_step))]
    fn next_item(
        &self,
        cursor: &mut Cursor<'_>,
        has_labels: bool,
        items: Items<BlockItem>,
    ) -> Result<Items<BlockItem>, Stop>
        requires { NestsStatements self.now.reader.names.now self.now.reader.depth
            (S.pre self.now.read_inner) (S.post self.now.read_inner) }
        ensures { Reads block_view (spec.item_step (names_of self.now.reader.names.now)
            self.now.reader.depth (spec.statement (names_of self.now.reader.names.now)
            self.now.reader.depth) has_labels (block_view items) cursor.old) result cursor.new }
    {
        let next = cursor.peek();
        if has_labels && begins_label(next) {
            self.reader.with_label(cursor, items, label_start(next))
        } else {
            self.unlabelled(cursor, items)
        }
    }

    fn items(&self, cursor: &mut Cursor<'_>, has_labels: bool) -> Result<Items<BlockItem>, Stop>
        requires { NestsStatements self.now.reader.names.now self.now.reader.depth
            (S.pre self.now.read_inner) (S.post self.now.read_inner) }
        ensures { Reads block_view (loop (tests.begins_item
            (names_of self.now.reader.names.now) has_labels)
            (spec.item_step (names_of self.now.reader.names.now) self.now.reader.depth
            (spec.statement (names_of self.now.reader.names.now) self.now.reader.depth) has_labels)
            NoBlockItem cursor.old) result cursor.new }
    {
        let mut items = Items::new(self.reader.alloc);
        for _turn in 0..cursor.left() {
            if !self
                .reader
                .begins_item(has_labels, items.as_slice(), cursor.peek())
            {
                return Ok(items);
            }
            items = self.next_item(cursor, has_labels, items)?;
        }
        Ok(items)
    }

    /// What a block holds, with labels or without. After a label a statement has to follow.
    #[tactic(auto, unfolding(crate::specs::StatementRules::block_items, crate::specs::StatementRules::end_of_items))]
    pub fn block_items(
        &self,
        cursor: &mut Cursor<'_>,
        has_labels: bool,
    ) -> Result<Items<BlockItem>, Stop>
        requires { NestsStatements self.now.reader.names.now self.now.reader.depth
            (S.pre self.now.read_inner) (S.post self.now.read_inner) }
        ensures { Reads block_view (spec.block_items (names_of self.now.reader.names.now)
            self.now.reader.depth (spec.statement (names_of self.now.reader.names.now)
            self.now.reader.depth) has_labels cursor.old) result cursor.new }
    {
        let items = self.items(cursor, has_labels)?;
        if ends_in_label(items.as_slice()) {
            return Err(Stop::Syntax);
        }
        Ok(items)
    }
}
