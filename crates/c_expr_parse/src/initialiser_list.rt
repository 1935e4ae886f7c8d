//! Initialisers in braces (C99 6.7.8).
ghost use Rattle.std.specs.Prelude.{suc, IfOk, false};
ghost use Rattle.parse_rules.specs.Parsers.{loop};
ghost use Rattle.c_tree.specs.Depth.{initialiser_height, items_height};
ghost use Rattle.c_tree.specs.StatementViews.{initialiser_view};
ghost use Rattle.c_parse_words.specs.Lists.{items_seen};
ghost use Rattle.c_parse_words.specs.Seen.{names_of, Reads};
ghost use Rattle.c_expr_parse.specs.Rules as spec;
ghost use Rattle.c_expr_parse.specs.TypeRules.{goes_on_series, Upto};
ghost use Rattle.c_expr_parse.specs.Nests.{NestsItems, IsMeasured};

use c_parse_words::begins::{begins_initialiser, is_designator};
use c_parse_words::cursor::Cursor;
use c_parse_words::lookahead::is_close_brace;
use c_parse_words::measured::Measured;
use c_parse_words::series::{Series, series_goes_on};
use c_parse_words::stop::Stop;
use c_tree::{Initialiser, Items};
use cc_base::Place;
use indexmap::IndexSet;
use std::alloc::Global;

/// What an initialiser in braces stands on.
#[derive(Clone, Copy)]
pub struct Braces<'a, I> {
    pub alloc: Global,
    /// The typedef names in force.
    pub names: &'a IndexSet<Vec<u8>>,
    /// How many nodes may lie below that of the braces.
    pub depth: u16,
    /// Reads an item.
    pub read_item: I,
}

impl<
    'a,
    I: Fn(Global, &IndexSet<Vec<u8>>, &mut Cursor<'_>, u16) -> Result<Measured<Initialiser>, Stop>,
> Braces<'a, I> {
    fn item(&self, cursor: &mut Cursor<'_>) -> Result<Measured<Initialiser>, Stop>
        requires nests { NestsItems self.now.names.now self.now.depth (I.pre self.now.read_item)
            (I.post self.now.read_item) }
        ensures reads { Reads (λ m. initialiser_view m.tree) (spec.initialiser
            (names_of self.now.names.now) self.now.depth cursor.old) result cursor.new }
        ensures height { IfOk result (λ m. IsMeasured self.now.depth
            (initialiser_height (initialiser_view m.tree)) m.height) }
    {
        (self.read_item)(self.alloc, self.names, cursor, self.depth)
    }

    /// An item. A `.` or `[` in its place begins a designator.
    #[tactic(auto, using(c_tree::proofs::PushLaws::pushes), unfolding(crate::specs::Rules::next_item))]
    fn next_item(
        &self,
        cursor: &mut Cursor<'_>,
        mut before: Measured<Items<Initialiser>>,
    ) -> Result<Series<Initialiser>, Stop>
        requires nests { NestsItems self.now.names.now self.now.depth (I.pre self.now.read_item)
            (I.post self.now.read_item) }
        requires measured { IsMeasured self.now.depth (items_height (items_seen before.tree))
            before.height }
        ensures reads { Reads (λ m. Upto (items_seen m.list.tree) m.comma)
            (spec.next_item (spec.initialiser (names_of self.now.names.now) self.now.depth)
            (items_seen before.tree) cursor.old) result cursor.new }
        ensures height { IfOk result (λ m. IsMeasured self.now.depth
            (items_height (items_seen m.list.tree)) m.list.height) }
    {
        if is_designator(cursor.peek()) {
            return Err(Stop::Unsupported);
        }
        let Measured { tree, height } = self.item(cursor)?;
        before.tree.push(tree)?;
        before.height = before.height.max(height);
        Ok(Series {
            list: before,
            comma: false,
        })
    }

    /// After a comma another one, or none.
    #[tactic(auto, unfolding(crate::specs::Rules::item_step))]
    fn item_after_comma(
        &self,
        cursor: &mut Cursor<'_>,
        before: Series<Initialiser>,
    ) -> Result<Series<Initialiser>, Stop>
        requires nests { NestsItems self.now.names.now self.now.depth (I.pre self.now.read_item)
            (I.post self.now.read_item) }
        requires measured { IsMeasured self.now.depth (items_height (items_seen before.list.tree))
            before.list.height }
        ensures reads { Reads (λ m. Upto (items_seen m.list.tree) m.comma)
            (spec.item_step (names_of self.now.names.now)
            (spec.initialiser (names_of self.now.names.now) self.now.depth)
            (Upto (items_seen before.list.tree) before.comma) cursor.old) result cursor.new }
        ensures height { IfOk result (λ m. IsMeasured self.now.depth
            (items_height (items_seen m.list.tree)) m.list.height) }
    {
        cursor.skip()?;
        let next = cursor.peek();
        if is_designator(next) || begins_initialiser(self.names, next) {
            return self.next_item(cursor, before.list);
        }
        Ok(Series {
            list: before.list,
            comma: true,
        })
    }

    fn more_items(
        &self,
        cursor: &mut Cursor<'_>,
        first: Series<Initialiser>,
    ) -> Result<Series<Initialiser>, Stop>
        requires nests { NestsItems self.now.names.now self.now.depth (I.pre self.now.read_item)
            (I.post self.now.read_item) }
        requires measured { IsMeasured self.now.depth (items_height (items_seen first.list.tree))
            first.list.height }
        ensures reads { Reads (λ m. Upto (items_seen m.list.tree) m.comma)
            (loop goes_on_series (spec.item_step (names_of self.now.names.now)
            (spec.initialiser (names_of self.now.names.now) self.now.depth))
            (Upto (items_seen first.list.tree) first.comma) cursor.old) result cursor.new }
        ensures height { IfOk result (λ m. IsMeasured self.now.depth
            (items_height (items_seen m.list.tree)) m.list.height) }
    {
        let mut series = first;
        for _turn in 0..cursor.left() {
            if !series_goes_on(series.comma, cursor.peek()) {
                return Ok(series);
            }
            series = self.item_after_comma(cursor, series)?;
        }
        Ok(series)
    }

    /// After the `{`: items with commas between them, maybe one after the last, and the `}`.
    #[tactic(auto, using(c_tree::proofs::StatementViewLaws::statement_views), unfolding(crate::specs::Rules::initialiser_list, crate::specs::Rules::listed))]
    pub fn items(
        &self,
        cursor: &mut Cursor<'_>,
        brace: Place,
    ) -> Result<Measured<Initialiser>, Stop>
        requires nests { NestsItems self.now.names.now self.now.depth (I.pre self.now.read_item)
            (I.post self.now.read_item) }
        ensures reads { Reads (λ m. initialiser_view m.tree) (spec.initialiser_list
            (names_of self.now.names.now) (spec.initialiser
            (names_of self.now.names.now) self.now.depth) brace cursor.old) result cursor.new }
        ensures height { IfOk result (λ m. IsMeasured (suc self.now.depth)
            (initialiser_height (initialiser_view m.tree)) m.height) }
    {
        let none = Measured {
            tree: Items::new(self.alloc),
            height: 0,
        };
        let first = self.next_item(cursor, none)?;
        let Series { list, comma } = self.more_items(cursor, first)?;
        let close = is_close_brace(cursor.peek());
        cursor.expect(close)?;
        Ok(Measured {
            height: 1 + list.height,
            tree: Initialiser::Listed(brace, list.tree, comma),
        })
    }
}
