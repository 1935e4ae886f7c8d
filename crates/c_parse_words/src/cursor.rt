//! The tokens that are left.
ghost use Rattle.std.specs.Prelude.{◌≡◌, ◌≤◌, length, map, IfOk};
ghost use Rattle.parse_rules.specs.Parsers as rule;
ghost use Rattle.parse_rules.specs.Parsers.{first};
ghost use Rattle.c_tree.specs.Symbols.{symbol_of};
ghost use Rattle.c_parse_words.specs.WordRules as spec;
ghost use Rattle.c_parse_words.specs.Tests as tests;
ghost use Rattle.c_parse_words.specs.Seen.{next_view, head, Reads};

use crate::next::{Next, next_of};
use crate::stop::Stop;
use c_lexer::Token;
use c_tree::{Identifier, Items};
use std::alloc::Global;
use std::marker::Model;

/// The tokens that are left, which contracts see as the list of what the tree keeps of them.
#[derive(Drop)]
pub struct Cursor<'a> {
    tokens: &'a [Token<'a>],
}

impl<'a> Model for Cursor<'a> {
    ghost use Rattle.std.specs.Prelude.{List, map};
    ghost use Rattle.c_tree.specs.Symbols.{Symbol, symbol_of};

    ghost Value = { List Symbol };

    ghost view = { λ c. map symbol_of c.tokens.now };
}

impl<'a> Cursor<'a> {
    /// At the first of some tokens.
    pub fn new(tokens: &'a [Token<'a>]) -> Cursor<'a>
        ensures { result ≡ map symbol_of tokens.now }
    {
        Cursor { tokens }
    }

    /// How many tokens are left.
    pub fn left(&self) -> usize
        ensures { result ≡ length self.now }
    {
        self.tokens.len()
    }

    /// The next token.
    pub fn peek(&self) -> Next<'a>
        ensures { next_view result ≡ first self.now }
    {
        match self.tokens.first() {
            Some(token) => next_of(token),
            None => Next::End,
        }
    }

    /// Goes past the next token.
    pub fn skip(&mut self) -> Result<(), Stop>
        ensures { Reads (λ _. head self.old) (rule.skip self.old) result self.new }
    {
        if self.tokens.is_empty() {
            return Err(Stop::Syntax);
        }
        self.tokens = &self.tokens[1..];
        Ok(())
    }

    /// Goes past a token that was found to be the one wanted, and else refuses it.
    pub fn expect(&mut self, found: bool) -> Result<(), Stop>
        ensures { Reads (λ _. head self.old) (rule.branch
            (λ _. found) rule.skip rule.refuse self.old) result self.new }
    {
        if found {
            self.skip()
        } else {
            Err(Stop::Syntax)
        }
    }

    /// Goes past a token above a part of this height, where so many nodes may lie below it.
    pub fn take_above(&mut self, depth: u16, height: usize) -> Result<(), Stop>
        ensures reads { Reads (λ _. head self.old) (rule.take_above depth height self.old) result
            self.new }
        ensures low { IfOk result (λ _. height ≤ depth) }
    {
        if usize::from(depth) < height {
            return Err(Stop::Deep);
        }
        self.skip()
    }

    /// Goes past a word that is no keyword, and gives it.
    #[tactic(auto, unfolding(crate::specs::WordRules::take))]
    pub fn take_name(&mut self, alloc: Global) -> Result<Identifier, Stop>
        ensures { Reads (λ name. name) (spec.take tests.word_name self.old) result self.new }
    {
        let Next::Name(bytes, place) = self.peek() else {
            return Err(Stop::Syntax);
        };
        self.skip()?;
        Ok(Identifier {
            bytes: Items::from_slice(alloc, bytes)?,
            place,
        })
    }
}
