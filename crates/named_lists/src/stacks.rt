//! For each name a stack of what it stands for.
ghost use Rattle.std.specs.Prelude.{◌≡◌, [], ◌∷◌, ◌++◌, OnOk, OnErr, option_copied};
ghost use Rattle.named_lists.specs.Entries.{Name, seen_entries};
ghost use Rattle.named_lists.specs.Stacks.{stack_of, top_of, without_top, with_top, with_each, without_each, ChangesStack, GetsList, HaveSameStacks, LosesList};

use indexmap::IndexMap;
use indexmap::map::Slice;
use std::alloc::{AllocError, Global};
use std::marker::Model;

/// Stacks, each beside its name. Contracts see a list of them.
#[derive(Drop)]
pub struct NameStacks<T> {
    stacks: IndexMap<Vec<u8>, Vec<T>>,
}

impl<T> Model for NameStacks<T> {
    ghost use Rattle.std.specs.Prelude.{List};
    ghost use Rattle.named_lists.specs.Entries.{Name};
    ghost use Rattle.named_lists.specs.Stacks.{seen_stacks};

    ghost Value = { List (Name × List T) };

    ghost view = { λ s. seen_stacks (λ k. k.items) (λ v. v.items) s.stacks.entries };
}

/// Puts this in place of the last, where there is one.
fn set_last<T: Copy>(stack: &mut Vec<T>, what: T)
    ensures { stack.new.items ≡ with_top what stack.old.items }
{
    let count = stack.len();
    if count == 0 {
        return;
    }
    stack[count - 1] = what;
}

impl<T: Copy> NameStacks<T> {
    /// No stacks. Takes no memory.
    pub fn new(alloc: Global) -> NameStacks<T>
        ensures { result ≡ [] }
    {
        NameStacks {
            stacks: IndexMap::new(alloc),
        }
    }

    /// What is on top of a name's stack. Takes no memory.
    pub fn top(&self, name: &[u8]) -> Option<&T>
        ensures { option_copied result ≡ top_of (stack_of self.now name.now) }
    {
        match self.stacks.get(name) {
            Some(stack) => stack.last(),
            None => None,
        }
    }

    /// The name's stack holds this alone.
    fn begin(&mut self, alloc: Global, name: &[u8], what: T) -> Result<(), AllocError>
        ensures begun { OnOk result (ChangesStack name.now (λ stack. what ∷ []) self.old self.new) }
        ensures unchanged { OnErr result (self.new ≡ self.old) }
    {
        let mut stack = Vec::new(alloc);
        stack.reserve_exact(1)?;
        stack.push(what)?;
        let key = Vec::from_slice(alloc, name)?;
        self.stacks.insert(key, stack)?;
        Ok(())
    }

    /// Puts this on top of a name's stack.
    pub fn push(&mut self, alloc: Global, name: &[u8], what: T) -> Result<(), AllocError>
        ensures pushed { OnOk result
            (ChangesStack name.now (λ stack. stack ++ what ∷ []) self.old self.new) }
        ensures unchanged { OnErr result (HaveSameStacks self.old self.new) }
    {
        match self.stacks.get_mut(name) {
            Some(stack) => {
                stack.push(what)?;
                Ok(())
            }
            None => {
                self.begin(alloc, name, what)?;
                Ok(())
            }
        }
    }

    /// Takes away what is on top of a name's stack. Takes no memory.
    pub fn pop(&mut self, name: &[u8])
        ensures { ChangesStack name.now without_top self.old self.new }
    {
        let stack = match self.stacks.get_mut(name) {
            Some(stack) => stack,
            None => return,
        };
        stack.pop();
    }

    /// Puts this in place of what is on top of a name's stack. Takes no memory.
    pub fn set_top(&mut self, name: &[u8], what: T)
        ensures { ChangesStack name.now (with_top what) self.old self.new }
    {
        let stack = match self.stacks.get_mut(name) {
            Some(stack) => stack,
            None => return,
        };
        set_last(stack, what);
    }

    /// Takes what is on top away for each of these names.
    fn pop_each(&mut self, entries: Slice<'_, Vec<u8>, T>)
        ensures { (n : Name) → stack_of self.new n
            ≡ without_each n (seen_entries (λ k. k.items) entries.entry) (stack_of self.old n) }
    {
        let mut rest = entries;
        'names: while let Some(((name, _what), later)) = rest.split_first() {
            self.pop(name);
            rest = later;
        }
    }

    /// What stands beside each name of a map is taken away from the top of its stack. Takes no memory.
    pub fn pop_all(&mut self, entries: &IndexMap<Vec<u8>, T>)
        ensures { LosesList (seen_entries (λ k. k.items) entries.now.entries) self.old self.new }
    {
        self.pop_each(entries.as_slice());
    }

    /// Puts what stands beside each name of a map on top of its stack.
    pub fn push_all(
        &mut self,
        alloc: Global,
        entries: &IndexMap<Vec<u8>, T>,
    ) -> Result<(), AllocError>
        ensures pushed { OnOk result
            (GetsList (seen_entries (λ k. k.items) entries.now.entries) self.old self.new) }
        ensures unchanged { OnErr result (HaveSameStacks self.old self.new) }
    {
        let all = entries.as_slice();
        let mut rest = entries.as_slice();
        'names: while let Some(((name, what), later)) = rest.split_first() {
            match self.push(alloc, name, *what) {
                Ok(()) => rest = later,
                Err(e) => {
                    let count = all.len() - rest.len();
                    let (done, _left) = all.split_at(count);
                    self.pop_each(done);
                    return Err(e);
                }
            }
        }
        Ok(())
    }
}
