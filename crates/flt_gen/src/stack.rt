//! A stack: a list from which the latest entry is taken first.

ghost use Rattle.std.specs.Prelude.{◌≡◌, List, [], ◌∷◌, reverse, OnOk, MatchOption};

use std::alloc::{AllocError, Allocator};
use std::marker::Model;

/// Entries of which the latest is taken first. Contracts see the latest first.
#[derive(Drop)]
pub struct Stack<T, A: Allocator> {
    entries: Vec<T, A>,
}

impl<T, A: Allocator> Model for Stack<T, A> {
    ghost use Rattle.std.specs.Prelude.{List, reverse};

    ghost Value = { List T };

    ghost view = { λ s. reverse s.entries.items };
}

impl<T: Drop, A: Allocator> Stack<T, A> {
    /// A stack without entries.
    pub fn new(alloc: A) -> Self
        ensures { result ≡ [] }
    {
        Stack {
            entries: Vec::new(alloc),
        }
    }

    /// Adds an entry, which is the latest then.
    pub fn push(&mut self, entry: T) -> Result<(), AllocError>
        ensures { OnOk result (self.new ≡ entry ∷ self.old) }
    {
        Ok(self.entries.push(entry)?)
    }

    /// Takes the latest entry out; `None` if there is none.
    pub fn pop(&mut self) -> Option<T>
        ensures { MatchOption result ((self.old ≡ []) × (self.new ≡ []))
            (λ entry. self.old ≡ entry ∷ self.new) }
    {
        self.entries.pop()
    }

    /// The entries, lent, the earliest first.
    pub fn entries(&self) -> &[T]
        ensures { reverse result.now ≡ self.now }
    {
        &self.entries
    }

    /// Takes all entries out.
    pub fn clear(&mut self)
        ensures { self.new ≡ [] }
    {
        self.entries.clear();
    }

    /// The entries, the earliest first.
    pub fn into_vec(self) -> Vec<T, A>
        ensures { reverse result.items ≡ self }
    {
        let Stack { entries } = self;
        entries
    }
}
