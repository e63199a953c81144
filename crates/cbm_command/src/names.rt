ghost use Rattle.std.specs.Prelude.{◌≡◌, ◌≤◌, ◌<◌, ℕ, List, [], ◌∷◌, ◌++◌, length};
ghost use Rattle.std.specs.List.{list_any};
ghost use Rattle.cbm_command.specs.Names.{is_empty, is_wild};

use crate::name::Name;
use arrayvec::ArrayVec;
use std::marker::Model;

/// The names of a list, in order.
#[derive(Debug, Drop)]
pub struct Names {
    names: ArrayVec<Name, 58>,
}

impl Model for Names {
    ghost Value = { List (List ℕ) };

    ghost view = { λ n. n.names.items };
}

impl Names {
    pub(crate) fn new() -> Names
        ensures { result ≡ [] }
    {
        Names {
            names: ArrayVec::new(),
        }
    }

    pub(crate) fn push(&mut self, name: Name)
        requires { length self.old < 58 }
        ensures { self.new ≡ self.old ++ name ∷ [] }
    {
        self.names.push(name);
    }

    /// The names, at most 58.
    pub fn as_slice(&self) -> &[Name]
        ensures names { result.now ≡ self.now }
        ensures few { length self.now ≤ 58 }
    {
        self.names.as_slice()
    }

    /// Some name is empty.
    pub(crate) fn has_empty(&self) -> bool
        ensures { result ≡ list_any is_empty self.now }
    {
        self.names.as_slice().iter().any(|name| name.is_empty())
    }

    /// Some name is a pattern.
    pub(crate) fn has_wild(&self) -> bool
        ensures { result ≡ list_any is_wild self.now }
    {
        self.names.as_slice().iter().any(|name| name.is_wild())
    }
}
