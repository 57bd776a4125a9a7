//! The variables of a pattern, by their numbers.
ghost use Rattle.std.specs.Prelude.{◌≡◌, ◌≤◌, IfOk, length};
ghost use Rattle.dactl_meaning.specs.Expansion.{is_among};
ghost use Rattle.dactl_contractum.specs.Numbers.{variable_number};

use dactl_base::refusal::Memory;
use dactl_names::NameMap;
use sqlite_items::Items;
use std::alloc::Global;
use std::marker::Model;

/// The variables of a pattern. The number of each is its place in the list.
#[derive(Drop)]
pub struct Variables {
    names: Items<Items<u8>>,
    numbers: NameMap<usize>,
}

impl Model for Variables {
    ghost use Rattle.std.specs.Prelude.{◌≡◌, ℕ, List};
    ghost use Rattle.dactl_names.specs.Found.{found};
    ghost use Rattle.dactl_contractum.specs.Numbers.{variable_number};

    ghost Value = { List (List ℕ) };

    ghost view = { λ v. v.names };

    ghost invariant = { λ v. (w : List ℕ) → found v.numbers w ≡ variable_number v.names w };
}

impl Variables {
    /// The variables of these names. A name that comes again keeps its first number.
    ///
    /// # Errors
    ///
    /// Want of memory. The names are then given back.
    pub fn new(alloc: Global, names: Items<Items<u8>>) -> Result<Variables, Memory>
        ensures { IfOk result (λ v. v ≡ names) }
    {
        let mut numbers = NameMap::new(alloc);
        for (number, name) in names.as_slice().iter().enumerate() {
            numbers.note(alloc, name.as_slice(), number)?;
        }
        Ok(Variables { names, numbers })
    }

    /// The number of the variable of that name, if there is one.
    pub(crate) fn number(&self, name: &[u8]) -> Option<usize>
        ensures { result ≡ variable_number self.now name.now }
    {
        self.numbers.get(name)
    }

    /// The same, where the variables are few.
    pub(crate) fn small_number(&self, name: &[u8]) -> Option<u8>
        requires { length self.now ≤ 64 }
        ensures { result ≡ variable_number self.now name.now }
    {
        match self.number(name) {
            Some(number) => Some(number as u8),
            None => None,
        }
    }

    /// Whether there is a variable of that name.
    pub(crate) fn contains(&self, name: &[u8]) -> bool
        ensures { result ≡ is_among self.now name.now }
    {
        self.number(name).is_some()
    }

    /// How many variables there are.
    pub fn count(&self) -> usize
        ensures { result ≡ length self.now }
    {
        self.names.len()
    }
}
