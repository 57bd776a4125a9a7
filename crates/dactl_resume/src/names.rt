//! The symbols of a program by their names.
ghost use Rattle.std.specs.Prelude.{◌≡◌, ◌^◌, ◌<◌, IfOk, length};
ghost use Rattle.dactl_resume.specs.Found.{found_in, ArePlaces};
ghost use Rattle.dactl_resume.specs.Parts.{names_of};

use dactl_model::Memory;
use dactl_model::program::Program;
use std::alloc::Global;
use std::collections::BTreeMap;

/// The numbers of a program's symbols, by the order of their names: a look-up compares the word
/// with a few names.
#[derive(Drop)]
pub struct Names {
    pub places: BTreeMap<Vec<u8>, u32>,
}

impl Names {
    /// The names of the program.
    ///
    /// # Errors
    ///
    /// `Memory` where there is not the memory for a copy of each name.
    pub fn new(alloc: Global, program: &Program) -> Result<Names, Memory>
        requires { length program.now.symbols < 2 ^ 31 }
        ensures { IfOk result (λ names. ArePlaces (names_of program.now) (found_in names.places)) }
    {
        let symbols = program.symbols.as_slice();
        let mut places = BTreeMap::new(alloc);
        for (number, symbol) in symbols.iter().enumerate() {
            let key = Vec::from_slice(alloc, symbol.name.as_slice())?;
            places.insert(key, number as u32)?;
        }
        Ok(Names { places })
    }

    /// The number of the symbol of this name, if there is one.
    pub fn number(&self, word: &[u8]) -> Option<u32>
        ensures { result ≡ found_in self.now.places word.now }
    {
        self.places.get(word).copied()
    }
}
