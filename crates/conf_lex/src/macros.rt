//! The macros that are defined so far.

ghost use Rattle.std.specs.Prelude.{◌≡◌, OnOk, option_copied};
ghost use Rattle.conf_tree.specs.Macros.{no_macros, with_macro};
ghost use Rattle.conf_lex.specs.Tables.{macros_of};

use conf_tree::TokenList;
use indexmap::IndexMap;
use net_base::{Bytes, NoMemory};
use std::alloc::Global;

/// What each NAME stands for: the value of its latest definition.
#[derive(Drop)]
pub(crate) struct Macros {
    values: IndexMap<Bytes, TokenList>,
}

impl Macros {
    ghost use Rattle.conf_lex.specs.Tables.{macros_of};

    /// No macros.

    pub(crate) fn new(alloc: Global) -> Macros
        ensures { macros_of result ≡ no_macros }
    {
        Macros {
            values: IndexMap::new(alloc),
        }
    }

    /// What a NAME stands for.
    pub(crate) fn get(&self, name: &Bytes) -> Option<&TokenList>
        ensures { option_copied result ≡ macros_of self.now name.now }
    {
        self.values.get(name)
    }

    /// Defines a NAME, also anew.

    pub(crate) fn define(&mut self, name: Bytes, value: TokenList) -> Result<(), NoMemory>
        ensures { OnOk result (macros_of self.new ≡ with_macro (macros_of self.old) name value) }
    {
        self.values.insert(name, value)?;
        Ok(())
    }
}
