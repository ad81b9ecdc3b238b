ghost use Rattle.std.specs.Prelude.{◌≡◌, ℕ, List, [], ◌++◌, OnOk};
ghost use Rattle.std.specs.Fmt.{AppendsText};

use net_base::{Bytes, Items, NoMemory};
use std::alloc::{AllocError, Global};
use std::fmt;
use std::fmt::{Display, Write};
use std::marker::Model;

/// The bytes of a text that is being printed. They need not be UTF-8, since quoted texts are bytes.
#[derive(Drop)]
pub struct Printed {
    bytes: Bytes,
}

impl Model for Printed {
    ghost Value = { List ℕ };

    ghost view = { λ s. s.bytes };
}

impl Printed {
    /// A text without bytes, which takes no memory.
    pub fn new(alloc: Global) -> Self
        ensures { result ≡ [] }
    {
        Printed {
            bytes: Items::new(alloc),
        }
    }

    /// The bytes of the text, which takes no memory.
    pub fn into_bytes(self) -> Bytes
        ensures { result ≡ self }
    {
        let Printed { bytes } = self;
        bytes
    }

    /// Puts bytes behind the text.
    pub fn push(&mut self, more: &[u8]) -> Result<(), NoMemory>
        ensures { OnOk result (self.new ≡ self.old ++ more.now) }
    {
        self.bytes.extend_from_slice(more)
    }

    /// What `write!` calls: puts the text of a value behind the text.
    pub fn write_fmt<D: Display + Drop>(&mut self, value: D) -> Result<(), NoMemory>
        ensures { OnOk result (AppendsText self.old self.new (D.output value)) }
    {
        match self.write(value) {
            Ok(()) => Ok(()),
            Err(_) => Err(AllocError),
        }
    }
}

impl Write for Printed {
    ghost write_str_gives = { λ old more new. new ≡ old ++ more };

    fn write_str(&mut self, text: &str) -> fmt::Result {
        match self.push(text.as_bytes()) {
            Ok(()) => Ok(()),
            Err(_) => Err(fmt::Error),
        }
    }
}
