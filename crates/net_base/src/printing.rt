ghost use Rattle.std.specs.Prelude.{◌≡◌, ◌++◌, OnOk};
ghost use Rattle.std.specs.Fmt.{AppendsText};

use crate::{Bytes, NoMemory};
use std::alloc::AllocError;
use std::fmt;
use std::fmt::{Display, Write};

impl Bytes {
    /// What `write!` calls: puts the text of a value behind the bytes.
    pub fn write_fmt<D: Display + Drop>(&mut self, value: D) -> Result<(), NoMemory>
        ensures { OnOk result (AppendsText self.old self.new (D.output value)) }
    {
        match self.write(value) {
            Ok(()) => Ok(()),
            Err(_) => Err(AllocError),
        }
    }
}

impl Write for Bytes {
    ghost write_str_gives = { λ old more new. new ≡ old ++ more };

    fn write_str(&mut self, text: &str) -> fmt::Result {
        match self.extend_from_slice(text.as_bytes()) {
            Ok(()) => Ok(()),
            Err(_) => Err(fmt::Error),
        }
    }
}
