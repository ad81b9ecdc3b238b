ghost use Rattle.std.specs.Prelude.{◌≡◌, ◌==◌};
ghost use Rattle.std.proofs.Common.{rules};
ghost use Rattle.std.specs.Cmp.Rules.{comparing, hashing};
ghost use Rattle.std.specs.Hash as fed;
ghost use Rattle.std.specs.Ordering.{on};

use crate::Attrs;
use std::fmt::{self, Debug, Formatter, Write};
use std::hash::{Hash, Hasher};
use std::marker::Model;
use std::ops::Deref;
use std::rc::Rc;

/// Attributes that a table shares among routes, under the number that it gave them. Contracts see the number and the
/// attributes. Two references of one table are equal, by their numbers, exactly where their attributes are. A copy is
/// one use more, so only the table makes it.
#[derive(Drop)]
pub struct AttrRef {
    /// The number that the table gave to these attributes.
    pub number: usize,
    /// The attributes themselves, shared by all references of this number.
    pub attrs: Rc<Attrs>,
}

impl Model for AttrRef {
    ghost use Rattle.attr_model.specs.Numbered.{Numbered};

    ghost Value = { Numbered };

    ghost view = { λ one. record { number = one.number; attrs = one.attrs.value } };
}

/// The attributes.
impl Deref for AttrRef {
    type Target = Attrs;

    ghost deref_gives = { λ one attrs. attrs ≡ one.attrs };

    fn deref(&self) -> &Attrs
        ensures { result.now ≡ self.now.attrs }
    {
        &self.attrs
    }
}

/// By number: two references of one table are equal exactly where their attributes are.
impl PartialEq for AttrRef {
    ghost eq = { on (λ one. one.number) ◌==◌ };

    ghost laws = { Prim.search (comparing, rules) };

    fn eq(&self, other: &Self) -> bool {
        self.number == other.number
    }
}

impl Eq for AttrRef {
    ghost laws = { Prim.search (comparing, rules) };
}

impl Hash for AttrRef {
    ghost hash_input = { λ one. fed.usize one.number };

    ghost respects_eq = { Prim.search (comparing, hashing, rules) };

    fn hash<H: Hasher>(&self, state: &mut H) {
        self.number.hash(state);
    }
}

impl Debug for AttrRef {
    fn fmt<W: Write>(&self, f: &mut Formatter<W>) -> fmt::Result {
        write!(f, "#{} {:?}", self.number, &*self.attrs)
    }
}
