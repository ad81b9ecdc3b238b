ghost use Rattle.std.specs.Prelude.{◌≡◌, IfOk};
ghost use Rattle.std.specs.Cmp.{decided, partial_equiv_from_equiv};
ghost use Rattle.std.specs.Hash as fed;
ghost use Rattle.std.specs.Hash.{same_Alike};
ghost use Rattle.attr_model.proofs.SameAttrs.{attrs_eq-Decides};
ghost use Rattle.attr_model.specs.contracts.attrs.AttrsPartialEq.TheImpl.{eq-value as attrs_eq};
ghost use Rattle.attr_intern.specs.Hashed.{hash_of};

use attr_model::Attrs;
use net_base::NoMemory;
use std::alloc::Global;
use std::hash::{FoldHasher, Hash, Hasher};
use std::marker::Model;
use std::rc::Rc;

/// Shared attributes with their hash, which is computed once. Contracts see the attributes.
#[derive(Drop)]
pub(crate) struct Hashed {
    hash: u64,
    attrs: Rc<Attrs>,
}

impl Model for Hashed {
    ghost use Rattle.std.specs.Prelude.{◌≡◌};
    ghost use Rattle.attr_model.specs.declared.attrs.Attrs.{Attrs};
    ghost use Rattle.attr_intern.specs.Hashed.{hash_of};

    ghost Value = { Attrs };

    ghost view = { λ hashed. hashed.attrs.value };

    ghost invariant = { λ hashed. hashed.hash ≡ hash_of hashed.attrs.value };
}

impl Hashed {
    /// These attributes, to be shared.
    pub(crate) fn new(alloc: Global, attrs: Attrs) -> Result<Self, NoMemory>
        ensures { IfOk result (λ hashed. hashed ≡ attrs) }
    {
        Ok(Hashed {
            hash: hash(&attrs),
            attrs: Rc::new(alloc, attrs)?,
        })
    }

    /// One more share of the attributes.
    pub(crate) fn attrs(&self) -> Result<Rc<Attrs>, NoMemory>
        ensures { IfOk result (λ attrs. attrs.value ≡ self.now) }
    {
        self.attrs.clone()
    }

    /// One more share of the attributes, with their hash.
    pub(crate) fn share(&self) -> Result<Self, NoMemory>
        ensures { IfOk result (λ hashed. hashed ≡ self.now) }
    {
        Ok(Hashed {
            hash: self.hash,
            attrs: self.attrs.clone()?,
        })
    }
}

/// The hash of the attributes.
#[tactic(auto, unfolding(crate::specs::Hashed::hash_of))]
fn hash(attrs: &Attrs) -> u64
    ensures { result ≡ hash_of attrs.now }
{
    let mut hasher = FoldHasher::default();
    attrs.hash(&mut hasher);
    hasher.finish()
}

impl PartialEq for Hashed {
    ghost eq = { attrs_eq.it };

    ghost laws = { partial_equiv_from_equiv (decided attrs_eq.it attrs_eq-Decides) };

    fn eq(&self, other: &Self) -> bool {
        self.hash == other.hash && *self.attrs == *other.attrs
    }
}

impl Eq for Hashed {
    ghost laws = { decided attrs_eq.it attrs_eq-Decides };
}

impl Hash for Hashed {
    ghost hash_input = { λ attrs. fed.u64 (hash_of attrs) };

    ghost respects_eq = { (same_Alike (λ attrs. fed.u64 (hash_of attrs)) attrs_eq-Decides).fed };

    fn hash<H: Hasher>(&self, state: &mut H) {
        self.hash.hash(state);
    }
}
