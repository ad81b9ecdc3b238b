ghost use Rattle.std.specs.Prelude.{◌≡◌, ◌+◌, ◌-◌, ◌<◌, [], Some, if◌then◌else◌, vec_len, vec_capacity};
ghost use Rattle.attr_codec.specs.Size.{capped};
ghost use Rattle.adj_rib_out.specs.Message.{with_prefix, joins, message_size, told_size, withdrawn_size, built_of};

use crate::look::{Built, Look};
use crate::rows::is_same_wanted;
use attr_codec::{announced_size, attrs_size, prefixes_size};
use attr_model::AttrRef;
use bgp_wire::{Encoding, LONGEST};
use net_base::{Family, Items, Prefix};
use std::marker::Model;

/// A message that looks join, with room for the prefixes that may still come.
#[derive(Drop)]
pub struct Packing {
    enc: Encoding,
    family: Family,
    wanted: Option<AttrRef>,
    // How many bytes the attributes have, and the prefixes.
    attributes: usize,
    nlri: usize,
    prefixes: Vec<Prefix>,
}

impl Model for Packing {
    ghost use Rattle.std.specs.Prelude.{◌≡◌, ◌-◌, length, vec_len, vec_capacity};
    ghost use Rattle.attr_codec.specs.Prefixes.{prefixes_bytes};
    ghost use Rattle.attr_codec.specs.Size.{capped};
    ghost use Rattle.adj_rib_out.specs.Message.{Message};
    ghost use Rattle.adj_rib_out.specs.Packed.{Packed, attributes_of};

    ghost Value = { Packed };

    ghost view = { λ s. record { message = record { enc = s.enc; family = s.family; wanted = s.wanted; prefixes = s.prefixes.items }; room = vec_capacity s.prefixes - vec_len s.prefixes } };

    ghost invariant = { λ s. (s.attributes ≡ capped (attributes_of s.enc s.wanted)) × (s.nlri ≡ capped (length (prefixes_bytes s.prefixes.items))) };
}

impl Packing {
    /// A message without prefixes, of this family and with these attributes. `prefixes` is the room for them.
    pub(crate) fn begin(
        enc: Encoding,
        family: Family,
        wanted: Option<AttrRef>,
        prefixes: Vec<Prefix>,
    ) -> Self
        requires { prefixes.items ≡ [] }
        ensures message { result.message ≡ record { enc = enc; family = family; wanted = wanted; prefixes = [] } }
        ensures room { result.room ≡ vec_capacity prefixes - vec_len prefixes }
    {
        let attributes = match &wanted {
            None => 0,
            Some(one) => attrs_size(enc, &one.attrs),
        };
        Packing {
            enc,
            family,
            wanted,
            attributes,
            nlri: 0,
            prefixes,
        }
    }

    /// Adds the prefix of a look that joins. The answer is whether it does.
    pub(crate) fn take(&mut self, look: &Look) -> bool
        requires { 0 < self.old.room }
        ensures value { result ≡ joins self.old.message look.now }
        ensures message { self.new.message ≡ (if result then with_prefix look.now.prefix self.old.message else self.old.message) }
        ensures room { self.old.room ≡ (if result then self.new.room + 1 else self.new.room) }
    {
        if self.family != look.prefix.family || !is_same_wanted(&self.wanted, &look.wanted) {
            return false;
        }
        let nlri = self.nlri.saturating_add(prefixes_size(&[look.prefix]));
        if self.size_with(nlri) > LONGEST {
            return false;
        }
        self.nlri = nlri;
        self.prefixes.push_reserved(look.prefix);
        true
    }

    /// How many bytes the message has.
    pub(crate) fn size(&self) -> usize
        ensures { result ≡ capped (message_size self.now.message) }
    {
        self.size_with(self.nlri)
    }

    /// How many bytes the message has with prefixes of `nlri` bytes.
    fn size_with(&self, nlri: usize) -> usize
        ensures { result ≡ capped (told_size self.now.message.enc self.now.message.family self.now.message.wanted nlri) }
    {
        match &self.wanted {
            None => withdrawn_size(self.family, nlri),
            Some(one) => announced_size(one.attrs.hop.family, self.attributes, nlri),
        }
    }

    /// The message, as it is handed out.
    pub(crate) fn into_built(self) -> Built
        ensures { result ≡ built_of self.message }
    {
        let Packing {
            wanted,
            prefixes,
            ..
        } = self;
        let prefixes = Items::from_vec(prefixes);
        match wanted {
            None => Built::Withdraw(prefixes),
            Some(one) => Built::Announce(one, prefixes),
        }
    }
}

/// How many bytes the UPDATE has that withdraws prefixes of `nlri` bytes, its header of 19 bytes included, or the greatest usize
/// where that is more (RFC 4271 section 4.3, RFC 4760 section 4).
fn withdrawn_size(family: Family, nlri: usize) -> usize
    ensures { result ≡ capped (withdrawn_size family nlri) }
{
    match family {
        Family::V4 => nlri.saturating_add(23),
        Family::V6 if nlri > 252 => nlri.saturating_add(30),
        Family::V6 => nlri + 29,
    }
}
