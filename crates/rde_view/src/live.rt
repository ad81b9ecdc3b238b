ghost use Rattle.std.specs.Prelude.{◌≡◌};
ghost use Rattle.rde_view.specs.View.{facts_of};

use bgp_wire::{Encoding, OpenFacts};
use core_msgs::Agreed;
use net_base::Addr;

/// A session that is up, as its Up frame told it.
#[derive(Clone, Copy, Debug, PartialEq, Eq)]
pub struct Live {
    /// Its number, from 1 on.
    pub number: u32,
    /// The neighbour's address.
    pub peer: Addr,
    /// The neighbour's AS number.
    pub asn: u32,
    /// The neighbour's BGP identifier.
    pub id: u32,
    /// What is exchanged.
    pub agreed: Agreed,
}

impl Live {
    /// What the OPEN said and what was agreed, towards this own AS. The hold time is 0, as it tells nothing here.
    pub fn facts(&self, own_as: u32) -> OpenFacts
        ensures { result ≡ facts_of own_as self.now }
    {
        OpenFacts {
            asn: self.asn,
            id: self.id,
            hold: 0,
            encoding: Encoding {
                v4: self.agreed.v4,
                v6: self.agreed.v6,
                as4: self.agreed.as4,
                refresh: self.agreed.refresh,
                external: self.asn != own_as,
            },
        }
    }
}
