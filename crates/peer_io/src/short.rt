ghost use Rattle.bgp_wire.specs.Message.{Message};
ghost use Rattle.bgp_wire.specs.Written.{keepalive, open_by, refresh_of};

use crate::Outgoing;
use bgp_wire::{OpenRules, write_keepalive, write_open, write_refresh};
use net_base::{Family, NoMemory};
use wire_buf::Pipe;

/// The own OPEN by these rules (RFC 4271, section 4.2).
#[derive(Clone, Copy)]
pub struct Open(pub OpenRules);

/// A KEEPALIVE (RFC 4271, section 4.4).
#[derive(Clone, Copy)]
pub struct Keepalive;

/// A ROUTE-REFRESH for the unicast prefixes of a family (RFC 2918, section 3).
#[derive(Clone, Copy)]
pub struct RouteRefresh(pub Family);

impl Outgoing for Open {
    ghost message = { λ own. open_by own.0 };

    fn write(&self, out: &mut Pipe) -> Result<(), NoMemory> {
        write_open(&self.0, out)
    }

    fn is_update(&self) -> bool {
        false
    }
}

impl Outgoing for Keepalive {
    ghost message = { λ _. keepalive };

    fn write(&self, out: &mut Pipe) -> Result<(), NoMemory> {
        write_keepalive(out)
    }

    fn is_update(&self) -> bool {
        false
    }
}

impl Outgoing for RouteRefresh {
    ghost message = { λ ask. refresh_of ask.0 };

    fn write(&self, out: &mut Pipe) -> Result<(), NoMemory> {
        write_refresh(self.0, out)
    }

    fn is_update(&self) -> bool {
        false
    }
}
