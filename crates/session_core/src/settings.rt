//! What a configuration says of its neighbours.

ghost use Rattle.std.specs.Prelude.{◌≡◌};
ghost use Rattle.session_core.specs.Reloads.{settings_in};

use bgp_wire::OpenRules;
use conf_tree::{Conf, Neighbour};
use peer_session::Settings;

/// What a configuration says of the sessions with one of its neighbours.
pub(crate) fn settings_of(conf: &Conf, neighbour: &Neighbour) -> Settings
    ensures { result ≡ settings_in conf.now neighbour.now }
{
    let rules = OpenRules {
        asn: conf.asn,
        remote_as: neighbour.remote_as,
        router_id: conf.router_id,
        hold: neighbour.hold,
        hold_min: neighbour.hold_min,
        v4: neighbour.announce_v4,
        v6: neighbour.announce_v6,
        refresh: neighbour.announce_refresh,
        as4: neighbour.announce_as_4byte,
    };
    Settings {
        rules,
        passive: neighbour.passive,
        down: neighbour.down,
    }
}
