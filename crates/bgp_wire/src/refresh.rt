ghost use Rattle.std.specs.Prelude.{◌≡◌, length};
ghost use Rattle.bgp_wire.specs.Written.{refreshed_family};

use byteorder::{BigEndian, ByteOrder};
use net_base::Family;

/// The family that the body of a ROUTE-REFRESH asks for (RFC 2918, section 3); `None` exactly where it
/// isn't IPv4 or IPv6 unicast. The third byte, which is reserved, isn't looked at.
pub fn read_refresh(body: &[u8]) -> Option<Family>
    requires { length body.now ≡ 4 }
    ensures { result ≡ refreshed_family body.now }
{
    let family = BigEndian::read_u16(body);
    let unicast = body[3] == 1;
    if !unicast {
        return None;
    }
    if family == 1 {
        Some(Family::V4)
    } else if family == 2 {
        Some(Family::V6)
    } else {
        None
    }
}
