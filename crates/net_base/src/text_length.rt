ghost use Rattle.std.specs.Prelude.{◌≡◌, ◌+◌, ◌*◌, ◌≤◌, ◌++◌, length, flat_map, codes, decimal};
ghost use Rattle.std.specs.Net.Text.{hex, groups_text, hex_groups_text, ipv4_text, longest_zero_run};

use crate::number::digits;
use crate::{Addr, Prefix};
use std::net::IpAddr;

impl Addr {
    ghost use Rattle.net_base.specs.Addr.{addr_text};

    /// How many bytes the text of this address has.
    pub fn text_length(self) -> usize
        ensures value { result ≡ length (addr_text self) }
        ensures within { result ≤ 83 }
    {
        match self.ip() {
            IpAddr::V4(ip) => dotted_length(ip.octets()),
            IpAddr::V6(ip) => colon_hex_length(ip.segments()),
        }
    }
}

impl Prefix {
    ghost use Rattle.net_base.specs.Prefix.{prefix_text};

    /// How many bytes the text of this prefix has.
    pub fn text_length(self) -> usize
        ensures value { result ≡ length (prefix_text self) }
        ensures within { result ≤ 104 }
    {
        self.addr().text_length() + 1 + digits(u64::from(self.len))
    }
}

/// The length of four octets with dots between them.
fn dotted_length(octets: [u8; 4]) -> usize
    ensures value { result ≡ length (ipv4_text octets) }
    ensures within { result ≤ 83 }
{
    let [a, b, c, d] = octets;
    digits(u64::from(a)) + digits(u64::from(b)) + digits(u64::from(c)) + digits(u64::from(d)) + 3
}

/// The length of eight groups with colons between them, where `::` stands for the first longest run of two or
/// more zeros (RFC 5952 section 4.2).
#[tactic(auto, unfolding(std::specs::Net::Text::hex_groups_text))]
fn colon_hex_length(groups: [u16; 8]) -> usize
    ensures value { result ≡ length (hex_groups_text groups) }
    ensures within { result ≤ 82 }
{
    let groups = &groups[..];
    let (start, count) = longest_zero_run(groups);
    if count > 1 {
        groups_length(&groups[..start]) + 2 + groups_length(&groups[start + count..])
    } else {
        groups_length(groups)
    }
}

/// Where the longest run of zeros begins and how many zeros it has; of two such runs the first counts.
fn longest_zero_run(groups: &[u16]) -> (usize, usize)
    ensures value { result ≡ longest_zero_run groups.now }
    ensures within { result.0 + result.1 ≤ length groups.now }
{
    let mut start = groups.len();
    let mut len = 0;
    let mut run = 0;
    for i in (0..groups.len()).rev() {
        run = if groups[i] == 0 { run + 1 } else { 0 };
        if run >= len {
            start = i;
            len = run;
        }
    }
    (start, len)
}

/// The length of groups with colons between them.
fn groups_length(groups: &[u16]) -> usize
    requires { length groups.now ≤ 8 }
    ensures value { result ≡ length (groups_text groups.now) }
    ensures within { result ≤ 40 }
{
    match groups {
        [] => 0,
        [first, rest @ ..] => group_length(*first) + behind_colons(rest),
    }
}

/// The length of groups with a colon before each.
fn behind_colons(groups: &[u16]) -> usize
    requires { length groups.now ≤ 8 }
    ensures value { result ≡ length (flat_map (λ t. codes ":" ++ hex t) groups.now) }
    ensures within { result ≤ 5 * length groups.now }
{
    let mut length = 0;
    for group in groups {
        length += 1 + group_length(*group);
    }
    length
}

/// The length of a group of four hexadecimal digits without its leading zeros.
#[tactic(auto, unfolding(std::specs::Net::Text::hex))]
fn group_length(group: u16) -> usize
    ensures value { result ≡ length (hex group) }
    ensures within { result ≤ 4 }
{
    match group {
        0x1000.. => 4,
        0x100.. => 3,
        0x10.. => 2,
        _ => 1,
    }
}
