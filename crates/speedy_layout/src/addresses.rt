//! The layout of addresses.
#![tactic(auto, using(crate::specs::Encoding::encoded))]

ghost use Rattle.std.specs.Prelude.{ℕ, List, ◌⊎◌};
ghost use Rattle.std.specs.Net.Addr.{ipv4_octets, ipv6_octets};
ghost use Rattle.speedy_layout.specs.Addresses.{ip_octets};
ghost use Rattle.speedy_layout.specs.Codecs.{address_codec, ip_address_codec};

use crate::codes::ToCode;
use crate::layout::Layout;
use speedy_base::endianness::Endianness;
use std::net::{IpAddr, Ipv4Addr, Ipv6Addr};

impl Layout for Ipv4Addr {
    ghost Seen = { List ℕ };

    ghost seen = { ipv4_octets };

    ghost layout = { address_codec 4 };
}

impl ToCode for Ipv4Addr {
    type Code = u32;

    #[inline(always)]
    fn encode(&self) -> u32 {
        let octets = self.octets();
        Endianness::BigEndian.read_u32(&octets)
    }
}

impl Layout for Ipv6Addr {
    ghost Seen = { List ℕ };

    ghost seen = { ipv6_octets };

    ghost layout = { address_codec 16 };
}

impl ToCode for Ipv6Addr {
    type Code = u128;

    #[inline(always)]
    fn encode(&self) -> u128 {
        let octets = self.octets();
        Endianness::BigEndian.read_u128(&octets)
    }
}

impl Layout for IpAddr {
    ghost Seen = { List ℕ ⊎ List ℕ };

    ghost seen = { ip_octets };

    ghost layout = { ip_address_codec };
}
