//! How addresses are read.
ghost use Rattle.speedy_read.specs.Decoding.{coded};

use crate::codes::FromCode;
use crate::many::ItemByItem;
use crate::readable::ReadFrom;
use crate::reader::LendingReader;
use speedy_base::context::Context;
use speedy_base::endianness::Endianness;
use speedy_base::error::error_invalid_enum_variant;
use speedy_layout::fixed_numbers::FixedNumber;
use std::convert::AsSlice;
use std::net::{IpAddr, Ipv4Addr, Ipv6Addr};

#[tactic(auto, using(crate::specs::Decoding::decoded))]
impl FromCode for Ipv4Addr {
    type Strategy = ItemByItem<()>;

    #[inline]
    fn decode<C: Context>(code: u32, _: bool) -> Result<Ipv4Addr, C::Error> {
        let mut octets = [0; 4];
        code.encode(Endianness::BigEndian, &mut octets);
        Ok(Ipv4Addr::from(octets))
    }

    ghost is_coded = { coded _ _ _ };
}

impl FromCode for Ipv6Addr {
    type Strategy = ItemByItem<()>;

    #[inline]
    fn decode<C: Context>(code: u128, _: bool) -> Result<Ipv6Addr, C::Error> {
        let mut octets = [0; 16];
        code.encode(Endianness::BigEndian, &mut octets);
        Ok(Ipv6Addr::from(octets))
    }

    ghost is_coded = { coded _ _ _ };
}

impl<L: AsSlice<u8> + Drop, C: Context> ReadFrom<L, C> for IpAddr {
    type Strategy = ItemByItem<C>;

    #[inline]
    fn read_from<R: LendingReader<L, C>>(reader: &mut R) -> Result<IpAddr, C::Error> {
        let tag = reader.read_u8()?;
        match tag {
            0 => {
                let short = reader.read_value::<Ipv4Addr>()?;
                Ok(IpAddr::V4(short))
            }
            1 => {
                let long = reader.read_value::<Ipv6Addr>()?;
                Ok(IpAddr::V6(long))
            }
            _ => Err(error_invalid_enum_variant()),
        }
    }

    #[inline]
    fn minimum_bytes_needed() -> usize {
        5
    }
}
