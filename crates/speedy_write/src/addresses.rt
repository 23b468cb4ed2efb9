//! How addresses are written.
ghost use Rattle.std.specs.Prelude.{◌≤◌, length, IsTrue, IsSome};
ghost use Rattle.speedy_write.specs.Writing.{WritesIfSome};

use crate::each::{Short, count_short};
use crate::writable::Writable;
use crate::writer::Writer;
use speedy_base::context::Context;
use speedy_layout::{Layout, ToCode};
use std::net::{IpAddr, Ipv4Addr, Ipv6Addr};

impl<C: Context> Writable<C> for Ipv4Addr {
    #[inline(always)]
    fn write_to<W: Writer<C>>(&self, writer: &mut W) -> Result<(), C::Error> {
        writer.write_code(self)
    }
}

impl<C: Context> Writable<C> for Ipv6Addr {
    #[inline(always)]
    fn write_to<W: Writer<C>>(&self, writer: &mut W) -> Result<(), C::Error> {
        writer.write_code(self)
    }
}

impl<C: Context> Writable<C> for IpAddr {
    #[inline]
    fn write_to<W: Writer<C>>(&self, writer: &mut W) -> Result<(), C::Error> {
        match self {
            IpAddr::V4(short) => {
                writer.write_u8(0)?;
                writer.write_value(short)
            }
            IpAddr::V6(long) => {
                writer.write_u8(1)?;
                writer.write_value(long)
            }
        }
    }

    /// Counts the values together, where each takes few bytes. It writes none.
    #[inline(always)]
    fn write_in_bulk<W: Writer<C>>(items: &[IpAddr], writer: &mut W) -> Option<Result<(), C::Error>>
        ensures counts { let layout = ⟦<IpAddr as Layout>⟧ in
            WritesIfSome C.Error.from_gives W.state W.appends layout.seen layout.layout items.now
            result writer.old writer.new }
        ensures answers { IsTrue W.is_counter → length items.now ≤ 4294967295 → IsSome result }
    {
        count_short(items, writer)
    }
}

impl Short for IpAddr {
    #[inline(always)]
    fn size(&self) -> usize {
        // The code shows that there is an encoding. A compiler leaves it out.
        match self {
            IpAddr::V4(short) => {
                let _code = short.encode();
                5
            }
            IpAddr::V6(long) => {
                let _code = long.encode();
                17
            }
        }
    }
}
