//! How `Cow`, `CowStr` and `CowSlice` are read.
#![tactic(auto, unfolding(speedy_layout::specs::Lists::list, speedy_layout::specs::Texts::text))]

ghost use Rattle.std.specs.Prelude.{◌≡◌};

use crate::lengths::read_counted;
use crate::many::ItemByItem;
use crate::prefixed::{ReadPrefix, ReadTold};
use crate::readable::{ReadFrom, ReadMany};
use crate::reader::LendingReader;
use speedy_base::context::Context;
use std::borrow::{Cow, CowSlice, CowStr};
use std::convert::AsSlice;

// It is read as owned, by any reader.
impl<'a, L: AsSlice<u8> + Drop, C: Context, T: ReadFrom<L, C>> ReadFrom<L, C> for Cow<'a, T> {
    type Strategy = ItemByItem<C>;

    #[inline]
    fn read_from<R: LendingReader<L, C>>(reader: &mut R) -> Result<Cow<'a, T>, C::Error> {
        let value = T::read_from(reader)?;
        Ok(Cow::Owned(value))
    }

    #[inline]
    fn minimum_bytes_needed() -> usize {
        T::minimum_bytes_needed()
    }
}

impl<'a, L: AsSlice<u8> + Drop, C: Context, T: ReadTold<L, C>> ReadTold<L, C> for Cow<'a, T> {
    #[inline]
    fn read_behind<N: ReadPrefix, R: LendingReader<L, C>>(
        reader: &mut R,
    ) -> Result<Cow<'a, T>, C::Error> {
        let value = T::read_behind::<N, R>(reader)?;
        Ok(Cow::Owned(value))
    }
}

// Bytes point into those that the reader lends; other items are owned.
impl<'a, C: Context, T: ReadMany<&'a [u8], C> + 'a> ReadFrom<&'a [u8], C> for CowSlice<'a, T> {
    type Strategy = ItemByItem<C>;

    #[inline]
    fn read_from<R: LendingReader<&'a [u8], C>>(
        reader: &mut R,
    ) -> Result<CowSlice<'a, T>, C::Error> {
        <CowSlice<'a, T> as ReadTold<&'a [u8], C>>::read_behind::<u32, R>(reader)
    }

    #[inline]
    fn minimum_bytes_needed() -> usize
        ensures { result ≡ 4 }
    {
        4
    }
}

impl<'a, C: Context, T: ReadMany<&'a [u8], C> + 'a> ReadTold<&'a [u8], C> for CowSlice<'a, T> {
    #[inline]
    fn read_behind<N: ReadPrefix, R: LendingReader<&'a [u8], C>>(
        reader: &mut R,
    ) -> Result<CowSlice<'a, T>, C::Error> {
        read_counted::<N, CowSlice<'a, T>, &'a [u8], C, R>(reader)
    }
}

// It points into the bytes that the reader lends, and is owned where it lends nothing.
impl<'a, C: Context> ReadFrom<&'a [u8], C> for CowStr<'a> {
    type Strategy = ItemByItem<C>;

    #[inline]
    fn read_from<R: LendingReader<&'a [u8], C>>(reader: &mut R) -> Result<CowStr<'a>, C::Error> {
        <CowStr<'a> as ReadTold<&'a [u8], C>>::read_behind::<u32, R>(reader)
    }

    #[inline]
    fn minimum_bytes_needed() -> usize
        ensures { result ≡ 4 }
    {
        4
    }
}

impl<'a, C: Context> ReadTold<&'a [u8], C> for CowStr<'a> {
    #[inline]
    fn read_behind<N: ReadPrefix, R: LendingReader<&'a [u8], C>>(
        reader: &mut R,
    ) -> Result<CowStr<'a>, C::Error> {
        read_counted::<N, CowStr<'a>, &'a [u8], C, R>(reader)
    }
}
