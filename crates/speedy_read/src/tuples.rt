//! How tuples are read: part by part.
//!
//! A tuple of more than two parts is read as its first part and the tuple of the others.
#![tactic(auto, using(crate::specs::ReadingLemmas::got_as))]

ghost use Rattle.std.specs.Prelude.{◌+◌};

use crate::many::ItemByItem;
use crate::readable::ReadFrom;
use crate::reader::LendingReader;
use speedy_base::context::Context;
use std::convert::AsSlice;

impl<L: AsSlice<u8> + Drop, C: Context> ReadFrom<L, C> for () {
    type Strategy = ItemByItem<C>;

    #[inline(always)]
    fn read_from<R: LendingReader<L, C>>(_reader: &mut R) -> Result<(), C::Error> {
        Ok(())
    }

    #[inline]
    fn minimum_bytes_needed() -> usize {
        0
    }
}

impl<L: AsSlice<u8> + Drop, C: Context, T0: ReadFrom<L, C>> ReadFrom<L, C> for (T0,) {
    type Strategy = ItemByItem<C>;

    #[inline(always)]
    fn read_from<R: LendingReader<L, C>>(reader: &mut R) -> Result<(T0,), C::Error> {
        let first = reader.read_value()?;
        Ok((first,))
    }

    #[inline]
    fn minimum_bytes_needed() -> usize {
        T0::minimum_bytes_needed()
    }
}

impl<L: AsSlice<u8> + Drop, C: Context, T0: ReadFrom<L, C>, T1: ReadFrom<L, C>> ReadFrom<L, C>
    for (T0, T1) {
    type Strategy = ItemByItem<C>;

    #[inline(always)]
    fn read_from<R: LendingReader<L, C>>(reader: &mut R) -> Result<(T0, T1), C::Error> {
        let first = reader.read_value()?;
        let second = reader.read_value()?;
        Ok((first, second))
    }

    #[inline]
    fn minimum_bytes_needed() -> usize {
        T0::minimum_bytes_needed().saturating_add(T1::minimum_bytes_needed())
    }
}

impl<
    L: AsSlice<u8> + Drop,
    C: Context,
    T0: ReadFrom<L, C>,
    T1: ReadFrom<L, C>,
    T2: ReadFrom<L, C>,
> ReadFrom<L, C> for (T0, T1, T2) {
    type Strategy = ItemByItem<C>;

    #[inline(always)]
    fn read_from<R: LendingReader<L, C>>(reader: &mut R) -> Result<Self, C::Error> {
        let (v0, (v1, v2)) = reader.read_value::<(T0, (T1, T2))>()?;
        Ok((v0, v1, v2))
    }

    #[inline]
    fn minimum_bytes_needed() -> usize {
        <(T0, (T1, T2)) as ReadFrom<L, C>>::minimum_bytes_needed()
    }
}

impl<
    L: AsSlice<u8> + Drop,
    C: Context,
    T0: ReadFrom<L, C>,
    T1: ReadFrom<L, C>,
    T2: ReadFrom<L, C>,
    T3: ReadFrom<L, C>,
> ReadFrom<L, C> for (T0, T1, T2, T3) {
    type Strategy = ItemByItem<C>;

    #[inline(always)]
    fn read_from<R: LendingReader<L, C>>(reader: &mut R) -> Result<Self, C::Error> {
        let (v0, (v1, v2, v3)) = reader.read_value::<(T0, (T1, T2, T3))>()?;
        Ok((v0, v1, v2, v3))
    }

    #[inline]
    fn minimum_bytes_needed() -> usize {
        <(T0, (T1, T2, T3)) as ReadFrom<L, C>>::minimum_bytes_needed()
    }
}

impl<
    L: AsSlice<u8> + Drop,
    C: Context,
    T0: ReadFrom<L, C>,
    T1: ReadFrom<L, C>,
    T2: ReadFrom<L, C>,
    T3: ReadFrom<L, C>,
    T4: ReadFrom<L, C>,
> ReadFrom<L, C> for (T0, T1, T2, T3, T4) {
    type Strategy = ItemByItem<C>;

    #[inline(always)]
    fn read_from<R: LendingReader<L, C>>(reader: &mut R) -> Result<Self, C::Error> {
        let (v0, (v1, v2, v3, v4)) = reader.read_value::<(T0, (T1, T2, T3, T4))>()?;
        Ok((v0, v1, v2, v3, v4))
    }

    #[inline]
    fn minimum_bytes_needed() -> usize {
        <(T0, (T1, T2, T3, T4)) as ReadFrom<L, C>>::minimum_bytes_needed()
    }
}

impl<
    L: AsSlice<u8> + Drop,
    C: Context,
    T0: ReadFrom<L, C>,
    T1: ReadFrom<L, C>,
    T2: ReadFrom<L, C>,
    T3: ReadFrom<L, C>,
    T4: ReadFrom<L, C>,
    T5: ReadFrom<L, C>,
> ReadFrom<L, C> for (T0, T1, T2, T3, T4, T5) {
    type Strategy = ItemByItem<C>;

    #[inline(always)]
    fn read_from<R: LendingReader<L, C>>(reader: &mut R) -> Result<Self, C::Error> {
        let (v0, (v1, v2, v3, v4, v5)) = reader.read_value::<(T0, (T1, T2, T3, T4, T5))>()?;
        Ok((v0, v1, v2, v3, v4, v5))
    }

    #[inline]
    fn minimum_bytes_needed() -> usize {
        <(T0, (T1, T2, T3, T4, T5)) as ReadFrom<L, C>>::minimum_bytes_needed()
    }
}

impl<
    L: AsSlice<u8> + Drop,
    C: Context,
    T0: ReadFrom<L, C>,
    T1: ReadFrom<L, C>,
    T2: ReadFrom<L, C>,
    T3: ReadFrom<L, C>,
    T4: ReadFrom<L, C>,
    T5: ReadFrom<L, C>,
    T6: ReadFrom<L, C>,
> ReadFrom<L, C> for (T0, T1, T2, T3, T4, T5, T6) {
    type Strategy = ItemByItem<C>;

    #[inline(always)]
    fn read_from<R: LendingReader<L, C>>(reader: &mut R) -> Result<Self, C::Error> {
        let (v0, (v1, v2, v3, v4, v5, v6)) = reader.read_value::<(T0, (T1, T2, T3, T4, T5, T6))>()?;
        Ok((v0, v1, v2, v3, v4, v5, v6))
    }

    #[inline]
    fn minimum_bytes_needed() -> usize {
        <(T0, (T1, T2, T3, T4, T5, T6)) as ReadFrom<L, C>>::minimum_bytes_needed()
    }
}

impl<
    L: AsSlice<u8> + Drop,
    C: Context,
    T0: ReadFrom<L, C>,
    T1: ReadFrom<L, C>,
    T2: ReadFrom<L, C>,
    T3: ReadFrom<L, C>,
    T4: ReadFrom<L, C>,
    T5: ReadFrom<L, C>,
    T6: ReadFrom<L, C>,
    T7: ReadFrom<L, C>,
> ReadFrom<L, C> for (T0, T1, T2, T3, T4, T5, T6, T7) {
    type Strategy = ItemByItem<C>;

    #[inline(always)]
    fn read_from<R: LendingReader<L, C>>(reader: &mut R) -> Result<Self, C::Error> {
        let (v0, (v1, v2, v3, v4, v5, v6, v7)) = reader.read_value::<
            (T0, (T1, T2, T3, T4, T5, T6, T7)),
        >()?;
        Ok((v0, v1, v2, v3, v4, v5, v6, v7))
    }

    #[inline]
    fn minimum_bytes_needed() -> usize {
        <(T0, (T1, T2, T3, T4, T5, T6, T7)) as ReadFrom<L, C>>::minimum_bytes_needed()
    }
}

impl<
    L: AsSlice<u8> + Drop,
    C: Context,
    T0: ReadFrom<L, C>,
    T1: ReadFrom<L, C>,
    T2: ReadFrom<L, C>,
    T3: ReadFrom<L, C>,
    T4: ReadFrom<L, C>,
    T5: ReadFrom<L, C>,
    T6: ReadFrom<L, C>,
    T7: ReadFrom<L, C>,
    T8: ReadFrom<L, C>,
> ReadFrom<L, C> for (T0, T1, T2, T3, T4, T5, T6, T7, T8) {
    type Strategy = ItemByItem<C>;

    #[inline(always)]
    fn read_from<R: LendingReader<L, C>>(reader: &mut R) -> Result<Self, C::Error> {
        let (v0, (v1, v2, v3, v4, v5, v6, v7, v8)) = reader.read_value::<
            (T0, (T1, T2, T3, T4, T5, T6, T7, T8)),
        >()?;
        Ok((v0, v1, v2, v3, v4, v5, v6, v7, v8))
    }

    #[inline]
    fn minimum_bytes_needed() -> usize {
        <(T0, (T1, T2, T3, T4, T5, T6, T7, T8)) as ReadFrom<L, C>>::minimum_bytes_needed()
    }
}

impl<
    L: AsSlice<u8> + Drop,
    C: Context,
    T0: ReadFrom<L, C>,
    T1: ReadFrom<L, C>,
    T2: ReadFrom<L, C>,
    T3: ReadFrom<L, C>,
    T4: ReadFrom<L, C>,
    T5: ReadFrom<L, C>,
    T6: ReadFrom<L, C>,
    T7: ReadFrom<L, C>,
    T8: ReadFrom<L, C>,
    T9: ReadFrom<L, C>,
> ReadFrom<L, C> for (T0, T1, T2, T3, T4, T5, T6, T7, T8, T9) {
    type Strategy = ItemByItem<C>;

    #[inline(always)]
    fn read_from<R: LendingReader<L, C>>(reader: &mut R) -> Result<Self, C::Error> {
        let (v0, (v1, v2, v3, v4, v5, v6, v7, v8, v9)) = reader.read_value::<
            (T0, (T1, T2, T3, T4, T5, T6, T7, T8, T9)),
        >()?;
        Ok((v0, v1, v2, v3, v4, v5, v6, v7, v8, v9))
    }

    #[inline]
    fn minimum_bytes_needed() -> usize {
        <(T0, (T1, T2, T3, T4, T5, T6, T7, T8, T9)) as ReadFrom<L, C>>::minimum_bytes_needed()
    }
}

impl<
    L: AsSlice<u8> + Drop,
    C: Context,
    T0: ReadFrom<L, C>,
    T1: ReadFrom<L, C>,
    T2: ReadFrom<L, C>,
    T3: ReadFrom<L, C>,
    T4: ReadFrom<L, C>,
    T5: ReadFrom<L, C>,
    T6: ReadFrom<L, C>,
    T7: ReadFrom<L, C>,
    T8: ReadFrom<L, C>,
    T9: ReadFrom<L, C>,
    T10: ReadFrom<L, C>,
> ReadFrom<L, C> for (T0, T1, T2, T3, T4, T5, T6, T7, T8, T9, T10) {
    type Strategy = ItemByItem<C>;

    #[inline(always)]
    fn read_from<R: LendingReader<L, C>>(reader: &mut R) -> Result<Self, C::Error> {
        let (v0, (v1, v2, v3, v4, v5, v6, v7, v8, v9, v10)) = reader.read_value::<
            (T0, (T1, T2, T3, T4, T5, T6, T7, T8, T9, T10)),
        >()?;
        Ok((v0, v1, v2, v3, v4, v5, v6, v7, v8, v9, v10))
    }

    #[inline]
    fn minimum_bytes_needed() -> usize {
        <(T0, (T1, T2, T3, T4, T5, T6, T7, T8, T9, T10)) as ReadFrom<L, C>>::minimum_bytes_needed()
    }
}
