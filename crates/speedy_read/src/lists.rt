//! How lists are read: vectors, boxed slices, small vectors, arrays, and bytes that are borrowed.
#![tactic(auto, unfolding(speedy_layout::specs::Lists::list))]

ghost use Rattle.std.specs.Prelude.{◌≡◌, false, IsErrAnd};
ghost use Rattle.speedy_base.specs.Error.{error_of};
ghost use Rattle.speedy_layout.specs.Codecs.{unsigned_codec};
ghost use Rattle.speedy_layout.specs.Prefixed.{prefixed_codec};
ghost use Rattle.speedy_read.specs.Reading.{RefusesUnsized, ReadsValue};

use crate::arrays::Arrays;
use crate::lengths::read_counted;
use crate::lent::read_lent;
use crate::many::{Fills, ItemByItem, Places, Takes};
use crate::prefixed::{ReadPrefix, ReadTold};
use crate::readable::{ReadFrom, ReadMany};
use crate::reader::LendingReader;
use smallvec::SmallVec;
use speedy_base::context::Context;
use speedy_base::endianness::Endianness;
use speedy_base::error::ErrorKind;
use speedy_layout::layout::Layout;
use speedy_layout::prefixed::Told;
use std::alloc::Global;
use std::array;
use std::boxed::BoxedSlice;
use std::convert::AsSlice;
use std::default::MadeWith;

impl<L: AsSlice<u8> + Drop, C: Context, T: ReadMany<L, C>> ReadFrom<L, C> for Vec<T> {
    type Strategy = ItemByItem<C>;

    #[inline]
    fn read_from<R: LendingReader<L, C>>(reader: &mut R) -> Result<Vec<T>, C::Error> {
        Vec::read_behind::<u32, R>(reader)
    }

    #[inline]
    fn minimum_bytes_needed() -> usize {
        4
    }
}

impl<L: AsSlice<u8> + Drop, C: Context, T: ReadMany<L, C>> ReadTold<L, C> for Vec<T> {
    #[inline]
    fn read_behind<N: ReadPrefix, R: LendingReader<L, C>>(
        reader: &mut R,
    ) -> Result<Vec<T>, C::Error> {
        read_counted::<N, Vec<T>, L, C, R>(reader)
    }
}

impl<L: AsSlice<u8> + Drop, C: Context, T: ReadMany<L, C>> ReadFrom<L, C> for BoxedSlice<T> {
    type Strategy = ItemByItem<C>;

    #[inline]
    fn read_from<R: LendingReader<L, C>>(reader: &mut R) -> Result<BoxedSlice<T>, C::Error> {
        BoxedSlice::read_behind::<u32, R>(reader)
    }

    #[inline]
    fn minimum_bytes_needed() -> usize {
        4
    }
}

impl<L: AsSlice<u8> + Drop, C: Context, T: ReadMany<L, C>> ReadTold<L, C> for BoxedSlice<T> {
    #[inline]
    fn read_behind<N: ReadPrefix, R: LendingReader<L, C>>(
        reader: &mut R,
    ) -> Result<BoxedSlice<T>, C::Error> {
        read_counted::<N, BoxedSlice<T>, L, C, R>(reader)
    }
}

impl<
    L: AsSlice<u8> + Drop,
    C: Context,
    T: ReadMany<L, C> + MadeWith<Global>,
    const N: usize,
> ReadFrom<L, C> for SmallVec<T, N> {
    type Strategy = ItemByItem<C>;

    #[inline]
    fn read_from<R: LendingReader<L, C>>(reader: &mut R) -> Result<SmallVec<T, N>, C::Error> {
        SmallVec::read_behind::<u32, R>(reader)
    }

    #[inline]
    fn minimum_bytes_needed() -> usize {
        4
    }
}

impl<
    L: AsSlice<u8> + Drop,
    C: Context,
    T: ReadMany<L, C> + MadeWith<Global>,
    const N: usize,
> ReadTold<L, C> for SmallVec<T, N> {
    #[inline]
    fn read_behind<P: ReadPrefix, R: LendingReader<L, C>>(
        reader: &mut R,
    ) -> Result<SmallVec<T, N>, C::Error> {
        let items: Vec<T> = Vec::read_behind::<P, R>(reader)?;
        Ok(SmallVec::from_vec(items))
    }
}

impl<L: AsSlice<u8> + Drop, C: Context, T: ReadMany<L, C>, const N: usize> ReadFrom<L, C>
    for [T; N] {
    type Strategy = Arrays<C>;

    #[inline]
    fn read_from<R: LendingReader<L, C>>(reader: &mut R) -> Result<[T; N], C::Error> {
        if let Some(array) = T::read_places::<[T; N], R>(reader) {
            return array;
        }
        let items = T::read_many(reader, N)?;
        match <[T; N]>::try_from(items) {
            Ok(array) => Ok(array),
            Err(_) => unreachable!(),
        }
    }

    #[inline]
    fn minimum_bytes_needed() -> usize {
        N.saturating_mul(T::minimum_bytes_needed())
    }
}

impl<L: AsSlice<u8> + Drop, C: Context, T: Layout + Drop, const N: usize> Places<L, C, T>
    for [T; N] {
    ghost shown = { λ a. a };

    ghost count = { N };

    #[inline(always)]
    fn count() -> usize {
        N
    }

    #[inline]
    fn begun() -> [T; N]
    where
        T: Default,
    {
        array::from_fn(|_i| T::default())
    }

    #[inline]
    fn fill<F: Fills<L, C, T>, R: LendingReader<L, C>>(
        &mut self,
        reader: &mut R,
    ) -> Result<(), C::Error> {
        F::fill::<R>(reader, self.as_mut_slice())
    }

    #[inline(always)]
    fn take<D: Takes<T>>(&mut self, order: Endianness, bytes: &[u8]) {
        D::take(self.as_mut_slice(), order, bytes);
    }
}

// They are lent by the reader.
impl<'a, C: Context> ReadFrom<&'a [u8], C> for &'a [u8] {
    type Strategy = ItemByItem<C>;

    #[inline]
    fn read_from<R: LendingReader<&'a [u8], C>>(reader: &mut R) -> Result<&'a [u8], C::Error>
        ensures reads { let bytes = ⟦<&'a [u8] as Layout>⟧ in
            ReadsValue C.Error.IsEof R.state bytes.seen bytes.layout result reader.old reader.new }
        ensures not_lent { RefusesUnsized C.Error.IsEof R.state (unsigned_codec 4)
            result reader.old reader.new }
    {
        <&'a [u8] as ReadTold<&'a [u8], C>>::read_behind::<u32, R>(reader)
    }

    #[inline]
    fn minimum_bytes_needed() -> usize
        ensures { result ≡ 4 }
    {
        4
    }
}

impl<'a, C: Context> ReadTold<&'a [u8], C> for &'a [u8] {
    #[inline]
    fn read_behind<N: ReadPrefix, R: LendingReader<&'a [u8], C>>(
        reader: &mut R,
    ) -> Result<&'a [u8], C::Error>
        ensures reads { let bytes = ⟦<&'a [u8] as Told>⟧ in
            ReadsValue C.Error.IsEof R.state bytes.seen (prefixed_codec (bytes.behind N.numbers)) result
            reader.old reader.new }
        ensures not_lent { RefusesUnsized C.Error.IsEof R.state N.numbers.codec
            result reader.old reader.new }
    {
        let length = N::read_number(reader)?;
        read_lent(reader, length)
    }
}

// They are lent by the reader, with no count before them.
impl<'a, C: Context, const N: usize> ReadFrom<&'a [u8], C> for &'a [u8; N] {
    type Strategy = ItemByItem<C>;

    #[inline]
    fn read_from<R: LendingReader<&'a [u8], C>>(reader: &mut R) -> Result<&'a [u8; N], C::Error>
        ensures reads { let bytes = ⟦<&'a [u8; N] as Layout>⟧ in
            ReadsValue C.Error.IsEof R.state bytes.seen bytes.layout result reader.old reader.new }
        ensures not_lent { (R.state reader.old).fixed.lends ≡ false
            → IsErrAnd result (λ e. C.Error.from_gives (error_of ErrorKind.Unsized) e)
            × (R.state reader.new ≡ R.state reader.old) }
    {
        let bytes = read_lent(reader, N)?;
        match <&'a [u8; N]>::try_from(bytes) {
            Ok(array) => Ok(array),
            Err(_) => unreachable!(),
        }
    }

    #[inline]
    fn minimum_bytes_needed() -> usize
        ensures { result ≡ ⟦<&'a [u8; N] as Layout>⟧.layout.least }
    {
        N
    }
}
