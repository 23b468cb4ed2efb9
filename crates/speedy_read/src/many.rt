//! How many values are read: the strategies, and the one that reads item by item. Those of numbers are in `bulk`.
ghost use Rattle.std.specs.Prelude.{◌≡◌, ◌*◌, ℕ, ⊤, List, Some, IsSome, length as count_of, map};
ghost use Rattle.std.specs.Cow.{cow_slice_items};
ghost use Rattle.std.specs.Option.{MatchOption};
ghost use Rattle.speedy_layout.specs.Codecs.{vector_codec};
ghost use Rattle.speedy_layout.specs.FixedNumbers.{encoded_in};
ghost use Rattle.speedy_layout.specs.Format.{Each};
ghost use Rattle.speedy_layout.specs.Lists.{vector};
ghost use Rattle.speedy_read.specs.Collections.{gatherer, CollectsValues};
ghost use Rattle.speedy_read.specs.Lending.{many_items};
ghost use Rattle.speedy_read.specs.Reading.{ReadsValue};
ghost use Rattle.speedy_read.specs.Wholes.{HaveSize};

use crate::collections::{FromItems, collect_items};
use crate::readable::ReadFrom;
use crate::reader::LendingReader;
use crate::room::{vec_for, with_a_place};
use speedy_base::context::Context;
use speedy_base::endianness::Endianness;
use speedy_base::error::{ErrorKind, error_out_of_memory};
use speedy_layout::layout::Layout;
use std::alloc::Global;
use std::borrow::CowSlice;
use std::convert::AsSlice;
use std::marker::PhantomData;

/// How the values of a type are read several at a time.
///
/// It asks nothing of how one value is read, so that a proof which names a list names that less often.
pub trait Strategy<L: AsSlice<u8> + Drop, C: Context, T: Layout + Drop> {
    /// Whether many values are read in bulk, so that a count of more than there are is refused before any is read. It
    /// is a hint: no value rests on it.
    const IN_BULK: bool = false;

    /// How many bytes each value has, where all have as many and are read at once. This body says `None`.
    #[inline(always)]
    fn size_of_each() -> Option<usize>
        ensures { MatchOption result ⊤ (λ size. HaveSize size T.layout) }
    {
        None
    }

    /// Reads `length` values, one after another, into what is asked for where bytes are lent, or into a vector. `None`
    /// where each is to be read by itself: then nothing is read. This body says `None`.
    #[inline(always)]
    fn read_many_lent<W: FromLent<L, T>, R: LendingReader<L, C>>(
        _reader: &mut R,
        _length: usize,
    ) -> Option<Result<Many<W, T>, C::Error>>
        ensures { MatchOption result (R.state _reader.new ≡ R.state _reader.old) (λ read.
            ReadsValue C.Error.IsEof R.state (λ many. map T.seen (many_items W.shown many))
            (vector_codec _length T.layout) read _reader.old _reader.new) }
    {
        None
    }

    /// Reads as many values as there are places, into these, without a vector. `None` where that cannot be: then
    /// nothing is read. This body says `None`.
    #[inline(always)]
    fn read_places<P: Places<L, C, T>, R: LendingReader<L, C>>(
        _reader: &mut R,
    ) -> Option<Result<P, C::Error>>
        ensures { MatchOption result (R.state _reader.new ≡ R.state _reader.old) (λ read.
            ReadsValue C.Error.IsEof R.state (λ p. map T.seen (P.shown p))
            (vector_codec P.count T.layout) read _reader.old _reader.new) }
    {
        None
    }

    /// Reads as many values as there are places, `length` times, all at once from bytes that the reader lends. `None`
    /// where that cannot be: then nothing is read. This body says `None`.
    #[inline(always)]
    fn read_many_places<P: Places<L, C, T>, R: LendingReader<L, C>>(
        _reader: &mut R,
        _length: usize,
    ) -> Option<Result<Vec<P>, C::Error>>
        ensures { MatchOption result (R.state _reader.new ≡ R.state _reader.old) (λ read.
            ReadsValue C.Error.IsEof R.state (λ v. map (λ p. map T.seen (P.shown p)) v.items)
            (vector_codec _length (vector_codec P.count T.layout)) read _reader.old _reader.new) }
    {
        None
    }
}

/// Reads each value by itself, which serves any type.
///
/// In an impl of `ReadFrom` it names the context, since a type that owns memory gets no proof of an impl whose strategy
/// names no parameter of it; in one of `FromCode`, which has no parameter, it names `()`.
pub struct ItemByItem<N> {
    _named: PhantomData<N>,
}

impl<L: AsSlice<u8> + Drop, C: Context, N, T: Layout + Drop> Strategy<L, C, T> for ItemByItem<N> {}

/// Places for values that are read one after another: an array.
pub trait Places<L: AsSlice<u8> + Drop, C: Context, T: Layout + Drop>: Sized + Drop {
    /// The values in the places.
    ghost shown: { Self → List T };

    /// The number of places.
    ghost count: { ℕ };

    /// The number of places.
    fn count() -> usize
        ensures { result ≡ Self.count };

    /// Places with some values.
    fn begun() -> Self
    where
        T: Default,
        ensures { count_of (shown result) ≡ count };

    /// Reads a value into each place. After an error nothing is said of them.
    fn fill<F: Fills<L, C, T>, R: LendingReader<L, C>>(
        &mut self,
        reader: &mut R,
    ) -> Result<(), C::Error>
        requires { count_of (shown self.old) ≡ count }
        ensures { ReadsValue C.Error.IsEof R.state (λ _. map T.seen (shown self.new))
            (vector_codec count T.layout) result reader.old reader.new };

    /// Takes a value for each place from these bytes.
    fn take<D: Takes<T>>(&mut self, order: Endianness, bytes: &[u8])
        requires { (count_of (shown self.old) ≡ count) × (count_of bytes.now ≡ count * D.size) }
        ensures { encoded_in (λ e. vector count (T.layout.format e)) order (map T.seen (shown self.new)) bytes.now };
}

/// How places are filled with values of a type.
pub trait Fills<L: AsSlice<u8> + Drop, C: Context, T: Layout + Drop> {
    /// Reads a value into each place. After an error nothing is said of them.
    fn fill<R: LendingReader<L, C>>(reader: &mut R, places: &mut [T]) -> Result<(), C::Error>
        ensures { ReadsValue C.Error.IsEof R.state (λ _. map T.seen places.new)
            (vector_codec (count_of places.old) T.layout) result reader.old reader.new };
}

/// How places take values from bytes.
///
/// A trait, since numbers are `Copy`, and a method of a trait, as `take` of [`Places`], may not ask that of `T`.
pub trait Takes<T: Layout> {
    /// How many bytes each value is taken from.
    ghost size: { ℕ };

    /// Takes a value for each place from these bytes, one after another.
    fn take(places: &mut [T], order: Endianness, bytes: &[u8])
        requires { count_of bytes.now ≡ count_of places.old * size }
        ensures { Each (encoded_in T.layout.format order) (map T.seen places.new) bytes.now };
}

/// How several values of a type are read at once. Each type that is read has it.
pub trait ReadMany<L: AsSlice<u8> + Drop, C: Context>: ReadFrom<L, C> {
    /// Whether many values are read in bulk, so that a count of more than there are is refused before any is read. It
    /// is a hint: no value rests on it.
    const IN_BULK: bool;

    /// How many bytes each value has, where all have as many and are read at once.
    fn size_of_each() -> Option<usize>
        ensures { MatchOption result ⊤ (λ size. HaveSize size Self.layout) };

    /// Reads `length` values, one after another, into a vector.
    #[inline]
    final fn read_many<R: LendingReader<L, C>>(
        reader: &mut R,
        length: usize,
    ) -> Result<Vec<Self>, C::Error>
        ensures { ReadsValue C.Error.IsEof R.state (λ v. map Self.seen v.items)
            (vector_codec length Self.layout) result reader.old reader.new }
    {
        Self::read_many_cow::<Vec<Self>, R>(reader, length)
    }

    /// Reads `length` values, one after another, into a cow or what else borrows what is lent.
    fn read_many_cow<W: FromLent<L, Self>, R: LendingReader<L, C>>(
        reader: &mut R,
        length: usize,
    ) -> Result<W, C::Error>
        ensures { ReadsValue C.Error.IsEof R.state (λ w. map Self.seen (W.shown w))
            (vector_codec length Self.layout) result reader.old reader.new };

    /// Reads as many values as there are places, into these, without a vector. `None` where that cannot be: then
    /// nothing is read.
    fn read_places<P: Places<L, C, Self>, R: LendingReader<L, C>>(
        reader: &mut R,
    ) -> Option<Result<P, C::Error>>
        ensures { MatchOption result (R.state reader.new ≡ R.state reader.old) (λ read.
            ReadsValue C.Error.IsEof R.state (λ p. map Self.seen (P.shown p))
            (vector_codec P.count Self.layout) read reader.old reader.new) };

    /// Reads as many values as there are places, `length` times, all at once from bytes that the reader lends. `None`
    /// where that cannot be: then nothing is read.
    fn read_many_places<P: Places<L, C, Self>, R: LendingReader<L, C>>(
        reader: &mut R,
        length: usize,
    ) -> Option<Result<Vec<P>, C::Error>>
        ensures { MatchOption result (R.state reader.new ≡ R.state reader.old) (λ read.
            ReadsValue C.Error.IsEof R.state (λ v. map (λ p. map Self.seen (P.shown p)) v.items)
            (vector_codec length (vector_codec P.count Self.layout)) read reader.old reader.new) };

    /// Reads `length` values, one after another, and gathers them.
    ///
    /// Where only canonical encodings are read, items that no collection is written as are the error `NotWrittenForm`:
    /// a key that was there before, and in ordered ones one that does not come after it.
    final fn collect_many<F: FromItems<Self>, R: LendingReader<L, C>>(
        reader: &mut R,
        length: usize,
    ) -> Result<F, C::Error>
        ensures { let items = gatherer Self.seen F.gathers F.are_written in
            CollectsValues C.Error.IsEof R.state items Self.layout length
            result reader.old reader.new }
    {
        collect_items::<F, Self, L, C, R>(reader, length)
    }
}

impl<L: AsSlice<u8> + Drop, C: Context, T: ReadFrom<L, C>> ReadMany<L, C> for T
where
    T::Strategy: Strategy<L, C, T>,
{
    const IN_BULK: bool = <T::Strategy as Strategy<L, C, T>>::IN_BULK;

    #[inline(always)]
    fn size_of_each() -> Option<usize> {
        <T::Strategy as Strategy<L, C, T>>::size_of_each()
    }

    #[inline]
    fn read_many_cow<W: FromLent<L, T>, R: LendingReader<L, C>>(
        reader: &mut R,
        length: usize,
    ) -> Result<W, C::Error> {
        match <T::Strategy as Strategy<L, C, T>>::read_many_lent::<W, R>(reader, length) {
            Some(Ok(Many::Made(made))) => Ok(made),
            Some(Ok(Many::Owned(values))) => Ok(W::from_values(values)),
            Some(Err(error)) => Err(error),
            None => match read_each::<T, L, C, R>(reader, length) {
                Ok(values) => Ok(W::from_values(values)),
                Err(error) => Err(error),
            },
        }
    }

    #[inline(always)]
    fn read_places<P: Places<L, C, T>, R: LendingReader<L, C>>(
        reader: &mut R,
    ) -> Option<Result<P, C::Error>> {
        <T::Strategy as Strategy<L, C, T>>::read_places::<P, R>(reader)
    }

    #[inline(always)]
    fn read_many_places<P: Places<L, C, T>, R: LendingReader<L, C>>(
        reader: &mut R,
        length: usize,
    ) -> Option<Result<Vec<P>, C::Error>> {
        <T::Strategy as Strategy<L, C, T>>::read_many_places::<P, R>(reader, length)
    }
}

/// How bytes are seen as values.
pub trait BytesAs<T: Drop> {
    /// The values that bytes are.
    ghost values: { List ℕ → List T };

    /// The values that the bytes are, without a copy.
    fn values_of(bytes: &[u8]) -> &[T]
        ensures { result.now ≡ values bytes.now };

    /// A copy of the values that the bytes are; `None` is out of memory.
    fn copy_of(bytes: &[u8], alloc: Global) -> Option<Vec<T>>
        ensures { MatchOption result ⊤ (λ v. v.items ≡ values bytes.now) };
}

/// Bytes as they are.
pub struct AsBytes {}

impl BytesAs<u8> for AsBytes {
    ghost values = { λ bytes. bytes };

    fn values_of(bytes: &[u8]) -> &[u8] {
        bytes
    }

    #[inline]
    fn copy_of(bytes: &[u8], alloc: Global) -> Option<Vec<u8>> {
        // `to_vec` copies by a loop, which takes half as long again.
        let mut copy = Vec::with_capacity(alloc, bytes.len()).ok()?;
        copy.extend_from_slice(bytes).ok()?;
        Some(copy)
    }
}

/// What is made of values that were read, or of bytes that were lent: a vector, or a cow.
pub trait FromLent<L: AsSlice<u8> + Drop, T: Drop>: Sized + Drop {
    /// The values that it shows.
    ghost shown: { Self → List T };

    /// Whether each chunk that is read is shorter than the ring of a buffered reader, so that the ring meets the end of
    /// the input, as when values are read one by one.
    const SHORT_READS: bool;

    /// It owns the values.
    fn from_values(values: Vec<T>) -> Self
        ensures { shown result ≡ values.items };

    /// It borrows what was lent, or copies it; `None` is out of memory.
    fn from_lent<B: BytesAs<T>>(lent: L, alloc: Global) -> Option<Self>
        ensures { MatchOption result ⊤ (λ w. shown w ≡ B.values (L.items lent)) };
}

impl<L: AsSlice<u8> + Drop, T: Drop> FromLent<L, T> for Vec<T> {
    ghost shown = { λ v. v.items };

    const SHORT_READS: bool = false;

    #[inline]
    fn from_values(values: Vec<T>) -> Vec<T>
        ensures { result.items ≡ values.items }
    {
        values
    }

    #[inline]
    fn from_lent<B: BytesAs<T>>(lent: L, alloc: Global) -> Option<Vec<T>>
        ensures { MatchOption result ⊤ (λ v. v.items ≡ B.values (L.items lent)) }
    {
        B::copy_of(lent.as_slice(), alloc)
    }
}

impl<'a, T: Drop> FromLent<&'a [u8], T> for CowSlice<'a, T> {
    ghost shown = { cow_slice_items };

    const SHORT_READS: bool = false;

    #[inline]
    fn from_values(values: Vec<T>) -> CowSlice<'a, T>
        ensures { cow_slice_items result ≡ values.items }
    {
        CowSlice::Owned(values)
    }

    #[inline]
    fn from_lent<B: BytesAs<T>>(lent: &'a [u8], _alloc: Global) -> Option<CowSlice<'a, T>>
        ensures shows { MatchOption result ⊤ (λ cow. cow_slice_items cow ≡ B.values lent.now) }
        ensures made { IsSome result }
    {
        Some(CowSlice::Borrowed(B::values_of(lent)))
    }
}

/// Values that a collection is gathered of. The end of the input is met as when they are read one by one, which is how
/// the Rust crate reads them.
#[derive(Drop)]
pub(crate) struct Items<T> {
    pub(crate) values: Vec<T>,
}

impl<L: AsSlice<u8> + Drop, T: Drop> FromLent<L, T> for Items<T> {
    ghost shown = { λ items. items.values.items };

    const SHORT_READS: bool = true;

    #[inline]
    fn from_values(values: Vec<T>) -> Items<T>
        ensures { result.values.items ≡ values.items }
    {
        Items { values }
    }

    #[inline]
    fn from_lent<B: BytesAs<T>>(lent: L, alloc: Global) -> Option<Items<T>>
        ensures { MatchOption result ⊤ (λ items. items.values.items ≡ B.values (L.items lent)) }
    {
        let values = <Vec<T> as FromLent<L, T>>::from_lent::<B>(lent, alloc)?;
        Some(Items { values })
    }
}

/// Several values: as what was made of lent bytes, or as a vector.
#[derive(Drop)]
pub enum Many<W, T> {
    /// What was made of lent bytes.
    Made(W),
    /// The values.
    Owned(Vec<T>),
}

// Reads `length` values, each by itself. It stands outside the trait, so that it is proved once for all types.
#[inline]
fn read_each<T: ReadFrom<L, C>, L: AsSlice<u8> + Drop, C: Context, R: LendingReader<L, C>>(
    reader: &mut R,
    length: usize,
) -> Result<Vec<T>, C::Error>
    ensures { ReadsValue C.Error.IsEof R.state (λ v. map T.seen v.items)
        (vector_codec length T.layout) result reader.old reader.new }
{
    let mut items = vec_for::<T, L, C, R>(reader, T::minimum_bytes_needed(), length)?;
    let mut left = length;
    // Room is asked for outside the loop over items, so that this has no other call, and keeps all in registers.
    while left > 0 {
        items = match with_a_place(items, left) {
            Ok(roomy) => roomy,
            Err(_) => return Err(error_out_of_memory()),
        };
        let some = left.min(items.capacity() - items.len());
        for _i in 0..some {
            let item = T::read_from(reader)?;
            items.push_reserved(item);
        }
        left -= some;
    }
    Ok(items)
}
