//! Arrays of numbers in bulk: all at once from bytes that the reader lends.
ghost use Rattle.std.specs.Prelude.{◌≡◌, ◌*◌, length as count_of, map, IfOk, MatchOption};
ghost use Rattle.speedy_layout.specs.Codecs.{vector_codec};
ghost use Rattle.speedy_layout.specs.FixedNumbers.{encoded_in};
ghost use Rattle.speedy_layout.specs.Format.{Each};
ghost use Rattle.speedy_layout.specs.Lists.{vector};
ghost use Rattle.speedy_read.specs.Reading.{ReadsValue};

use crate::bulk::Numbers;
use crate::many::{FromLent, Many, Places, Strategy, Takes};
use crate::readable::ReadMany;
use crate::reader::{EndOfInput, LendingReader};
use speedy_base::context::Context;
use speedy_base::endianness::Endianness;
use speedy_base::error::{ErrorKind, error_end_of_input, error_out_of_memory};
use speedy_layout::fixed_numbers::{FixedNumber, take_each};
use speedy_layout::layout::Layout;
use speedy_layout::view_items::FixedSize;
use std::alloc::{AllocError, Global};
use std::convert::AsSlice;
use std::marker::PhantomData;

/// Reads arrays all at once, where their items can be, or else each by itself.
///
/// It names the context as [`ItemByItem`](crate::many::ItemByItem) does.
pub struct Arrays<C> {
    _context: PhantomData<C>,
}

/// Arrays, of which several are read at once. An impl of [`Strategy`] that names the type of their items gets no proof.
pub trait ReadArrays<L: AsSlice<u8> + Drop, C: Context>: Layout + Sized + Drop {
    /// Reads `length` arrays, all at once from bytes that the reader lends. `None` where that cannot be: then nothing
    /// is read.
    fn read_arrays<R: LendingReader<L, C>>(
        reader: &mut R,
        length: usize,
    ) -> Option<Result<Vec<Self>, C::Error>>
        ensures { MatchOption result (R.state reader.new ≡ R.state reader.old) (λ read.
            ReadsValue C.Error.IsEof R.state (λ v. map Self.seen v.items)
            (vector_codec length Self.layout) read reader.old reader.new) };
}

impl<L: AsSlice<u8> + Drop, C: Context, T: ReadMany<L, C>, const N: usize> ReadArrays<L, C>
    for [T; N] {
    fn read_arrays<R: LendingReader<L, C>>(
        reader: &mut R,
        length: usize,
    ) -> Option<Result<Vec<[T; N]>, C::Error>> {
        T::read_many_places::<[T; N], R>(reader, length)
    }
}

impl<L: AsSlice<u8> + Drop, C: Context, A: ReadArrays<L, C>> Strategy<L, C, A> for Arrays<C> {
    #[inline]
    fn read_many_lent<W: FromLent<L, A>, R: LendingReader<L, C>>(
        reader: &mut R,
        length: usize,
    ) -> Option<Result<Many<W, A>, C::Error>> {
        match A::read_arrays::<R>(reader, length)? {
            Ok(arrays) => Some(Ok(Many::Owned(arrays))),
            Err(error) => Some(Err(error)),
        }
    }
}

impl<T: FixedNumber> Takes<T> for Numbers {
    ghost size = { T.Digits.LENGTH };

    #[inline(always)]
    fn take(places: &mut [T], order: Endianness, bytes: &[u8]) {
        take_each(places, order, bytes);
    }
}

// Reads as many numbers as there are places, `length` times. `None` where the reader does not lend their bytes until it
// is used again, or they are more than a `usize` counts: then nothing is read.
pub(crate) fn read_number_places<
    P: Places<L, C, T>,
    T: FixedNumber,
    L: AsSlice<u8> + Drop,
    C: Context,
    R: LendingReader<L, C>,
>(reader: &mut R, length: usize) -> Option<Result<Vec<P>, C::Error>>
    ensures { MatchOption result (R.state reader.new ≡ R.state reader.old) (λ read.
        ReadsValue C.Error.IsEof R.state (λ v. map (λ p. map T.seen (P.shown p)) v.items)
        (vector_codec length (vector_codec P.count T.layout)) read reader.old reader.new) }
{
    let width = P::count().checked_mul(T::SIZE)?;
    let size = length.checked_mul(width)?;
    let order = reader.endianness();
    let alloc = reader.alloc();
    match reader.read_bytes_borrowed_from_reader(size) {
        Some(Ok(digits)) => match places_of::<P, T, L, C>(alloc, order, digits, length, width) {
            Ok(places) => Some(Ok(places)),
            Err(_) => Some(Err(error_out_of_memory())),
        },
        Some(Err(EndOfInput {})) => Some(Err(error_end_of_input())),
        None => None,
    }
}

// The numbers that these bytes encode, `length` times as many as there are places, which take `width` bytes.
fn places_of<P: Places<L, C, T>, T: FixedNumber, L: AsSlice<u8> + Drop, C: Context>(
    alloc: Global,
    order: Endianness,
    digits: &[u8],
    count: usize,
    width: usize,
) -> Result<Vec<P>, AllocError>
    requires { (width ≡ P.count * T.Digits.LENGTH) × (count_of digits.now ≡ count * width) }
    ensures whole { IfOk result (λ v. count_of v.items ≡ count) }
    ensures taken { IfOk result (λ v. Each (encoded_in (λ e. vector P.count (T.layout.format e)) order)
        (map (λ p. map T.seen (P.shown p)) v.items) digits.now) }
{
    let mut all = Vec::with_capacity(alloc, count)?;
    let mut rest = digits;
    for _i in 0..count {
        let (some, more) = rest.split_at(width);
        let mut places = P::begun();
        places.take::<Numbers>(order, some);
        all.push_reserved(places);
        rest = more;
    }
    Ok(all)
}
