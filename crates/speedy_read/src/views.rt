//! How views are read: over the bytes that a reader lends.
ghost use Rattle.std.specs.Prelude.{◌≡◌, ◌≤◌, ◌*◌, ◌^◌, ℕ, List, false, IsErrAnd, MatchOption};
ghost use Rattle.speedy_base.specs.Mode.{plain_mode};
ghost use Rattle.speedy_base.specs.Error.{error_of};
ghost use Rattle.speedy_base.specs.declared.endianness.Endianness.TheVariants.{LittleEndian as LittleOrder};
ghost use Rattle.speedy_layout.specs.Codecs.{unsigned_codec};
ghost use Rattle.speedy_read.specs.Reading.{RefusesUnsized, ReadsValue};

use crate::lent::read_lent;
use crate::many::ItemByItem;
use crate::readable::ReadFrom;
use crate::reader::LendingReader;
use speedy_base::context::Context;
use speedy_base::error::{ErrorKind, error_end_of_input};
use speedy_layout::layout::Layout;
use speedy_layout::view_items::{ViewItem, ZeroCopyable};
use speedy_layout::views::{ArrayView, SliceView};
use std::convert::AsSlice;

impl<'a, C: Context, T: ZeroCopyable<C>> ReadFrom<&'a [u8], C> for SliceView<'a, T> {
    type Strategy = ItemByItem<C>;

    #[inline]
    fn read_from<R: LendingReader<&'a [u8], C>>(
        reader: &mut R,
    ) -> Result<SliceView<'a, T>, C::Error>
        ensures reads { let view = ⟦<SliceView<'a, T> as Layout>⟧ in
            ReadsValue C.Error.IsEof R.state view.seen view.layout result reader.old reader.new }
        ensures not_lent { RefusesUnsized C.Error.IsEof R.state (unsigned_codec 4)
            result reader.old reader.new }
    {
        encoded_as_little::<T, &'a [u8], C, R>(reader);
        let length = reader.read_u32()?;
        let bytes = read_lent(reader, size_of_items::<T>(length))?;
        Ok(SliceView::over(bytes))
    }

    #[inline]
    fn minimum_bytes_needed() -> usize
        ensures { result ≡ 4 }
    {
        4
    }
}

impl<'a, C: Context, T: ZeroCopyable<C>, const N: usize> ReadFrom<&'a [u8], C>
    for ArrayView<'a, T, N> {
    type Strategy = ItemByItem<C>;

    #[inline]
    fn read_from<R: LendingReader<&'a [u8], C>>(
        reader: &mut R,
    ) -> Result<ArrayView<'a, T, N>, C::Error>
        ensures reads { let view = ⟦<ArrayView<'a, T, N> as Layout>⟧ in
            ReadsValue C.Error.IsEof R.state view.seen view.layout result reader.old reader.new }
        ensures not_lent { (R.state reader.old).fixed.lends ≡ false
            → IsErrAnd result (λ e. C.Error.from_gives (error_of ErrorKind.Unsized) e)
            × (R.state reader.new ≡ R.state reader.old) }
    {
        encoded_as_little::<T, &'a [u8], C, R>(reader);
        let Some(size) = size_of_array::<T, N>() else {
            // No input is that long.
            read_lent(reader, usize::MAX)?;
            return Err(error_end_of_input());
        };
        let bytes = read_lent(reader, size)?;
        Ok(ArrayView::over(bytes))
    }

    #[inline]
    fn minimum_bytes_needed() -> usize
        ensures { result ≡ ⟦<ArrayView<'a, T, N> as Layout>⟧.layout.least }
    {
        N.saturating_mul(T::SIZE)
    }
}

// What a proof knows of a context without a lifetime, it is told here for readers that lend for one.
#[inline]
fn encoded_as_little<T: ZeroCopyable<C>, L: AsSlice<u8> + Drop, C: Context, R: LendingReader<L, C>>(
    _reader: &R,
)
    ensures { (v : T.Seen) (bytes : List ℕ) → (T.layout.format (plain_mode LittleOrder)).encodes v bytes
        → (T.layout.format (R.state _reader.now).mode).encodes v bytes }
{}

// How many bytes `length` items have.
#[inline]
fn size_of_items<T: ViewItem>(length: u32) -> usize
    ensures { result ≡ length * T.SIZE }
{
    length as usize * T::SIZE
}

// How many bytes an array of items has, if they can be counted.
#[inline]
fn size_of_array<T: ViewItem, const N: usize>() -> Option<usize>
    ensures { MatchOption result (2 ^ 64 ≤ N * T.SIZE) (λ size. size ≡ N * T.SIZE) }
{
    N.checked_mul(T::SIZE)
}
