//! Values in frames whose length the parts before them tell.
ghost use Rattle.std.specs.Prelude.{◌≡◌};
ghost use Rattle.speedy_read.specs.Reading.{ReadsAs};
ghost use Rattle.speedy.specs.ToldFrames.{told_frame, with_frame_codec};

use crate::context::Context;
use crate::layout::Layout;
use crate::lengths::{Holds, Length, ReadHolds, WriteHolds};
use crate::many::ItemByItem;
use crate::readable::ReadFrom;
use crate::reader::LendingReader;
use crate::whole::{Whole, WriteWhole};
use crate::writable::Writable;
use crate::writer::Writer;
use speedy_base::error::{
    error_length_is_not_the_same_as_length_attribute, error_out_of_range_length,
};
use speedy_read::frames::ReadFramed;
use speedy_read::lengths::read_told;
use speedy_write::frames::write_counted_value;
use std::convert::AsSlice;
use std::marker::PhantomData;

/// Parts that hold numbers, and behind them a value that fills as many bytes as the numbers tell, as `K` says.
///
/// A value that is written in another number of bytes has no encoding: that is `LengthIsNotTheSameAsLengthAttribute`.
/// In reading, bytes that the value does not fill, or that are too few for it, are `OutOfRangeLength`, and so are those
/// of a value that is written in fewer, as a map in which a key came twice, and numbers that tell no length.
#[derive(Debug, PartialEq, Drop)]
pub struct WithFrame<K, B, T> {
    /// The parts that hold the numbers.
    pub before: B,
    /// The value.
    pub value: T,
    /// Names how the numbers tell the length, and holds nothing.
    pub length: PhantomData<K>,
}

impl<B: Holds, K: Length<B::Numbers>, T: Whole> Layout for WithFrame<K, B, T> {
    ghost Seen = { B.Seen × T.Seen };

    ghost seen = { λ it. (B.seen it.before, T.seen it.value) };

    ghost layout = { with_frame_codec K.is_told K.told B.numbers K.field B.layout T.whole };
}

// What stands behind these parts may have a length too that their numbers tell.
impl<B: Holds, K: Length<B::Numbers>, T: Whole> Holds for WithFrame<K, B, T> {
    type Numbers = B::Numbers;

    ghost Seen = { ⟦<WithFrame<K, B, T> as Layout>⟧.Seen };

    ghost seen = { ⟦<WithFrame<K, B, T> as Layout>⟧.seen };

    ghost layout = { ⟦<WithFrame<K, B, T> as Layout>⟧.layout };

    ghost numbers = { λ it. B.numbers it.0 };

    #[inline]
    fn numbers(&self) -> B::Numbers {
        self.before.numbers()
    }
}

impl<
    L: AsSlice<u8> + Drop,
    C: Context,
    B: ReadHolds<L, C>,
    K: Length<B::Numbers>,
    T: ReadFramed<L, C> + WriteWhole<C>,
> ReadFrom<L, C> for WithFrame<K, B, T> {
    type Strategy = ItemByItem<C>;

    #[inline]
    fn read_from<R: LendingReader<L, C>>(reader: &mut R) -> Result<WithFrame<K, B, T>, C::Error> {
        let (before, length) = read_told::<K, B, L, C, R>(reader)?;
        let value = read_told_frame(reader, length)?;
        Ok(WithFrame {
            before,
            value,
            length: PhantomData,
        })
    }

    #[inline]
    fn minimum_bytes_needed() -> usize {
        B::least_size()
    }
}

impl<
    L: AsSlice<u8> + Drop,
    C: Context,
    B: ReadHolds<L, C>,
    K: Length<B::Numbers>,
    T: ReadFramed<L, C> + WriteWhole<C>,
> ReadHolds<L, C> for WithFrame<K, B, T> {
    #[inline]
    fn read_parts<R: LendingReader<L, C>>(reader: &mut R) -> Result<WithFrame<K, B, T>, C::Error> {
        reader.read_value()
    }

    #[inline]
    fn least_size() -> usize {
        B::least_size()
    }
}

// The value that fills the next `length` bytes. One that is written in fewer is refused, since behind these parts it
// could not be written again.
fn read_told_frame<
    T: ReadFramed<L, C> + WriteWhole<C>,
    L: AsSlice<u8> + Drop,
    C: Context,
    R: LendingReader<L, C>,
>(reader: &mut R, length: usize) -> Result<T, C::Error>
    ensures { ReadsAs C.Error.IsEof R.state T.seen
        (λ f. told_frame f (T.whole.format f) (T.whole.misfits f) length) result reader.old reader.new }
{
    let value = T::read_framed(reader, length)?;
    let written = value.whole_bytes_needed(reader.context_mut())?;
    if written != length {
        return Err(error_out_of_range_length());
    }
    Ok(value)
}

impl<C: Context, B: WriteHolds<C>, K: Length<B::Numbers>, T: WriteWhole<C>> Writable<C>
    for WithFrame<K, B, T> {
    /// A value that is written in another number of bytes than the parts tell is `LengthIsNotTheSameAsLengthAttribute`.
    #[inline]
    fn write_to<W: Writer<C>>(&self, writer: &mut W) -> Result<(), C::Error> {
        let Some(told) = K::length(self.before.numbers()) else {
            return Err(error_out_of_range_length());
        };
        let length = self.value.whole_bytes_needed(writer.context_mut())?;
        if length != told {
            return Err(error_length_is_not_the_same_as_length_attribute(K::field()));
        }
        self.before.write_parts(writer)?;
        write_counted_value(&self.value, length, writer)
    }
}

impl<C: Context, B: WriteHolds<C>, K: Length<B::Numbers>, T: WriteWhole<C>> WriteHolds<C>
    for WithFrame<K, B, T> {
    #[inline]
    fn write_parts<W: Writer<C>>(&self, writer: &mut W) -> Result<(), C::Error> {
        writer.write_value(self)
    }
}
