//! How parts are written, and behind them a text, a list, a map or a set of the length that they tell.
ghost use Rattle.std.specs.Prelude.{◌≡◌, length, map};
ghost use Rattle.speedy_layout.specs.Codecs.{vector_codec};
ghost use Rattle.speedy_layout.specs.Texts.{text_of_length};
ghost use Rattle.speedy_write.specs.Writing.{WritesAs, WritesValue};

use crate::writable::Writable;
use crate::writer::Writer;
use speedy_base::context::Context;
use speedy_base::error::{
    error_length_is_not_the_same_as_length_attribute, error_out_of_range_length,
};
use speedy_layout::lengths::{Holds, Length, OfLength, Other, WithLength};
use std::borrow::{CowSlice, CowStr};
use std::boxed::{BoxedSlice, BoxedStr};

/// How texts, lists, maps and sets are written without their length.
pub trait WriteOfLength<C: Context>: OfLength {
    /// The length: of a text in bytes, of a list or a set in items, of a map in pairs.
    fn length(&self) -> usize
        ensures { result ≡ Self.counting.count (Self.seen self.now) };

    /// Writes the bytes of the text, the items or the pairs, and no length.
    fn write_of_length<W: Writer<C>>(&self, writer: &mut W) -> Result<(), C::Error>
        ensures { let value = Self.seen self.now in
            WritesValue C.Error.from_gives W.state W.appends Self.seen
            (Self.counting.of_length (Self.counting.count value)) self.now result writer.old writer.new };
}

impl<C: Context> WriteOfLength<C> for String {
    #[inline]
    fn length(&self) -> usize {
        self.len()
    }

    #[inline]
    fn write_of_length<W: Writer<C>>(&self, writer: &mut W) -> Result<(), C::Error> {
        let text = self.as_str();
        write_text_alone(text, writer)
    }
}

impl<'a, C: Context> WriteOfLength<C> for &'a str {
    #[inline]
    fn length(&self) -> usize {
        self.len()
    }

    #[inline]
    fn write_of_length<W: Writer<C>>(&self, writer: &mut W) -> Result<(), C::Error> {
        write_text_alone(*self, writer)
    }
}

impl<C: Context> WriteOfLength<C> for BoxedStr {
    #[inline]
    fn length(&self) -> usize {
        self.as_str().len()
    }

    #[inline]
    fn write_of_length<W: Writer<C>>(&self, writer: &mut W) -> Result<(), C::Error> {
        write_text_alone(self.as_str(), writer)
    }
}

impl<'a, C: Context> WriteOfLength<C> for CowStr<'a> {
    #[inline]
    fn length(&self) -> usize {
        self.as_ref().len()
    }

    #[inline]
    fn write_of_length<W: Writer<C>>(&self, writer: &mut W) -> Result<(), C::Error> {
        write_text_alone(self.as_ref(), writer)
    }
}

impl<C: Context, T: Writable<C>> WriteOfLength<C> for Vec<T> {
    #[inline]
    fn length(&self) -> usize {
        self.len()
    }

    #[inline]
    fn write_of_length<W: Writer<C>>(&self, writer: &mut W) -> Result<(), C::Error> {
        let items = self.as_slice();
        write_items_alone(items, writer)
    }
}

impl<'a, C: Context, T: Writable<C>> WriteOfLength<C> for &'a [T] {
    #[inline]
    fn length(&self) -> usize {
        self.len()
    }

    #[inline]
    fn write_of_length<W: Writer<C>>(&self, writer: &mut W) -> Result<(), C::Error> {
        write_items_alone(*self, writer)
    }
}

impl<C: Context, T: Writable<C>> WriteOfLength<C> for BoxedSlice<T> {
    #[inline]
    fn length(&self) -> usize {
        self.as_slice().len()
    }

    #[inline]
    fn write_of_length<W: Writer<C>>(&self, writer: &mut W) -> Result<(), C::Error> {
        write_items_alone(self.as_slice(), writer)
    }
}

impl<'a, C: Context, T: Writable<C>> WriteOfLength<C> for CowSlice<'a, T> {
    #[inline]
    fn length(&self) -> usize {
        self.as_ref().len()
    }

    #[inline]
    fn write_of_length<W: Writer<C>>(&self, writer: &mut W) -> Result<(), C::Error> {
        write_items_alone(self.as_ref(), writer)
    }
}

// The bytes of the text, and no length.
#[inline]
pub(crate) fn write_text_alone<C: Context, W: Writer<C>>(
    text: &str,
    writer: &mut W,
) -> Result<(), C::Error>
    ensures { WritesAs C.Error.from_gives W.state W.appends (λ v. v)
        (λ f. text_of_length f (length text.now)) text.now result writer.old writer.new }
{
    let bytes = text.as_bytes();
    writer.write_bytes(bytes)
}

// The items, and no length. It says once for all lists that these are a vector of their number.
#[inline]
fn write_items_alone<C: Context, T: Writable<C>, W: Writer<C>>(
    items: &[T],
    writer: &mut W,
) -> Result<(), C::Error>
    ensures { let codec = vector_codec (length (map T.seen items.now)) T.layout in
        WritesValue C.Error.from_gives W.state W.appends (map T.seen) codec items.now
        result writer.old writer.new }
{
    T::write_many(items, writer)
}

/// How parts are written that hold numbers.
pub trait WriteHolds<C: Context>: Holds {
    /// Writes the parts.
    fn write_parts<W: Writer<C>>(&self, writer: &mut W) -> Result<(), C::Error>
        ensures { WritesValue C.Error.from_gives W.state W.appends Self.seen Self.layout
            self.now result writer.old writer.new };
}

impl<C: Context> WriteHolds<C> for u8 {
    #[inline]
    fn write_parts<W: Writer<C>>(&self, writer: &mut W) -> Result<(), C::Error> {
        writer.write_value(self)
    }
}

impl<C: Context> WriteHolds<C> for u16 {
    #[inline]
    fn write_parts<W: Writer<C>>(&self, writer: &mut W) -> Result<(), C::Error> {
        writer.write_value(self)
    }
}

impl<C: Context> WriteHolds<C> for u32 {
    #[inline]
    fn write_parts<W: Writer<C>>(&self, writer: &mut W) -> Result<(), C::Error> {
        writer.write_value(self)
    }
}

impl<C: Context> WriteHolds<C> for u64 {
    #[inline]
    fn write_parts<W: Writer<C>>(&self, writer: &mut W) -> Result<(), C::Error> {
        writer.write_value(self)
    }
}

impl<C: Context> WriteHolds<C> for usize {
    #[inline]
    fn write_parts<W: Writer<C>>(&self, writer: &mut W) -> Result<(), C::Error> {
        writer.write_value(self)
    }
}

impl<C: Context> WriteHolds<C> for i8 {
    #[inline]
    fn write_parts<W: Writer<C>>(&self, writer: &mut W) -> Result<(), C::Error> {
        writer.write_value(self)
    }
}

impl<C: Context> WriteHolds<C> for i16 {
    #[inline]
    fn write_parts<W: Writer<C>>(&self, writer: &mut W) -> Result<(), C::Error> {
        writer.write_value(self)
    }
}

impl<C: Context> WriteHolds<C> for i32 {
    #[inline]
    fn write_parts<W: Writer<C>>(&self, writer: &mut W) -> Result<(), C::Error> {
        writer.write_value(self)
    }
}

impl<C: Context> WriteHolds<C> for i64 {
    #[inline]
    fn write_parts<W: Writer<C>>(&self, writer: &mut W) -> Result<(), C::Error> {
        writer.write_value(self)
    }
}

impl<C: Context, T: Writable<C>> WriteHolds<C> for Other<T> {
    #[inline]
    fn write_parts<W: Writer<C>>(&self, writer: &mut W) -> Result<(), C::Error> {
        writer.write_value(&self.0)
    }
}

impl<C: Context, A: WriteHolds<C>, B: WriteHolds<C>> WriteHolds<C> for (A, B) {
    #[inline]
    fn write_parts<W: Writer<C>>(&self, writer: &mut W) -> Result<(), C::Error> {
        self.0.write_parts(writer)?;
        self.1.write_parts(writer)
    }
}

impl<C: Context, B: WriteHolds<C>, K: Length<B::Numbers>, T: WriteOfLength<C>> WriteHolds<C>
    for WithLength<K, B, T> {
    #[inline]
    fn write_parts<W: Writer<C>>(&self, writer: &mut W) -> Result<(), C::Error> {
        writer.write_value(self)
    }
}

impl<C: Context, B: WriteHolds<C>, K: Length<B::Numbers>, T: WriteOfLength<C>> Writable<C>
    for WithLength<K, B, T> {
    /// A value of another length than the parts tell is `LengthIsNotTheSameAsLengthAttribute`.
    #[inline]
    fn write_to<W: Writer<C>>(&self, writer: &mut W) -> Result<(), C::Error> {
        let Some(told) = K::length(self.before.numbers()) else {
            return Err(error_out_of_range_length());
        };
        if self.value.length() != told {
            return Err(error_length_is_not_the_same_as_length_attribute(K::field()));
        }
        self.before.write_parts(writer)?;
        self.value.write_of_length(writer)
    }
}
