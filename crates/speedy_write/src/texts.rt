//! How texts are written.
ghost use Rattle.std.specs.Prelude.{◌≡◌, ◌<◌, ◌+◌, ◌^◌, ℕ, List, map, IfSome, IfNone, IsTrue};
ghost use Rattle.speedy_base.specs.Mode.{Mode};
ghost use Rattle.speedy_layout.specs.Codecs.{text_codec};
ghost use Rattle.speedy_layout.specs.Prefixed.{prefixed_codec, text_behind};
ghost use Rattle.speedy_write.specs.Counting.{AreTooLong, CountsEach, HasSize};
ghost use Rattle.speedy_write.specs.Writing.{WritesIfSome, WritesValue, WritesValues};

use crate::each::MOST_ITEMS;
use crate::lengths::write_text_alone;
use crate::prefixed::{WritePrefix, WriteTold};
use crate::writable::Writable;
use crate::writer::Writer;
use speedy_base::context::Context;
use speedy_layout::Layout;
use std::boxed::BoxedStr;

impl<C: Context> Writable<C> for String {
    #[inline]
    fn write_to<W: Writer<C>>(&self, writer: &mut W) -> Result<(), C::Error> {
        let text = self.as_str();
        write_text(text, writer)
    }

    /// Counts the texts together, by their lengths. It writes none.
    #[inline(always)]
    fn write_in_bulk<W: Writer<C>>(items: &[String], writer: &mut W) -> Option<Result<(), C::Error>>
        ensures counts { let layout = ⟦<String as Layout>⟧ in
            WritesIfSome C.Error.from_gives W.state W.appends layout.seen layout.layout items.now
            result writer.old writer.new }
        ensures answers { let layout = ⟦<String as Layout>⟧ in IsTrue W.is_counter →
            IfNone result (AreTooLong layout.layout.format (map layout.seen items.now)) }
    {
        count_texts(items, writer)
    }
}

impl<'a, C: Context> Writable<C> for &'a str {
    #[inline]
    fn write_to<W: Writer<C>>(&self, writer: &mut W) -> Result<(), C::Error> {
        write_text(*self, writer)
    }

    /// Counts the texts together, by their lengths. It writes none.
    #[inline(always)]
    fn write_in_bulk<W: Writer<C>>(
        items: &[&'a str],
        writer: &mut W,
    ) -> Option<Result<(), C::Error>>
        ensures counts { let layout = ⟦<&'a str as Layout>⟧ in
            WritesIfSome C.Error.from_gives W.state W.appends layout.seen layout.layout items.now
            result writer.old writer.new }
        ensures answers { let layout = ⟦<&'a str as Layout>⟧ in IsTrue W.is_counter →
            IfNone result (AreTooLong layout.layout.format (map layout.seen items.now)) }
    {
        count_texts(items, writer)
    }
}

impl<C: Context> Writable<C> for BoxedStr {
    #[inline]
    fn write_to<W: Writer<C>>(&self, writer: &mut W) -> Result<(), C::Error> {
        write_text(self.as_str(), writer)
    }

    /// Counts the texts together, by their lengths. It writes none.
    #[inline(always)]
    fn write_in_bulk<W: Writer<C>>(
        items: &[BoxedStr],
        writer: &mut W,
    ) -> Option<Result<(), C::Error>>
        ensures counts { let layout = ⟦<BoxedStr as Layout>⟧ in
            WritesIfSome C.Error.from_gives W.state W.appends layout.seen layout.layout items.now
            result writer.old writer.new }
        ensures answers { let layout = ⟦<BoxedStr as Layout>⟧ in IsTrue W.is_counter →
            IfNone result (AreTooLong layout.layout.format (map layout.seen items.now)) }
    {
        count_texts(items, writer)
    }
}

impl<C: Context> WriteTold<C> for String {
    #[inline]
    fn write_behind<N: WritePrefix, W: Writer<C>>(&self, writer: &mut W) -> Result<(), C::Error> {
        let text = self.as_str();
        write_text_behind::<N, C, W>(text, writer)
    }
}

impl<'a, C: Context> WriteTold<C> for &'a str {
    #[inline]
    fn write_behind<N: WritePrefix, W: Writer<C>>(&self, writer: &mut W) -> Result<(), C::Error> {
        write_text_behind::<N, C, W>(*self, writer)
    }
}

impl<C: Context> WriteTold<C> for BoxedStr {
    #[inline]
    fn write_behind<N: WritePrefix, W: Writer<C>>(&self, writer: &mut W) -> Result<(), C::Error> {
        write_text_behind::<N, C, W>(self.as_str(), writer)
    }
}

// The number of bytes in four bytes, and then the bytes. It says once for all texts that `text_codec` is this.
#[inline]
pub(crate) fn write_text<C: Context, W: Writer<C>>(
    text: &str,
    writer: &mut W,
) -> Result<(), C::Error>
    ensures { WritesValue C.Error.from_gives W.state W.appends (λ v. v) text_codec text.now
        result writer.old writer.new }
{
    write_text_behind::<u32, C, W>(text, writer)
}

// The number of bytes as a number of the type `N`, and then the bytes.
#[inline]
pub(crate) fn write_text_behind<N: WritePrefix, C: Context, W: Writer<C>>(
    text: &str,
    writer: &mut W,
) -> Result<(), C::Error>
    ensures { WritesValue C.Error.from_gives W.state W.appends (λ v. v)
        (prefixed_codec (text_behind N.numbers)) text.now result writer.old writer.new }
{
    N::write_number(text.len(), writer)?;
    write_text_alone(text, writer)
}

// Texts, whose length alone says how many bytes they take.
pub(crate) trait Text: Layout {
    // How many bytes the text has. So many and four more are written, where that number is below 2^32.
    fn length(&self) -> usize
        ensures takes { (mode : Mode) → result < 2 ^ 32 →
            HasSize (Self.layout.format mode).writes (Self.seen self.now) (result + 4) }
        ensures few { (mode : Mode) (bytes : List ℕ) →
            (Self.layout.format mode).writes (Self.seen self.now) bytes → result < 2 ^ 32 };
}

impl Text for String {
    #[inline(always)]
    fn length(&self) -> usize {
        let text = self.as_str();
        length_of(text)
    }
}

impl<'a> Text for &'a str {
    #[inline(always)]
    fn length(&self) -> usize {
        length_of(*self)
    }
}

impl Text for BoxedStr {
    #[inline(always)]
    fn length(&self) -> usize {
        length_of(self.as_str())
    }
}

// How many bytes a text has.
#[inline(always)]
fn length_of(text: &str) -> usize
    ensures takes { (mode : Mode) → result < 2 ^ 32 →
        HasSize (text_codec.format mode).writes text.now (result + 4) }
    ensures few { (mode : Mode) (bytes : List ℕ) →
        (text_codec.format mode).writes text.now bytes → result < 2 ^ 32 }
{
    text.len()
}

// Tells a writer that counts how many bytes the texts take together, unless they are too many or too long. On another
// writer it does nothing.
#[inline]
fn count_texts<C: Context, T: Text, W: Writer<C>>(
    texts: &[T],
    writer: &mut W,
) -> Option<Result<(), C::Error>>
    ensures counts { WritesIfSome C.Error.from_gives W.state W.appends T.seen T.layout texts.now
        result writer.old writer.new }
    ensures answers { IsTrue W.is_counter →
        IfNone result (AreTooLong T.layout.format (map T.seen texts.now)) }
{
    if !W::counts() {
        return None;
    }
    writer.count_bytes(size_of_texts(texts)?)
}

// How many bytes the texts take, unless they are too many or too long.
//
// Their lengths are joined by `|`, and compared together: so a compiler adds several at a time.
#[inline]
fn size_of_texts<T: Text>(texts: &[T]) -> Option<usize>
    ensures counts { (mode : Mode) → let format = T.layout.format mode in
        IfSome result (λ size. CountsEach format.writes (map T.seen texts.now) size) }
    ensures answers { IfNone result (AreTooLong T.layout.format (map T.seen texts.now)) }
{
    if texts.len() > MOST_ITEMS {
        return None;
    }
    let mut sum = 0usize;
    let mut joined = 0;
    for text in texts {
        let length = text.length();
        joined |= length;
        sum = sum.wrapping_add(length);
    }
    if joined > LONGEST {
        return None;
    }
    let Some(size) = sum.checked_add(4 * texts.len()) else {
        return None;
    };
    Some(size)
}

// The length of the longest text that can be written.
const LONGEST: usize = 4_294_967_295;
