//! How `Cow`, `CowStr` and `CowSlice` are written: as their content.
use crate::lists::{write_counted, write_items_behind};
use crate::prefixed::{WritePrefix, WriteTold};
use crate::texts::{write_text, write_text_behind};
use crate::writable::Writable;
use crate::writer::Writer;
use speedy_base::context::Context;
use std::borrow::{Cow, CowSlice, CowStr};

impl<'a, C: Context, T: Writable<C>> Writable<C> for Cow<'a, T> {
    #[inline]
    fn write_to<W: Writer<C>>(&self, writer: &mut W) -> Result<(), C::Error> {
        let content = self.as_ref();
        T::write_to(content, writer)
    }
}

impl<'a, C: Context, T: Writable<C>> Writable<C> for CowSlice<'a, T> {
    #[inline]
    fn write_to<W: Writer<C>>(&self, writer: &mut W) -> Result<(), C::Error> {
        write_counted(self.as_ref(), writer)
    }
}

impl<'a, C: Context> Writable<C> for CowStr<'a> {
    #[inline]
    fn write_to<W: Writer<C>>(&self, writer: &mut W) -> Result<(), C::Error> {
        write_text(self.as_ref(), writer)
    }
}

impl<'a, C: Context, T: WriteTold<C>> WriteTold<C> for Cow<'a, T> {
    #[inline]
    fn write_behind<N: WritePrefix, W: Writer<C>>(&self, writer: &mut W) -> Result<(), C::Error> {
        let content = self.as_ref();
        content.write_behind::<N, W>(writer)
    }
}

impl<'a, C: Context, T: Writable<C>> WriteTold<C> for CowSlice<'a, T> {
    #[inline]
    fn write_behind<N: WritePrefix, W: Writer<C>>(&self, writer: &mut W) -> Result<(), C::Error> {
        write_items_behind::<N, C, T, W>(self.as_ref(), writer)
    }
}

impl<'a, C: Context> WriteTold<C> for CowStr<'a> {
    #[inline]
    fn write_behind<N: WritePrefix, W: Writer<C>>(&self, writer: &mut W) -> Result<(), C::Error> {
        write_text_behind::<N, C, W>(self.as_ref(), writer)
    }
}
