//! Numbers, flags, characters, texts, bytes and lists as items of lists that lie where they were read.
ghost use Rattle.speedy.specs.EncodedLists.{Measures, WritesFirst};

use crate::encoded::{EncodedList, ListItem, WriteListItem, measure_items, write_first_item};
use crate::in_place::InPlace;
use speedy_base::context::Context;
use speedy_base::endianness::Endianness;
use speedy_layout::floats::{F32, F64};
use speedy_write::Writer;
use std::alloc::Global;

impl ListItem for u8 {
    fn measure<C: Context>(
        alloc: Global,
        context: C,
        count: usize,
        bytes: &[u8],
    ) -> Result<usize, C::Error> {
        measure_items::<u8, C>(alloc, context, count, bytes)
    }
}

impl<C: Context> WriteListItem<C> for u8 {
    fn write_first<W: Writer<C>>(
        alloc: Global,
        order: Endianness,
        bytes: &[u8],
        writer: &mut W,
    ) -> Option<(usize, Result<(), C::Error>)> {
        write_first_item::<u8, C, W>(alloc, order, bytes, writer)
    }
}

impl ListItem for u16 {
    fn measure<C: Context>(
        alloc: Global,
        context: C,
        count: usize,
        bytes: &[u8],
    ) -> Result<usize, C::Error> {
        measure_items::<u16, C>(alloc, context, count, bytes)
    }
}

impl<C: Context> WriteListItem<C> for u16 {
    fn write_first<W: Writer<C>>(
        alloc: Global,
        order: Endianness,
        bytes: &[u8],
        writer: &mut W,
    ) -> Option<(usize, Result<(), C::Error>)> {
        write_first_item::<u16, C, W>(alloc, order, bytes, writer)
    }
}

impl ListItem for u32 {
    fn measure<C: Context>(
        alloc: Global,
        context: C,
        count: usize,
        bytes: &[u8],
    ) -> Result<usize, C::Error> {
        measure_items::<u32, C>(alloc, context, count, bytes)
    }
}

impl<C: Context> WriteListItem<C> for u32 {
    fn write_first<W: Writer<C>>(
        alloc: Global,
        order: Endianness,
        bytes: &[u8],
        writer: &mut W,
    ) -> Option<(usize, Result<(), C::Error>)> {
        write_first_item::<u32, C, W>(alloc, order, bytes, writer)
    }
}

impl ListItem for u64 {
    fn measure<C: Context>(
        alloc: Global,
        context: C,
        count: usize,
        bytes: &[u8],
    ) -> Result<usize, C::Error> {
        measure_items::<u64, C>(alloc, context, count, bytes)
    }
}

impl<C: Context> WriteListItem<C> for u64 {
    fn write_first<W: Writer<C>>(
        alloc: Global,
        order: Endianness,
        bytes: &[u8],
        writer: &mut W,
    ) -> Option<(usize, Result<(), C::Error>)> {
        write_first_item::<u64, C, W>(alloc, order, bytes, writer)
    }
}

impl ListItem for i8 {
    fn measure<C: Context>(
        alloc: Global,
        context: C,
        count: usize,
        bytes: &[u8],
    ) -> Result<usize, C::Error> {
        measure_items::<i8, C>(alloc, context, count, bytes)
    }
}

impl<C: Context> WriteListItem<C> for i8 {
    fn write_first<W: Writer<C>>(
        alloc: Global,
        order: Endianness,
        bytes: &[u8],
        writer: &mut W,
    ) -> Option<(usize, Result<(), C::Error>)> {
        write_first_item::<i8, C, W>(alloc, order, bytes, writer)
    }
}

impl ListItem for i16 {
    fn measure<C: Context>(
        alloc: Global,
        context: C,
        count: usize,
        bytes: &[u8],
    ) -> Result<usize, C::Error> {
        measure_items::<i16, C>(alloc, context, count, bytes)
    }
}

impl<C: Context> WriteListItem<C> for i16 {
    fn write_first<W: Writer<C>>(
        alloc: Global,
        order: Endianness,
        bytes: &[u8],
        writer: &mut W,
    ) -> Option<(usize, Result<(), C::Error>)> {
        write_first_item::<i16, C, W>(alloc, order, bytes, writer)
    }
}

impl ListItem for i32 {
    fn measure<C: Context>(
        alloc: Global,
        context: C,
        count: usize,
        bytes: &[u8],
    ) -> Result<usize, C::Error> {
        measure_items::<i32, C>(alloc, context, count, bytes)
    }
}

impl<C: Context> WriteListItem<C> for i32 {
    fn write_first<W: Writer<C>>(
        alloc: Global,
        order: Endianness,
        bytes: &[u8],
        writer: &mut W,
    ) -> Option<(usize, Result<(), C::Error>)> {
        write_first_item::<i32, C, W>(alloc, order, bytes, writer)
    }
}

impl ListItem for i64 {
    fn measure<C: Context>(
        alloc: Global,
        context: C,
        count: usize,
        bytes: &[u8],
    ) -> Result<usize, C::Error> {
        measure_items::<i64, C>(alloc, context, count, bytes)
    }
}

impl<C: Context> WriteListItem<C> for i64 {
    fn write_first<W: Writer<C>>(
        alloc: Global,
        order: Endianness,
        bytes: &[u8],
        writer: &mut W,
    ) -> Option<(usize, Result<(), C::Error>)> {
        write_first_item::<i64, C, W>(alloc, order, bytes, writer)
    }
}

impl ListItem for F32 {
    fn measure<C: Context>(
        alloc: Global,
        context: C,
        count: usize,
        bytes: &[u8],
    ) -> Result<usize, C::Error> {
        measure_items::<F32, C>(alloc, context, count, bytes)
    }
}

impl<C: Context> WriteListItem<C> for F32 {
    fn write_first<W: Writer<C>>(
        alloc: Global,
        order: Endianness,
        bytes: &[u8],
        writer: &mut W,
    ) -> Option<(usize, Result<(), C::Error>)> {
        write_first_item::<F32, C, W>(alloc, order, bytes, writer)
    }
}

impl ListItem for F64 {
    fn measure<C: Context>(
        alloc: Global,
        context: C,
        count: usize,
        bytes: &[u8],
    ) -> Result<usize, C::Error> {
        measure_items::<F64, C>(alloc, context, count, bytes)
    }
}

impl<C: Context> WriteListItem<C> for F64 {
    fn write_first<W: Writer<C>>(
        alloc: Global,
        order: Endianness,
        bytes: &[u8],
        writer: &mut W,
    ) -> Option<(usize, Result<(), C::Error>)> {
        write_first_item::<F64, C, W>(alloc, order, bytes, writer)
    }
}

impl ListItem for bool {
    fn measure<C: Context>(
        alloc: Global,
        context: C,
        count: usize,
        bytes: &[u8],
    ) -> Result<usize, C::Error> {
        measure_items::<bool, C>(alloc, context, count, bytes)
    }
}

impl<C: Context> WriteListItem<C> for bool {
    fn write_first<W: Writer<C>>(
        alloc: Global,
        order: Endianness,
        bytes: &[u8],
        writer: &mut W,
    ) -> Option<(usize, Result<(), C::Error>)> {
        write_first_item::<bool, C, W>(alloc, order, bytes, writer)
    }
}

impl ListItem for char {
    fn measure<C: Context>(
        alloc: Global,
        context: C,
        count: usize,
        bytes: &[u8],
    ) -> Result<usize, C::Error> {
        measure_items::<char, C>(alloc, context, count, bytes)
    }
}

impl<C: Context> WriteListItem<C> for char {
    fn write_first<W: Writer<C>>(
        alloc: Global,
        order: Endianness,
        bytes: &[u8],
        writer: &mut W,
    ) -> Option<(usize, Result<(), C::Error>)> {
        write_first_item::<char, C, W>(alloc, order, bytes, writer)
    }
}

impl<'a> ListItem for &'a str {
    fn measure<C: Context>(
        alloc: Global,
        context: C,
        count: usize,
        bytes: &[u8],
    ) -> Result<usize, C::Error>
        ensures { Measures C.Error.IsEof ⟦<&'a str as InPlace>⟧.in_place.codec
            (C.mode context) count result bytes.now }
    {
        measure_items::<&str, C>(alloc, context, count, bytes)
    }
}

impl<'a, C: Context> WriteListItem<C> for &'a str {
    fn write_first<W: Writer<C>>(
        alloc: Global,
        order: Endianness,
        bytes: &[u8],
        writer: &mut W,
    ) -> Option<(usize, Result<(), C::Error>)>
        ensures { WritesFirst C.Error.from_gives W.state W.appends
            ⟦<&'a str as InPlace>⟧.in_place.codec order bytes.now result writer.old writer.new }
    {
        write_first_item::<&str, C, W>(alloc, order, bytes, writer)
    }
}

impl<'a> ListItem for &'a [u8] {
    fn measure<C: Context>(
        alloc: Global,
        context: C,
        count: usize,
        bytes: &[u8],
    ) -> Result<usize, C::Error>
        ensures { Measures C.Error.IsEof ⟦<&'a [u8] as InPlace>⟧.in_place.codec
            (C.mode context) count result bytes.now }
    {
        measure_items::<&[u8], C>(alloc, context, count, bytes)
    }
}

impl<'a, C: Context> WriteListItem<C> for &'a [u8] {
    fn write_first<W: Writer<C>>(
        alloc: Global,
        order: Endianness,
        bytes: &[u8],
        writer: &mut W,
    ) -> Option<(usize, Result<(), C::Error>)>
        ensures { WritesFirst C.Error.from_gives W.state W.appends
            ⟦<&'a [u8] as InPlace>⟧.in_place.codec order bytes.now result writer.old writer.new }
    {
        write_first_item::<&[u8], C, W>(alloc, order, bytes, writer)
    }
}

impl<'a, T: ListItem> ListItem for EncodedList<'a, T> {
    fn measure<C: Context>(
        alloc: Global,
        context: C,
        count: usize,
        bytes: &[u8],
    ) -> Result<usize, C::Error>
        ensures { Measures C.Error.IsEof ⟦<EncodedList<'a, T> as InPlace>⟧.in_place.codec
            (C.mode context) count result bytes.now }
    {
        measure_items::<EncodedList<T>, C>(alloc, context, count, bytes)
    }
}

impl<'a, C: Context, T: WriteListItem<C>> WriteListItem<C> for EncodedList<'a, T> {
    fn write_first<W: Writer<C>>(
        alloc: Global,
        order: Endianness,
        bytes: &[u8],
        writer: &mut W,
    ) -> Option<(usize, Result<(), C::Error>)>
        ensures { WritesFirst C.Error.from_gives W.state W.appends
            ⟦<EncodedList<'a, T> as InPlace>⟧.in_place.codec order bytes.now result writer.old writer.new }
    {
        write_first_item::<EncodedList<T>, C, W>(alloc, order, bytes, writer)
    }
}
