//! Lists that lie where they were read behind a length of another type than `u32`, or of a length that other fields
//! tell.
ghost use Rattle.std.specs.Prelude.{List};
ghost use Rattle.speedy_layout.specs.Lengths.{borrowed_counting, list_counting};
ghost use Rattle.speedy_layout.specs.Prefixed.{borrowed_behind, list_behind, prefixed_codec};
ghost use Rattle.speedy_read.specs.Reading.{RefusesUnsized, ReadsValue};

use crate::encoded::{EncodedList, ListItem, WriteListItem, read_items, write_items};
use crate::in_place::InPlace;
use speedy_base::context::Context;
use speedy_layout::lengths::OfLength;
use speedy_layout::prefixed::Told;
use speedy_read::lengths::ReadOfLength;
use speedy_read::prefixed::{ReadPrefix, ReadTold};
use speedy_read::reader::LendingReader;
use speedy_write::Writer;
use speedy_write::lengths::WriteOfLength;
use speedy_write::prefixed::{WritePrefix, WriteTold};

impl<'a, T: InPlace> Told for EncodedList<'a, T> {
    ghost Seen = { List T.Seen };

    ghost seen = { λ it. it.decoded.0 };

    ghost behind = { λ numbers. borrowed_behind (list_behind T.in_place.codec numbers) };
}

impl<'a, C: Context, T: ListItem> ReadTold<&'a [u8], C> for EncodedList<'a, T> {
    fn read_behind<N: ReadPrefix, R: LendingReader<&'a [u8], C>>(
        reader: &mut R,
    ) -> Result<EncodedList<'a, T>, C::Error>
        ensures reads { let list = ⟦<EncodedList<'a, T> as Told>⟧ in
            ReadsValue C.Error.IsEof R.state list.seen (prefixed_codec (list.behind N.numbers)) result
            reader.old reader.new }
        ensures not_lent { RefusesUnsized C.Error.IsEof R.state N.numbers.codec
            result reader.old reader.new }
    {
        let count = N::read_number(reader)?;
        read_items(reader, count)
    }
}

impl<'a, C: Context, T: WriteListItem<C>> WriteTold<C> for EncodedList<'a, T> {
    fn write_behind<N: WritePrefix, W: Writer<C>>(&self, writer: &mut W) -> Result<(), C::Error> {
        N::write_number(self.len(), writer)?;
        write_items::<T, C, W>(self, writer)
    }
}

impl<'a, T: InPlace> OfLength for EncodedList<'a, T> {
    ghost Seen = { List T.Seen };

    ghost seen = { λ it. it.decoded.0 };

    ghost counting = { borrowed_counting (list_counting T.in_place.codec) };
}

impl<'a, C: Context, T: ListItem> ReadOfLength<&'a [u8], C> for EncodedList<'a, T> {
    fn read_of_length<R: LendingReader<&'a [u8], C>>(
        reader: &mut R,
        length: usize,
    ) -> Result<EncodedList<'a, T>, C::Error>
        ensures { let list = ⟦<EncodedList<'a, T> as OfLength>⟧ in
            ReadsValue C.Error.IsEof R.state list.seen (list.counting.of_length length) result
            reader.old reader.new }
    {
        read_items(reader, length)
    }
}

impl<'a, C: Context, T: WriteListItem<C>> WriteOfLength<C> for EncodedList<'a, T> {
    fn length(&self) -> usize {
        self.len()
    }

    fn write_of_length<W: Writer<C>>(&self, writer: &mut W) -> Result<(), C::Error> {
        write_items::<T, C, W>(self, writer)
    }
}
