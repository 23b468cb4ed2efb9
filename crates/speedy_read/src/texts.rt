//! How texts are read: what is UTF-8 is in `utf8`.
#![tactic(auto, unfolding(speedy_layout::specs::Texts::text))]

ghost use Rattle.std.specs.Prelude.{◌≡◌};
ghost use Rattle.speedy_layout.specs.Codecs.{unsigned_codec};
ghost use Rattle.speedy_layout.specs.Prefixed.{prefixed_codec};
ghost use Rattle.speedy_read.specs.Reading.{RefusesUnsized, ReadsValue};

use crate::lengths::read_counted;
use crate::lent::read_lent;
use crate::many::ItemByItem;
use crate::prefixed::{ReadPrefix, ReadTold};
use crate::readable::ReadFrom;
use crate::reader::LendingReader;
use crate::utf8::bytes_to_str;
use speedy_base::context::Context;
use speedy_layout::layout::Layout;
use speedy_layout::prefixed::Told;
use std::boxed::BoxedStr;
use std::convert::AsSlice;

impl<L: AsSlice<u8> + Drop, C: Context> ReadFrom<L, C> for String {
    type Strategy = ItemByItem<C>;

    #[inline]
    fn read_from<R: LendingReader<L, C>>(reader: &mut R) -> Result<String, C::Error> {
        String::read_behind::<u32, R>(reader)
    }

    #[inline]
    fn minimum_bytes_needed() -> usize {
        4
    }
}

impl<L: AsSlice<u8> + Drop, C: Context> ReadTold<L, C> for String {
    #[inline]
    fn read_behind<N: ReadPrefix, R: LendingReader<L, C>>(
        reader: &mut R,
    ) -> Result<String, C::Error> {
        read_counted::<N, String, L, C, R>(reader)
    }
}

impl<L: AsSlice<u8> + Drop, C: Context> ReadFrom<L, C> for BoxedStr {
    type Strategy = ItemByItem<C>;

    #[inline]
    fn read_from<R: LendingReader<L, C>>(reader: &mut R) -> Result<BoxedStr, C::Error> {
        BoxedStr::read_behind::<u32, R>(reader)
    }

    #[inline]
    fn minimum_bytes_needed() -> usize {
        4
    }
}

impl<L: AsSlice<u8> + Drop, C: Context> ReadTold<L, C> for BoxedStr {
    #[inline]
    fn read_behind<N: ReadPrefix, R: LendingReader<L, C>>(
        reader: &mut R,
    ) -> Result<BoxedStr, C::Error> {
        read_counted::<N, BoxedStr, L, C, R>(reader)
    }
}

// It points into the bytes that the reader lends.
impl<'a, C: Context> ReadFrom<&'a [u8], C> for &'a str {
    type Strategy = ItemByItem<C>;

    #[inline]
    fn read_from<R: LendingReader<&'a [u8], C>>(reader: &mut R) -> Result<&'a str, C::Error>
        ensures reads { let text = ⟦<&'a str as Layout>⟧ in
            ReadsValue C.Error.IsEof R.state text.seen text.layout result reader.old reader.new }
        ensures not_lent { RefusesUnsized C.Error.IsEof R.state (unsigned_codec 4)
            result reader.old reader.new }
    {
        <&'a str as ReadTold<&'a [u8], C>>::read_behind::<u32, R>(reader)
    }

    #[inline]
    fn minimum_bytes_needed() -> usize
        ensures { result ≡ 4 }
    {
        4
    }
}

impl<'a, C: Context> ReadTold<&'a [u8], C> for &'a str {
    #[inline]
    fn read_behind<N: ReadPrefix, R: LendingReader<&'a [u8], C>>(
        reader: &mut R,
    ) -> Result<&'a str, C::Error>
        ensures reads { let text = ⟦<&'a str as Told>⟧ in
            ReadsValue C.Error.IsEof R.state text.seen (prefixed_codec (text.behind N.numbers)) result
            reader.old reader.new }
        ensures not_lent { RefusesUnsized C.Error.IsEof R.state N.numbers.codec
            result reader.old reader.new }
    {
        let length = N::read_number(reader)?;
        let bytes = read_lent(reader, length)?;
        bytes_to_str(bytes)
    }
}
