//! What a message of the domain name system begins with.
//!
//! Made from `dns.rs` by `tools/derive`: change that, and make this again.
use speedy::{Context, ItemByItem, Layout, LendingReader, ReadFrom, Writable, Writer};
use std::convert::AsSlice;

/// What a message of the domain name system begins with, in big endian.
#[derive(Debug, PartialEq, Drop)]
pub struct Header {
    pub id: u16,
    pub flags: u16,
    pub questions: u16,
    pub answers: u16,
    pub authorities: u16,
    pub additional: u16,
}

/// What [`Header`] is read and written as.
type HeaderParts = (u16, u16, u16, u16, u16, u16);

impl Layout for Header {
    ghost Seen = { ⟦<HeaderParts as Layout>⟧.Seen };

    ghost seen = { λ it. ⟦<HeaderParts as Layout>⟧.seen (
      it.id,
      it.flags,
      it.questions,
      it.answers,
      it.authorities,
      it.additional,
    ) };

    ghost layout = { ⟦<HeaderParts as Layout>⟧.layout };
}

impl<L: AsSlice<u8> + Drop, C: Context> ReadFrom<L, C> for Header {
    type Strategy = ItemByItem<C>;

    #[inline(always)]
    fn read_from<R: LendingReader<L, C>>(reader: &mut R) -> Result<Header, C::Error> {
        match reader.read_value() {
            Ok((id, flags, questions, answers, authorities, additional)) => Ok(Header {
                id,
                flags,
                questions,
                answers,
                authorities,
                additional,
            }),
            Err(error) => Err(error),
        }
    }

    fn minimum_bytes_needed() -> usize {
        12
    }
}

impl<C: Context> Writable<C> for Header {
    fn write_to<W: Writer<C>>(&self, writer: &mut W) -> Result<(), C::Error> {
        writer.write_value(&(
            self.id,
            self.flags,
            self.questions,
            self.answers,
            self.authorities,
            self.additional,
        ))
    }
}
