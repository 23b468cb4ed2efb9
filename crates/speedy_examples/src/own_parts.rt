//! A struct of more than eleven parts: a tuple whose last part is one again.
//!
//! Of that many parts the search does not answer where reading fails.
use speedy::{Context, ItemByItem, Layout, LendingReader, Part, ReadFrom, Writable, Writer};
use std::convert::AsSlice;

/// A count for each month.
#[derive(Drop)]
pub struct Months {
    pub january: u8,
    pub february: u8,
    pub march: u8,
    pub april: u8,
    pub may: u8,
    pub june: u8,
    pub july: u8,
    pub august: u8,
    pub september: u8,
    pub october: u8,
    pub november: u8,
    pub december: u8,
}

/// What [`Months`] are read as.
type Parts = (u8, u8, u8, u8, u8, u8, u8, u8, u8, u8, (u8, u8));

impl Layout for Months {
    ghost Seen = { ⟦<Parts as Layout>⟧.Seen };

    ghost seen = { λ it. ⟦<Parts as Layout>⟧.seen (
      it.january,
      it.february,
      it.march,
      it.april,
      it.may,
      it.june,
      it.july,
      it.august,
      it.september,
      it.october,
      (it.november, it.december),
    ) };

    ghost layout = { ⟦<Parts as Layout>⟧.layout };
}

impl<L: AsSlice<u8> + Drop, C: Context> ReadFrom<L, C> for Months {
    type Strategy = ItemByItem<C>;

    fn read_from<R: LendingReader<L, C>>(reader: &mut R) -> Result<Months, C::Error> {
        let (
            january,
            february,
            march,
            april,
            may,
            june,
            july,
            august,
            september,
            october,
            (november, december),
        ) = reader.read_value()?;
        Ok(Months {
            january,
            february,
            march,
            april,
            may,
            june,
            july,
            august,
            september,
            october,
            november,
            december,
        })
    }

    fn minimum_bytes_needed() -> usize {
        <Parts as ReadFrom<L, C>>::minimum_bytes_needed()
    }
}

impl<C: Context> Writable<C> for Months {
    fn write_to<W: Writer<C>>(&self, writer: &mut W) -> Result<(), C::Error> {
        writer.write_value(&(
            Part(&self.january),
            Part(&self.february),
            Part(&self.march),
            Part(&self.april),
            Part(&self.may),
            Part(&self.june),
            Part(&self.july),
            Part(&self.august),
            Part(&self.september),
            Part(&self.october),
            (Part(&self.november), Part(&self.december)),
        ))
    }
}
