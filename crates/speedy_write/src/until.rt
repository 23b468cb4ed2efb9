//! How lists are written that end with a mark.
ghost use Rattle.speedy_layout.specs.Codecs.{entry_codec};
ghost use Rattle.speedy_write.specs.Writing.{WritesValue, WritesValues};

use crate::prefixed::WritePrefix;
use crate::writable::Writable;
use crate::writer::Writer;
use speedy_base::context::Context;
use speedy_base::error::error_out_of_range_length;
use speedy_layout::layout::Layout;
use speedy_layout::prefixed::Prefix;
use speedy_layout::until::ListUntil;

impl<C: Context, N: WritePrefix, T: Writable<C>, const MARK: usize> Writable<C>
    for ListUntil<N, T, MARK> {
    /// An entry whose number is `MARK`, or is past an `N`, is the error `OutOfRangeLength`.
    #[inline]
    fn write_to<W: Writer<C>>(&self, writer: &mut W) -> Result<(), C::Error> {
        let entries = self.entries.as_slice();
        write_entries::<N, T, C, W, MARK>(entries, writer)?;
        N::write_number(MARK, writer)
    }
}

// The entries, and no mark.
fn write_entries<N: WritePrefix, T: Writable<C>, C: Context, W: Writer<C>, const MARK: usize>(
    entries: &[(usize, T)],
    writer: &mut W,
) -> Result<(), C::Error>
    ensures { WritesValues C.Error.from_gives W.state W.appends (λ it. (it.0, T.seen it.1))
        (entry_codec N.numbers.codec MARK T.layout) entries.now result writer.old writer.new }
{
    for entry in entries {
        write_entry::<N, T, C, W, MARK>(entry, writer)?;
    }
    Ok(())
}

// An entry: its number, and its value behind that.
#[inline]
fn write_entry<N: WritePrefix, T: Writable<C>, C: Context, W: Writer<C>, const MARK: usize>(
    entry: &(usize, T),
    writer: &mut W,
) -> Result<(), C::Error>
    ensures { WritesValue C.Error.from_gives W.state W.appends (λ it. (it.0, T.seen it.1))
        (entry_codec N.numbers.codec MARK T.layout) entry.now result writer.old writer.new }
{
    let number = entry.0;
    if number == MARK {
        return Err(error_out_of_range_length());
    }
    N::write_number(number, writer)?;
    entry.1.write_to(writer)
}
