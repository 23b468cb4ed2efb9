//! How the items of a map or a set are written, behind their number or without it, in the order that it gives. It gives
//! each key once, so what is written repeats none; what is read may, and there the last value counts.
ghost use Rattle.std.specs.Prelude.{◌≡◌, List, length};
ghost use Rattle.std.specs.Iterator.{IsFinite, AlwaysYields};
ghost use Rattle.speedy_layout.specs.Codecs.{vector_codec};
ghost use Rattle.speedy_layout.specs.Prefixed.{list_behind, prefixed_codec};
ghost use Rattle.speedy_write.specs.Writing.{WritesValue};

use crate::prefixed::WritePrefix;
use crate::writable::Writable;
use crate::writer::Writer;
use speedy_base::context::Context;

// The number of items as a number of the type `N`, and then the items. Items that every walk gives are written as a
// list.
#[inline]
pub(crate) fn write_counted_items<
    N: WritePrefix,
    C: Context,
    T: Writable<C> + Drop,
    I: Iterator<Item = T>,
    W: Writer<C>,
>(count: usize, items: I, writer: &mut W) -> Result<(), C::Error>
    requires can { I.can_next items }
    requires ends { IsFinite (I.remaining items) }
    ensures { (shown : List T.Seen) → count ≡ length shown
        → AlwaysYields I.next_gives T.seen items shown
        → WritesValue C.Error.from_gives W.state W.appends (λ v. v)
        (prefixed_codec (list_behind T.layout N.numbers)) shown result writer.old writer.new }
{
    N::write_number(count, writer)?;
    write_items_of(items, writer)
}

// The items, and no number of them. Items that every walk gives are written as so many.
#[inline]
pub(crate) fn write_items_of<
    C: Context,
    T: Writable<C> + Drop,
    I: Iterator<Item = T>,
    W: Writer<C>,
>(items: I, writer: &mut W) -> Result<(), C::Error>
    requires can { I.can_next items }
    requires ends { IsFinite (I.remaining items) }
    ensures { (shown : List T.Seen) → AlwaysYields I.next_gives T.seen items shown
        → WritesValue C.Error.from_gives W.state W.appends (λ v. v)
        (vector_codec (length shown) T.layout) shown result writer.old writer.new }
{
    writer.write_collection(items)
}
