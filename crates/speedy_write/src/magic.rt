//! How constants are written.
#![tactic(auto, using(crate::specs::Lengths::constant_written))]

use crate::writable::Writable;
use crate::writer::Writer;
use speedy_base::context::Context;
use speedy_layout::magic::{Constant, Magic};

impl<C: Context, K: Constant> Writable<C> for Magic<K> {
    #[inline]
    fn write_to<W: Writer<C>>(&self, writer: &mut W) -> Result<(), C::Error> {
        writer.write_bytes(K::bytes())
    }
}
