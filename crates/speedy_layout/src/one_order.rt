//! Numbers that lie in one byte order, whatever the context's is: as those of a format that another defines.
ghost use Rattle.speedy_base.specs.declared.endianness.Endianness.TheVariants as orders;
ghost use Rattle.speedy_layout.specs.Codecs.{one_order_codec};
ghost use Rattle.speedy_layout.specs.OneOrder.{one_order_fixed, one_order_alike};

use crate::fixed_numbers::FixedNumber;
use crate::layout::Layout;
use crate::same_key::SameKey;
use crate::view_items::ZeroCopyable;
use speedy_base::context::Context;
use speedy_base::endianness::Endianness;

/// A number that lies in the big order, whatever the context's is.
///
/// Its bytes are those that the number has under `BigEndian`. Any bytes of its width are one.
#[derive(Clone, Copy, Debug, PartialEq, Eq, PartialOrd, Ord, Hash, Default, Drop)]
pub struct Big<T>(pub T);

impl<T: Layout> Layout for Big<T> {
    ghost Seen = { T.Seen };

    ghost seen = { λ it. T.seen it.0 };

    ghost layout = { one_order_codec orders.BigEndian T.layout };
}

impl<T: FixedNumber> FixedNumber for Big<T> {
    type Digits = T::Digits;

    ghost decoded = { λ _ bytes. record { 0 = T.decoded orders.BigEndian bytes } };

    #[inline(always)]
    fn decode(_order: Endianness, bytes: &[u8]) -> Big<T> {
        Big(<T as FixedNumber>::decode(Endianness::BigEndian, bytes))
    }

    #[inline(always)]
    fn encode(self, _order: Endianness, output: &mut [u8]) {
        self.0.encode(Endianness::BigEndian, output);
    }

    ghost fixed = { one_order_fixed orders.BigEndian T.fixed };
}

impl<C: Context, T: FixedNumber> ZeroCopyable<C> for Big<T> {
    ghost as_little = { λ context. one_order_alike orders.BigEndian T.fixed (C.mode context) };
}

impl<T: SameKey> SameKey for Big<T> {
    ghost same_key = { λ x y. T.same_key x.0 y.0 };
}

/// A number that lies in the little order, whatever the context's is.
///
/// Its bytes are those that the number has under `LittleEndian`. Any bytes of its width are one.
#[derive(Clone, Copy, Debug, PartialEq, Eq, PartialOrd, Ord, Hash, Default, Drop)]
pub struct Little<T>(pub T);

impl<T: Layout> Layout for Little<T> {
    ghost Seen = { T.Seen };

    ghost seen = { λ it. T.seen it.0 };

    ghost layout = { one_order_codec orders.LittleEndian T.layout };
}

impl<T: FixedNumber> FixedNumber for Little<T> {
    type Digits = T::Digits;

    ghost decoded = { λ _ bytes. record { 0 = T.decoded orders.LittleEndian bytes } };

    #[inline(always)]
    fn decode(_order: Endianness, bytes: &[u8]) -> Little<T> {
        Little(<T as FixedNumber>::decode(Endianness::LittleEndian, bytes))
    }

    #[inline(always)]
    fn encode(self, _order: Endianness, output: &mut [u8]) {
        self.0.encode(Endianness::LittleEndian, output);
    }

    ghost fixed = { one_order_fixed orders.LittleEndian T.fixed };
}

impl<C: Context, T: FixedNumber> ZeroCopyable<C> for Little<T> {
    ghost as_little = { λ context. one_order_alike orders.LittleEndian T.fixed (C.mode context) };
}

impl<T: SameKey> SameKey for Little<T> {
    ghost same_key = { λ x y. T.same_key x.0 y.0 };
}
