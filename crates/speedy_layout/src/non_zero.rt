//! The layout of numbers that are not 0.
#![tactic(auto, using(crate::specs::Encoding::encoded))]

ghost use Rattle.std.specs.Prelude.{ℕ, ℤ};
ghost use Rattle.std.specs.Int.{w8, w16, w32, w64};
ghost use Rattle.std.specs.Int.NonZero.{non_zero_u8_get, non_zero_u16_get, non_zero_u32_get, non_zero_u64_get};
ghost use Rattle.std.specs.Int.NonZero.{non_zero_i8_get, non_zero_i16_get, non_zero_i32_get, non_zero_i64_get};
ghost use Rattle.speedy_layout.specs.Codecs.{non_zero_codec, signed_non_zero_codec};

use crate::codes::ToCode;
use crate::layout::Layout;
use std::num::{
    NonZeroI8, NonZeroI16, NonZeroI32, NonZeroI64, NonZeroU8, NonZeroU16, NonZeroU32, NonZeroU64,
};

impl Layout for NonZeroU8 {
    ghost Seen = { ℕ };

    ghost seen = { non_zero_u8_get };

    ghost layout = { non_zero_codec 1 };
}

impl ToCode for NonZeroU8 {
    type Code = u8;

    #[inline(always)]
    fn encode(&self) -> u8 {
        self.get()
    }
}

impl Layout for NonZeroU16 {
    ghost Seen = { ℕ };

    ghost seen = { non_zero_u16_get };

    ghost layout = { non_zero_codec 2 };
}

impl ToCode for NonZeroU16 {
    type Code = u16;

    #[inline(always)]
    fn encode(&self) -> u16 {
        self.get()
    }
}

impl Layout for NonZeroU32 {
    ghost Seen = { ℕ };

    ghost seen = { non_zero_u32_get };

    ghost layout = { non_zero_codec 4 };
}

impl ToCode for NonZeroU32 {
    type Code = u32;

    #[inline(always)]
    fn encode(&self) -> u32 {
        self.get()
    }
}

impl Layout for NonZeroU64 {
    ghost Seen = { ℕ };

    ghost seen = { non_zero_u64_get };

    ghost layout = { non_zero_codec 8 };
}

impl ToCode for NonZeroU64 {
    type Code = u64;

    #[inline(always)]
    fn encode(&self) -> u64 {
        self.get()
    }
}

impl Layout for NonZeroI8 {
    ghost Seen = { ℤ };

    ghost seen = { non_zero_i8_get };

    ghost layout = { signed_non_zero_codec w8 };
}

impl ToCode for NonZeroI8 {
    type Code = i8;

    #[inline(always)]
    fn encode(&self) -> i8 {
        self.get()
    }
}

impl Layout for NonZeroI16 {
    ghost Seen = { ℤ };

    ghost seen = { non_zero_i16_get };

    ghost layout = { signed_non_zero_codec w16 };
}

impl ToCode for NonZeroI16 {
    type Code = i16;

    #[inline(always)]
    fn encode(&self) -> i16 {
        self.get()
    }
}

impl Layout for NonZeroI32 {
    ghost Seen = { ℤ };

    ghost seen = { non_zero_i32_get };

    ghost layout = { signed_non_zero_codec w32 };
}

impl ToCode for NonZeroI32 {
    type Code = i32;

    #[inline(always)]
    fn encode(&self) -> i32 {
        self.get()
    }
}

impl Layout for NonZeroI64 {
    ghost Seen = { ℤ };

    ghost seen = { non_zero_i64_get };

    ghost layout = { signed_non_zero_codec w64 };
}

impl ToCode for NonZeroI64 {
    type Code = i64;

    #[inline(always)]
    fn encode(&self) -> i64 {
        self.get()
    }
}
