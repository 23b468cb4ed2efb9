//! The layout of characters, byte orders, durations and UUIDs.
ghost use Rattle.std.specs.Prelude.{ℕ};
ghost use Rattle.std.specs.Duration.{as_nanos};
ghost use Rattle.speedy_layout.specs.Codecs.{byte_order_codec, character_codec, duration_codec, raw_bytes_codec};

use crate::codes::ToCode;
use crate::layout::Layout;
use speedy_base::endianness::Endianness;
use std::time::Duration;
use uuid::Uuid;

impl Layout for char {
    ghost seen = { λ x. x };

    ghost layout = { character_codec };
}

impl ToCode for char {
    type Code = u32;

    #[inline(always)]
    fn encode(&self) -> u32 {
        *self as u32
    }
}

impl Layout for Endianness {
    ghost seen = { λ x. x };

    ghost layout = { byte_order_codec };
}

#[tactic(auto, using(crate::specs::Encoding::encoded))]
impl ToCode for Endianness {
    type Code = u8;

    #[inline(always)]
    fn encode(&self) -> u8 {
        match *self {
            Endianness::LittleEndian => 0,
            Endianness::BigEndian => 1,
        }
    }
}

impl Layout for Duration {
    ghost Seen = { ℕ };

    ghost seen = { as_nanos };

    ghost layout = { duration_codec };
}

impl ToCode for Duration {
    type Code = (u64, u32);

    #[inline(always)]
    fn encode(&self) -> (u64, u32) {
        (self.as_secs(), self.subsec_nanos())
    }
}

impl Layout for Uuid {
    ghost seen = { λ x. x };

    ghost layout = { raw_bytes_codec 16 };
}
