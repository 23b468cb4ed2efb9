//! The layout of flags, and of values that a flag chooses.
ghost use Rattle.std.specs.Prelude.{Option, Result};
ghost use Rattle.std.specs.Option.{option_map};
ghost use Rattle.std.specs.Result.{result_map_both};
ghost use Rattle.speedy_layout.specs.Codecs.{alternative_codec, flag_codec, option_codec};

use crate::codes::ToCode;
use crate::layout::Layout;

impl Layout for bool {
    ghost seen = { λ x. x };

    ghost layout = { flag_codec };
}

#[tactic(auto, using(crate::specs::Encoding::encoded))]
impl ToCode for bool {
    type Code = u8;

    #[inline(always)]
    fn encode(&self) -> u8 {
        u8::from(*self)
    }
}

impl<T: Layout> Layout for Option<T> {
    ghost Seen = { Option T.Seen };

    ghost seen = { option_map T.seen };

    ghost layout = { option_codec T.layout };
}

impl<T: Layout, U: Layout> Layout for Result<T, U> {
    ghost Seen = { Result T.Seen U.Seen };

    ghost seen = { result_map_both T.seen U.seen };

    ghost layout = { alternative_codec T.layout U.layout };
}
