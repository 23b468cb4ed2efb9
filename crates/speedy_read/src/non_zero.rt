//! How numbers that are not 0 are read.
#![tactic(auto, using(crate::proofs::NonZeroLemmas::signed_non_zero_decoded, crate::specs::Decoding::decoded))]

ghost use Rattle.speedy_read.specs.Decoding.{coded};

use crate::codes::FromCode;
use crate::many::ItemByItem;
use speedy_base::context::Context;
use speedy_base::error::error_zero_non_zero;
use std::num::{
    NonZeroI8, NonZeroI16, NonZeroI32, NonZeroI64, NonZeroU8, NonZeroU16, NonZeroU32, NonZeroU64,
};

impl FromCode for NonZeroU8 {
    type Strategy = ItemByItem<()>;

    #[inline]
    fn decode<C: Context>(code: u8, _: bool) -> Result<NonZeroU8, C::Error> {
        match NonZeroU8::new(code) {
            Some(number) => Ok(number),
            None => Err(error_zero_non_zero()),
        }
    }

    ghost is_coded = { coded _ _ _ };
}

impl FromCode for NonZeroU16 {
    type Strategy = ItemByItem<()>;

    #[inline]
    fn decode<C: Context>(code: u16, _: bool) -> Result<NonZeroU16, C::Error> {
        match NonZeroU16::new(code) {
            Some(number) => Ok(number),
            None => Err(error_zero_non_zero()),
        }
    }

    ghost is_coded = { coded _ _ _ };
}

impl FromCode for NonZeroU32 {
    type Strategy = ItemByItem<()>;

    #[inline]
    fn decode<C: Context>(code: u32, _: bool) -> Result<NonZeroU32, C::Error> {
        match NonZeroU32::new(code) {
            Some(number) => Ok(number),
            None => Err(error_zero_non_zero()),
        }
    }

    ghost is_coded = { coded _ _ _ };
}

impl FromCode for NonZeroU64 {
    type Strategy = ItemByItem<()>;

    #[inline]
    fn decode<C: Context>(code: u64, _: bool) -> Result<NonZeroU64, C::Error> {
        match NonZeroU64::new(code) {
            Some(number) => Ok(number),
            None => Err(error_zero_non_zero()),
        }
    }

    ghost is_coded = { coded _ _ _ };
}

impl FromCode for NonZeroI8 {
    type Strategy = ItemByItem<()>;

    #[inline]
    fn decode<C: Context>(code: i8, _: bool) -> Result<NonZeroI8, C::Error> {
        match NonZeroI8::new(code) {
            Some(number) => Ok(number),
            None => Err(error_zero_non_zero()),
        }
    }

    ghost is_coded = { coded _ _ _ };
}

impl FromCode for NonZeroI16 {
    type Strategy = ItemByItem<()>;

    #[inline]
    fn decode<C: Context>(code: i16, _: bool) -> Result<NonZeroI16, C::Error> {
        match NonZeroI16::new(code) {
            Some(number) => Ok(number),
            None => Err(error_zero_non_zero()),
        }
    }

    ghost is_coded = { coded _ _ _ };
}

impl FromCode for NonZeroI32 {
    type Strategy = ItemByItem<()>;

    #[inline]
    fn decode<C: Context>(code: i32, _: bool) -> Result<NonZeroI32, C::Error> {
        match NonZeroI32::new(code) {
            Some(number) => Ok(number),
            None => Err(error_zero_non_zero()),
        }
    }

    ghost is_coded = { coded _ _ _ };
}

impl FromCode for NonZeroI64 {
    type Strategy = ItemByItem<()>;

    #[inline]
    fn decode<C: Context>(code: i64, _: bool) -> Result<NonZeroI64, C::Error> {
        match NonZeroI64::new(code) {
            Some(number) => Ok(number),
            None => Err(error_zero_non_zero()),
        }
    }

    ghost is_coded = { coded _ _ _ };
}
