//! How flags (`bool`), and values that a flag chooses (`Option`, `Result`), are read.
ghost use Rattle.std.specs.Prelude.{◌+◌};
ghost use Rattle.speedy_read.specs.Decoding.{coded};

use crate::bulk::Flags;
use crate::codes::FromCode;
use crate::many::ItemByItem;
use crate::readable::ReadFrom;
use crate::reader::LendingReader;
use speedy_base::context::Context;
use speedy_base::error::error_not_written_form;
use std::convert::AsSlice;

impl FromCode for bool {
    type Strategy = Flags;

    #[inline]
    fn decode<C: Context>(code: u8, demands_written_form: bool) -> Result<bool, C::Error> {
        let is_written = code <= 1;
        if !is_written && demands_written_form {
            return Err(error_not_written_form());
        }
        Ok(code != 0)
    }

    ghost is_coded = { coded _ _ _ };
}

impl<L: AsSlice<u8> + Drop, C: Context, T: ReadFrom<L, C>> ReadFrom<L, C> for Option<T> {
    type Strategy = ItemByItem<C>;

    #[inline]
    fn read_from<R: LendingReader<L, C>>(reader: &mut R) -> Result<Option<T>, C::Error> {
        let is_some = reader.read_value::<bool>()?;
        if !is_some {
            return Ok(None);
        }
        let value = reader.read_value::<T>()?;
        Ok(Some(value))
    }

    #[inline]
    fn minimum_bytes_needed() -> usize {
        1
    }
}

impl<L: AsSlice<u8> + Drop, C: Context, T: ReadFrom<L, C>, U: ReadFrom<L, C>> ReadFrom<L, C>
    for Result<T, U> {
    type Strategy = ItemByItem<C>;

    #[inline]
    fn read_from<R: LendingReader<L, C>>(reader: &mut R) -> Result<Result<T, U>, C::Error> {
        let is_ok = reader.read_value::<bool>()?;
        if is_ok {
            let value = reader.read_value()?;
            Ok(Ok(value))
        } else {
            let error = reader.read_value()?;
            Ok(Err(error))
        }
    }

    #[inline]
    fn minimum_bytes_needed() -> usize {
        1
    }
}
