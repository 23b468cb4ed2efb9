//! Bytes that are signed, hashed or compared.
use speedy::{Buffer, Error, StrictLittleEndian, Writable};
use std::alloc::Global;
use std::collections::BTreeMap;

/// What is signed, for which your own type may stand, if it holds no hashed map or set.
pub type Order = (u64, BTreeMap<String, u32>);

/// The bytes to sign: of one value there are no others.
pub fn bytes_to_sign(alloc: Global, order: &Order) -> Result<Vec<u8>, Error> {
    order.write_to_vec_with_ctx(alloc, StrictLittleEndian {})
}

/// The value of bytes whose signature was verified. Other bytes of the same value are refused, and so are bytes after
/// it.
pub fn read_signed(alloc: Global, bytes: &[u8]) -> Result<Order, Error> {
    let (order, length) = bytes.read_with_length::<Order>(alloc, StrictLittleEndian {});
    let order = order?;
    if length < bytes.len() {
        return Err(Error::custom(alloc, "bytes are left over"));
    }
    Ok(order)
}

/// Whether two values are the same, by their bytes.
pub fn are_same(alloc: Global, left: &Order, right: &Order) -> Result<bool, Error> {
    Ok(bytes_to_sign(alloc, left)? == bytes_to_sign(alloc, right)?)
}
