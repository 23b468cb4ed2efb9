//! Encodes values to compact bytes and decodes them again, in either byte order, with every call proved.
//!
//! ```text
//! let bytes = Writable::<LittleEndian>::write_to_vec(&258_u16, alloc)?;            // [2, 1]
//! let value = <u16 as Readable<LittleEndian>>::read_from_buffer(alloc, &bytes)?;
//! ```
#![tactic(auto)]

pub mod cases;
pub mod encoded;
mod encoded_lengths;
pub mod exports;
pub mod ext;
pub mod in_place;
pub mod in_place_bytes;
pub mod laws;
pub mod layout;
pub mod lengths;
pub mod levels;
pub mod list_items;
pub mod prefixed;
pub mod private;
pub mod readable_impl;
pub mod readable_unsized_impl;
pub mod reader;
pub mod told_frames;
pub mod varints;
pub mod whole;
pub mod writable_impl;

pub use buffer::Buffer;
pub use c_text::CText;
pub use codes::{FromCode, ToCode};
pub use collections::FromItems;
pub use context::{
    BigEndian, Context, LittleEndian, PlainContext, StrictBigEndian, StrictLittleEndian,
};
pub use endianness::Endianness;
pub use error::{Error, IsEof};
pub use floats::{F32, F64};
pub use layout::Layout;
pub use many::ItemByItem;
pub use one_order::{Big, Little};
pub use padding::{Padding, PaddingBytes, ZeroBytes, Zeros};
pub use part::Part;
pub use readable::{ReadFrom, ReadMany, Readable, ReadableOwned};
pub use reader::{LendingReader, Reader};
pub use same_key::SameKey;
pub use speedy_base::{circular_buffer, context, device, endianness, error};
pub use speedy_layout::{
    c_text, floats, magic, one_order, padding, same_key, three_bytes, until, varint, view_items,
    views,
};
pub use speedy_read::{buffer, codes, collections, lent, many, readable};
pub use speedy_write::{part, writable, writer};
pub use three_bytes::U24;
pub use until::ListUntil;
pub use writable::Writable;
pub use writer::Writer;
