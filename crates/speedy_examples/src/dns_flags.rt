//! A header in big endian, and the bits of its flags.
use crate::dns::Header;
use speedy::{BigEndian, Error, Readable, Writable};
use std::alloc::Global;

impl Header {
    /// Whether this is a response: the highest bit.
    pub fn is_response(&self) -> bool {
        self.flags & 0x8000 != 0
    }

    /// The kind of the question: four bits below the highest.
    pub fn opcode(&self) -> u16 {
        (self.flags >> 11) & 0xf
    }

    /// Sets the four bits of the response code, the lowest ones.
    pub fn set_response_code(&mut self, code: u16) {
        self.flags = (self.flags & 0xfff0) | (code & 0xf);
    }
}

/// The header that a message begins with.
pub fn read_header(alloc: Global, message: &[u8]) -> Result<Header, Error> {
    <Header as Readable<BigEndian>>::read_from_buffer_with_ctx(alloc, BigEndian {}, message)
}

/// The 12 bytes of a header.
pub fn header_bytes(alloc: Global, header: &Header) -> Result<Vec<u8>, Error> {
    header.write_to_vec_with_ctx(alloc, BigEndian {})
}
