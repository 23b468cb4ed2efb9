//! Byte orders, and numbers read and turned in them. The digits and the turning of each width stand in `numbers`.
ghost use Rattle.std.specs.Prelude.{◌≡◌, ◌↔◌, IsTrue};

/// A byte order: the order in which the base 256 digits of a number are written.
#[derive(Clone, Copy, Debug, PartialEq, Eq, PartialOrd, Ord, Hash)]
pub enum Endianness {
    /// Little endian: the least digit first.
    LittleEndian,
    /// Big endian: the greatest digit first.
    BigEndian,
}

impl Endianness {
    /// The order of the machines that this library is built for, x86-64.
    pub const NATIVE: Endianness = Endianness::LittleEndian;

    /// Whether the machine's numbers have to be reversed for this order.
    #[inline(always)]
    pub fn conversion_necessary(self) -> bool
        ensures { IsTrue result ↔ (self ≡ Endianness.BigEndian) }
    {
        self != Endianness::NATIVE
    }
}
