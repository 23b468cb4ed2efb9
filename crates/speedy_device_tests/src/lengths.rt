//! Lengths of each width, constants, and peeks of numbers, by each reader.
//!
//! What stands behind a length as a value, `Prefixed`, is tested in `speedy`.
use crate::asserting::{assert_bytes, assert_end, assert_ok, assert_refused, assert_same};
use crate::probes::{Probe, read_by_each};
use speedy::endianness::Endianness;
use speedy::error::Error;
use speedy::private::{
    ErrorKind, are_lengths_the_same, get_error_kind, read_constant, read_length, read_length_u7,
    read_length_u8, read_length_u16, read_length_u32, read_length_u64, read_length_u64_varint,
    write_length, write_length_u7, write_length_u8, write_length_u16, write_length_u32,
    write_length_u64, write_length_u64_varint,
};
use speedy::reader::LendingReader;
use speedy::writable::BufferCollector;
use speedy::writer::Writer;
use std::alloc::Global;
use std::convert::AsSlice;
use std::process::Abort;

/// How a length is written and read.
#[derive(Clone, Copy)]
enum Width {
    Unnamed,
    U7,
    U8,
    U16,
    U32,
    U64,
    Varint,
}

fn read_as<L: AsSlice<u8> + Drop, R: LendingReader<L, Endianness>>(
    width: Width,
    reader: &mut R,
) -> Result<usize, Error> {
    match width {
        Width::Unnamed => read_length(reader),
        Width::U7 => read_length_u7(reader),
        Width::U8 => read_length_u8(reader),
        Width::U16 => read_length_u16(reader),
        Width::U32 => read_length_u32(reader),
        Width::U64 => read_length_u64(reader),
        Width::Varint => read_length_u64_varint(reader),
    }
}

fn write_as<W: Writer<Endianness>>(
    width: Width,
    length: usize,
    writer: &mut W,
) -> Result<(), Error> {
    match width {
        Width::Unnamed => write_length(length, writer),
        Width::U7 => write_length_u7(length, writer),
        Width::U8 => write_length_u8(length, writer),
        Width::U16 => write_length_u16(length, writer),
        Width::U32 => write_length_u32(length, writer),
        Width::U64 => write_length_u64(length, writer),
        Width::Varint => write_length_u64_varint(length, writer),
    }
}

/// Lengths, and what is written of them in the big order, with a byte behind it.
const LENGTHS: [(Width, usize, &[u8]); 10] = [
    (Width::Unnamed, 258, &[0, 0, 1, 2, 9]),
    (Width::U7, 127, &[127, 9]),
    (Width::U8, 255, &[255, 9]),
    (Width::U16, 258, &[1, 2, 9]),
    (Width::U32, 258, &[0, 0, 1, 2, 9]),
    (Width::U32, 0xffff_ffff, &[255, 255, 255, 255, 9]),
    (Width::U64, 300, &[0, 0, 0, 0, 0, 0, 1, 0x2c, 9]),
    (
        Width::U64,
        usize::MAX,
        &[255, 255, 255, 255, 255, 255, 255, 255, 9],
    ),
    (Width::Varint, 300, &[0x81, 0x2c, 9]),
    (Width::Varint, 127, &[127, 9]),
];

/// Reads a length, and the byte behind it.
#[derive(Drop)]
struct ReadLength {
    width: Width,
    length: usize,
}

impl Probe for ReadLength {
    fn read<L: AsSlice<u8> + Drop, R: LendingReader<L, Endianness>>(
        &self,
        rt: &impl Abort,
        _alloc: Global,
        reader: &mut R,
    ) {
        assert_ok(rt, read_as(self.width, reader), self.length);
        assert_ok(rt, reader.read_u8(), 9);
    }
}

#[test]
fn lengths_are_read_as_they_were_written(rt: HostRuntime) {
    let big = Endianness::BigEndian;
    for (width, length, bytes) in LENGTHS {
        let mut context = big;
        let mut buffer = [9; 9];
        let mut writer = BufferCollector::new(&mut context, &mut buffer);
        assert_ok(&rt, write_as(width, length, &mut writer), ());
        let count = writer.finish();
        assert!(rt; count <= 9);
        let (_, encoding) = bytes.split_last().expect(&rt, "a byte that follows");
        assert_bytes(&rt, &buffer[..count], encoding);
        read_by_each(&rt, rt.alloc(), big, bytes, &ReadLength { width, length });
    }
}

#[test]
fn a_length_past_its_width_is_not_written(rt: HostRuntime) {
    let rows = [
        (Width::Unnamed, 0x1_0000_0000),
        (Width::U7, 128),
        (Width::U8, 256),
        (Width::U16, 65536),
        (Width::U32, 0x1_0000_0000),
    ];
    for (width, length) in rows {
        let mut context = Endianness::LittleEndian;
        let mut buffer = [9; 9];
        let mut writer = BufferCollector::new(&mut context, &mut buffer);
        let outcome = write_as(width, length, &mut writer);
        assert_refused(&rt, rt.alloc(), outcome, "OutOfRangeLength");
        assert_same(&rt, writer.finish(), 0);
    }
}

/// Reads what is refused as a length of seven bits.
struct ReadLongU7 {}

impl Probe for ReadLongU7 {
    fn read<L: AsSlice<u8> + Drop, R: LendingReader<L, Endianness>>(
        &self,
        rt: &impl Abort,
        alloc: Global,
        reader: &mut R,
    ) {
        assert_refused(rt, alloc, read_length_u7(reader), "OutOfRangeLength");
        assert_end(rt, read_length_u16(reader));
    }
}

#[test]
fn a_length_past_its_width_is_not_read(rt: HostRuntime) {
    let order = Endianness::LittleEndian;
    read_by_each(&rt, rt.alloc(), order, &[128, 1], &ReadLongU7 {});
}

/// What reading a constant answers.
#[derive(Clone, Copy)]
enum Answer {
    There,
    Differs,
    Ends,
}

/// Asserts that the outcome is an error that names the constant.
fn assert_expected(rt: &impl Abort, outcome: Result<(), Error>, expected: &[u8]) {
    let error = outcome.err().expect(rt, "it is another constant");
    match get_error_kind(&error) {
        ErrorKind::ExpectedConstant { constant } => assert_bytes(rt, constant, expected),
        _ => assert!(rt; false, "another error"),
    }
}

/// Reads a constant and, where it is there, the byte behind it.
#[derive(Drop)]
struct ReadConstant {
    constant: &'static [u8],
    answer: Answer,
}

impl Probe for ReadConstant {
    fn read<L: AsSlice<u8> + Drop, R: LendingReader<L, Endianness>>(
        &self,
        rt: &impl Abort,
        _alloc: Global,
        reader: &mut R,
    ) {
        let outcome = read_constant(reader, self.constant);
        match self.answer {
            Answer::There => {
                assert_ok(rt, outcome, ());
                assert_ok(rt, reader.read_u8(), 68);
            }
            Answer::Differs => assert_expected(rt, outcome, self.constant),
            Answer::Ends => assert_end(rt, outcome),
        }
    }
}

/// A constant that is read in two pieces.
const LONG: [u8; 70] = [7; 70];

#[test]
fn constants_are_read_as_they_are(rt: HostRuntime) {
    let rows: [(&'static [u8], &[u8], Answer); 7] = [
        (&[65, 66, 67], &[65, 66, 67, 68], Answer::There),
        (&[65, 66, 67], &[65, 66, 68], Answer::Differs),
        (&[65, 66, 67], &[66, 66, 67], Answer::Differs),
        (&[65, 66, 67], &[65, 66], Answer::Ends),
        (&[65, 66, 67], &[9], Answer::Ends),
        (&[], &[68], Answer::There),
        (&LONG, &[7; 69], Answer::Ends),
    ];
    for (constant, bytes, answer) in rows {
        let probe = ReadConstant { constant, answer };
        read_by_each(&rt, rt.alloc(), Endianness::BigEndian, bytes, &probe);
    }
}

#[test]
fn a_long_constant_is_compared_to_its_end(rt: HostRuntime) {
    let mut bytes = [7; 71];
    for (last, answer) in [(7, Answer::There), (8, Answer::Differs)] {
        bytes[69] = last;
        bytes[70] = 68;
        let probe = ReadConstant {
            constant: &LONG,
            answer,
        };
        read_by_each(&rt, rt.alloc(), Endianness::LittleEndian, &bytes, &probe);
    }
}

#[test]
fn lengths_are_the_same_where_they_are_equal(rt: HostRuntime) {
    assert!(rt; are_lengths_the_same(3, 3_u8));
    assert!(rt; !are_lengths_the_same(3, &4_u16));
    assert!(rt; are_lengths_the_same(3, &mut 3_u32));
    assert!(rt; !are_lengths_the_same(3, 2_usize));
    assert!(rt; are_lengths_the_same(65535, &65535_u16));
}

/// Peeks at an unsigned number of each width but the widest, and then reads one.
struct PeekUnsigned {}

impl Probe for PeekUnsigned {
    fn read<L: AsSlice<u8> + Drop, R: LendingReader<L, Endianness>>(
        &self,
        rt: &impl Abort,
        alloc: Global,
        reader: &mut R,
    ) {
        assert_ok(rt, reader.peek_u8(), 0xff);
        assert_ok(rt, reader.peek_u16(), 0xfffe);
        assert_ok(rt, reader.peek_u32(), 0xfffe_fdfc);
        assert_ok(rt, reader.peek_u64(), 0xfffe_fdfc_fbfa_f9f8);
        assert_ok(rt, reader.read_u64(), 0xfffe_fdfc_fbfa_f9f8);
        assert_refused(rt, alloc, reader.peek_u8(), "UnexpectedEndOfInput");
    }
}

/// Peeks at a signed number of each width but the widest, and then reads one.
struct PeekSigned {}

impl Probe for PeekSigned {
    fn read<L: AsSlice<u8> + Drop, R: LendingReader<L, Endianness>>(
        &self,
        rt: &impl Abort,
        _alloc: Global,
        reader: &mut R,
    ) {
        assert_ok(rt, reader.peek_i8(), -1);
        assert_ok(rt, reader.peek_i16(), -2);
        assert_ok(rt, reader.peek_i32(), -66052);
        assert_ok(rt, reader.peek_i64(), -283_686_952_306_184);
        assert_ok(rt, reader.read_i64(), -283_686_952_306_184);
    }
}

/// Peeks at a number of 16 bytes.
struct PeekWide {}

impl Probe for PeekWide {
    fn read<L: AsSlice<u8> + Drop, R: LendingReader<L, Endianness>>(
        &self,
        rt: &impl Abort,
        _alloc: Global,
        reader: &mut R,
    ) {
        assert_ok(rt, reader.peek_u128(), u128::MAX - 1);
        assert_ok(rt, reader.peek_i128(), -2);
        assert_ok(rt, reader.read_i128(), -2);
    }
}

/// Peeks twice at an integer of variable length, and then reads it.
struct PeekVarint {}

impl Probe for PeekVarint {
    fn read<L: AsSlice<u8> + Drop, R: LendingReader<L, Endianness>>(
        &self,
        rt: &impl Abort,
        _alloc: Global,
        reader: &mut R,
    ) {
        assert_ok(rt, reader.peek_u64_varint(), 16383);
        assert_ok(rt, reader.peek_u64_varint(), 16383);
        assert_ok(rt, reader.read_u64_varint(), 16383);
    }
}

#[test]
fn a_peek_answers_what_the_next_read_does(rt: HostRuntime) {
    let alloc = rt.alloc();
    let big = Endianness::BigEndian;
    let bytes = [0xff, 0xfe, 0xfd, 0xfc, 0xfb, 0xfa, 0xf9, 0xf8];
    read_by_each(&rt, alloc, big, &bytes, &PeekUnsigned {});
    read_by_each(&rt, alloc, big, &bytes, &PeekSigned {});
    let mut wide = [255; 16];
    wide[15] = 254;
    read_by_each(&rt, alloc, big, &wide, &PeekWide {});
    read_by_each(&rt, alloc, big, &[0xbf, 0xff], &PeekVarint {});
}
