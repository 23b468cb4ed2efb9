//! Writers: each of their calls once, and their errors.
use crate::asserting::{assert_bytes, assert_ok, assert_refused, assert_same};
use speedy::context::{Context, LittleEndian};
use speedy::endianness::Endianness;
use speedy::private::write_length;
use speedy::readable::BufferReader;
use speedy::reader::LendingReader;
use speedy::writable::{BufferCollector, SizeCalculatorCollector, Writable};
use speedy::writer::Writer;
use std::process::Abort;

/// A number and counted values, by any writer.
fn write_both<C: Context, W: Writer<C>, T: Writable<C>>(
    number: u8,
    items: &[T],
    writer: &mut W,
) -> Result<(), C::Error> {
    writer.write_value(&number)?;
    write_length(items.len(), writer)?;
    writer.write_slice(items)
}

/// Writes 1 as one byte, 2 as two and 3 as four, and the bytes 4 and 5.
fn write_numbers(rt: &impl Abort, writer: &mut impl Writer<Endianness>) {
    assert_ok(rt, writer.write_u8(1), ());
    assert_ok(rt, writer.write_u16(2), ());
    assert_ok(rt, writer.write_u32(3), ());
    assert_ok(rt, writer.write_bytes(&[4, 5]), ());
}

/// Writes 6 and 7 as one byte each, and 8 as two.
fn write_values(rt: &impl Abort, writer: &mut impl Writer<Endianness>) {
    assert_ok(
        rt,
        <u8 as Writable<Endianness>>::write_many(&[6, 7], writer),
        (),
    );
    assert_ok(rt, 8_u16.write_to(writer), ());
}

/// Writes an unsigned number of each type that is not written elsewhere.
fn write_wide_numbers(rt: &impl Abort, writer: &mut impl Writer<Endianness>) {
    assert_ok(rt, writer.write_u64(1), ());
    assert_ok(rt, writer.write_u128(2), ());
}

/// Writes a signed number of each type.
fn write_signed_numbers(rt: &impl Abort, writer: &mut impl Writer<Endianness>) {
    assert_ok(rt, writer.write_i8(-2), ());
    assert_ok(rt, writer.write_i16(-3), ());
    assert_ok(rt, writer.write_i32(-4), ());
    assert_ok(rt, writer.write_i64(-5), ());
    assert_ok(rt, writer.write_i128(-6), ());
}

#[test]
fn wide_numbers_are_written(rt: HostRuntime) {
    let mut context = Endianness::BigEndian;
    let mut buffer = [9; 25];
    let mut writer = BufferCollector::new(&mut context, &mut buffer);
    write_wide_numbers(&rt, &mut writer);
    assert_same(&rt, writer.finish(), 24);
    let expected = [
        0, 0, 0, 0, 0, 0, 0, 1, 0, 0, 0, 0, 0, 0, 0, 0, 0, 0, 0, 0, 0, 0, 0, 2, 9,
    ];
    assert_bytes(&rt, &buffer, &expected);
}

#[test]
fn signed_numbers_are_written(rt: HostRuntime) {
    let mut context = Endianness::BigEndian;
    let mut buffer = [9; 32];
    let mut writer = BufferCollector::new(&mut context, &mut buffer);
    write_signed_numbers(&rt, &mut writer);
    assert_same(&rt, writer.finish(), 31);
    let expected = [
        254, 255, 253, 255, 255, 255, 252, 255, 255, 255, 255, 255, 255, 255, 251, 255, 255, 255,
        255, 255, 255, 255, 255, 255, 255, 255, 255, 255, 255, 255, 250, 9,
    ];
    assert_bytes(&rt, &buffer, &expected);
}

#[test]
fn signed_numbers_are_read(rt: HostRuntime) {
    let mut reader = BufferReader::new(rt.alloc(), Endianness::BigEndian, &[254, 255, 253]);
    assert_ok(&rt, reader.read_i8(), -2);
    assert_ok(&rt, reader.read_i16(), -3);
}

/// Writes 10, and a vector of 11 alone, in the other order.
fn write_in_other_order(rt: &impl Abort, writer: &mut impl Writer<Endianness>) {
    *writer.context_mut() = Endianness::BigEndian;
    assert_same(rt, *writer.context(), Endianness::BigEndian);
    assert_ok(rt, write_both(10, &[11_u16], writer), ());
}

#[test]
fn a_writer_puts_its_bytes_in_turn(rt: HostRuntime) {
    let mut context = Endianness::LittleEndian;
    let mut buffer = [9; 24];
    let mut writer = BufferCollector::new(&mut context, &mut buffer);
    write_numbers(&rt, &mut writer);
    write_values(&rt, &mut writer);
    write_in_other_order(&rt, &mut writer);
    let outcome = writer.write_bytes(&[0; 9]);
    assert_refused(&rt, rt.alloc(), outcome, "UnexpectedEndOfOutputBuffer");
    assert_same(&rt, writer.finish(), 20);
    let expected = [
        1, 2, 0, 3, 0, 0, 0, 4, 5, 6, 7, 8, 0, 10, 0, 0, 0, 1, 0, 11, 9, 9, 9, 9,
    ];
    assert_bytes(&rt, &buffer, &expected);
    assert_same(&rt, context, Endianness::BigEndian);
}

#[test]
fn a_writer_says_how_much_fits(rt: HostRuntime) {
    let mut context = Endianness::LittleEndian;
    let mut buffer = [9; 24];
    let mut writer = BufferCollector::new(&mut context, &mut buffer);
    assert_same(&rt, writer.endianness(), Endianness::LittleEndian);
    assert_same(&rt, writer.can_write_at_least(24), Some(true));
    assert_same(&rt, writer.can_write_at_least(25), Some(false));
    assert_ok(&rt, writer.write_bytes_before(&[1], 23), ());
    assert_same(&rt, writer.finish(), 1);
}

// Counts bytes where the writer only counts, and says whether it did.
fn count<W: Writer<Endianness>>(size: usize, writer: &mut W) -> (bool, bool) {
    let counted = writer.count_bytes(size);
    (W::counts(), counted.is_some_and(|outcome| outcome.is_ok()))
}

#[test]
fn bytes_are_counted_where_none_are_kept(rt: HostRuntime) {
    let mut context = Endianness::LittleEndian;
    let mut counter = SizeCalculatorCollector::new(&mut context);
    assert_same(&rt, count(usize::MAX, &mut counter), (true, true));
    assert_same(&rt, count(1, &mut counter), (true, false));
    assert_same(&rt, counter.finish(), usize::MAX);
    let mut buffer = [9; 2];
    let mut writer = BufferCollector::new(&mut context, &mut buffer);
    assert_same(&rt, count(1, &mut writer), (false, false));
    assert_same(&rt, writer.finish(), 0);
}

#[test]
fn a_counter_says_how_much_fits(rt: HostRuntime) {
    let mut context = Endianness::BigEndian;
    let mut counter = SizeCalculatorCollector::new(&mut context);
    assert_same(&rt, counter.can_write_at_least(usize::MAX), Some(true));
    assert_ok(&rt, write_both(10, &[11_u16], &mut counter), ());
    assert_same(&rt, counter.can_write_at_least(usize::MAX), Some(false));
    assert_same(&rt, counter.finish(), 7);
}

#[test]
fn a_counter_counts_what_it_is_given(rt: HostRuntime) {
    let mut context = Endianness::BigEndian;
    let mut counter = SizeCalculatorCollector::new(&mut context);
    assert_ok(&rt, write_length(3, &mut counter), ());
    assert_ok(&rt, counter.write_u16(1), ());
    assert_same(&rt, *counter.context(), Endianness::BigEndian);
    assert_same(&rt, counter.finish(), 6);
}

#[test]
fn a_buffer_is_written_at_its_front(rt: HostRuntime) {
    let mut buffer = [9; 8];
    let outcome = Writable::<LittleEndian>::write_to_buffer(&5_u32, &mut buffer);
    assert_ok(&rt, outcome, ());
    assert_bytes(&rt, &buffer, &[5, 0, 0, 0, 9, 9, 9, 9]);
}

#[test]
fn a_buffer_that_is_too_short_is_not_written(rt: HostRuntime) {
    let mut short = [9];
    let outcome = Writable::<LittleEndian>::write_to_buffer(&2_u16, &mut short);
    let kind = "OutputBufferIsTooSmall { actual_size: 1, expected_size: 2 }";
    assert_refused(&rt, rt.alloc(), outcome, kind);
    assert_bytes(&rt, &short, &[9]);
}
