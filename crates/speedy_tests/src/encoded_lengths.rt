//! Lists that lie where they were read, behind a length of another type than `u32` and of a length that a field tells.
ghost use Rattle.std.specs.Prelude.{codes};

use crate::asserting::{assert_bytes, assert_refused};
use speedy::context::{BigEndian, LittleEndian};
use speedy::encoded::EncodedList;
use speedy::lengths::{Length, WithLength};
use speedy::prefixed::{Prefixed, U7};
use speedy::{Readable, Writable};
use std::marker::PhantomData;
use std::process::Abort;

/// The length of `items`, which is the number.
struct ItemsLength {}

impl Length<u8> for ItemsLength {
    ghost is_told = { λ _. Unit {0} };

    ghost told = { λ n. n };

    ghost field = { codes "items" };

    fn length(count: u8) -> Option<usize> {
        Some(count as usize)
    }

    fn field() -> &'static str {
        "items"
    }
}

type Told<'a> = WithLength<ItemsLength, u8, EncodedList<'a, u16>>;

#[test]
fn a_list_stands_behind_a_length_of_a_byte(rt: HostRuntime) {
    let alloc = rt.alloc();
    let bytes = [2, 1, 0, 2, 0, 9];
    let list = <Prefixed<U7, EncodedList<u16>> as Readable<LittleEndian>>::read_from_buffer(
        alloc, &bytes,
    ).expect(&rt, "a list");
    assert!(&rt; list.value.len() == 2);
    assert_bytes(&rt, list.value.bytes(), &bytes[1..5]);
    let big = Writable::<BigEndian>::write_to_vec_with_ctx(&list, alloc, BigEndian {}).expect(
        &rt, "bytes",
    );
    assert_bytes(&rt, big.as_slice(), &[2, 0, 1, 0, 2]);
    let other = <Prefixed<U7, EncodedList<u16>> as Readable<LittleEndian>>::read_from_buffer(
        alloc,
        &[128, 0],
    );
    assert_refused(&rt, alloc, other, "OutOfRangeLength");
}

#[test]
fn a_field_tells_how_many_items_a_list_has(rt: HostRuntime) {
    let alloc = rt.alloc();
    let bytes = [2, 1, 0, 2, 0, 9];
    let read = <Told as Readable<LittleEndian>>::read_from_buffer(alloc, &bytes).expect(
        &rt, "a list",
    );
    assert!(&rt; read.before == 2 && read.value.len() == 2);
    assert_bytes(&rt, read.value.bytes(), &bytes[1..5]);
    let written = Writable::<LittleEndian>::write_to_vec(&read, alloc).expect(&rt, "bytes");
    assert_bytes(&rt, written.as_slice(), &bytes[..5]);
    let denied: Told = WithLength {
        before: 1,
        value: read.value,
        length: PhantomData,
    };
    let outcome = Writable::<LittleEndian>::write_to_vec(&denied, alloc);
    assert_refused(
        &rt,
        alloc,
        outcome,
        "LengthIsNotTheSameAsLengthAttribute { field_name: \"items\" }",
    );
}
