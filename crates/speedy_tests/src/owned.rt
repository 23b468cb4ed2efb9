//! References are encoded as their content.
use crate::asserting::assert_ok_items;
use speedy::endianness::Endianness;
use speedy::writable::Writable;

#[test]
fn references_are_written_as_what_they_borrow(rt: HostRuntime) {
    let order = Endianness::BigEndian;
    let mut number = 2_u16;
    let written = <&u16 as Writable<Endianness>>::write_to_vec_with_ctx(
        &&number,
        rt.alloc(),
        order,
    );
    assert_ok_items(&rt, written, &[0, 2]);
    let written = <&mut u16 as Writable<Endianness>>::write_to_vec_with_ctx(
        &&mut number,
        rt.alloc(),
        order,
    );
    assert_ok_items(&rt, written, &[0, 2]);
}
