//! What functions that are exported to other languages call, by a view as `tools/derive --library` makes it.
ghost use Rattle.std.specs.Prelude.{◌≡◌};
ghost use Rattle.speedy.specs.Exports.{ShowsCharacter, ShowsFlag, ShowsText};

use speedy::exports::{
    Shown, UNKNOWN_ORDER, Unshown, View, Walk, character_number, character_shown, check,
    check_whole, flag_number, flag_shown, next, read, text_shown, write,
};
use std::alloc::Global;

/// A flag, a character and a text.
type Parts<'a> = (bool, char, &'a str);

/// What is shown of these.
#[repr(C)]
#[derive(Clone, Copy)]
struct PartsView<'a> {
    flag: u8,
    character: u32,
    text: &'a [u8],
}

impl<'a> View<Parts<'a>> for PartsView<'a> {
    ghost shows = { λ value view. (ShowsFlag value.0 view.flag)
        × (ShowsCharacter value.1 view.character) × (ShowsText value.2.now view.text.now) };

    fn of(value: &Parts<'a>) -> PartsView<'a> {
        PartsView {
            flag: flag_number(value.0),
            character: character_number(value.1),
            text: value.2.as_bytes(),
        }
    }
}

impl<'a> Shown<Parts<'a>> for PartsView<'a> {
    fn value(&self, _alloc: Global) -> Result<Parts<'a>, Unshown> {
        let t0 = flag_shown(self.flag)?;
        let t1 = character_shown(self.character)?;
        let t2 = text_shown(self.text)?;
        Ok((t0, t1, t2))
    }
}

/// In little endian: true, `A`, and `hi`.
const BYTES: [u8; 11] = [1, 65, 0, 0, 0, 2, 0, 0, 0, 104, 105];

const VIEW: PartsView<'static> = PartsView {
    flag: 1,
    character: 65,
    text: b"hi",
};

fn zeros() -> PartsView<'static> {
    PartsView {
        flag: 0,
        character: 0,
        text: &[],
    }
}

#[test]
fn bytes_are_checked_and_read(rt: HostRuntime) {
    let alloc = rt.alloc();
    let mut size = 0;
    assert!(&rt; check::<Parts>(alloc, &BYTES, 0, &mut size) == 0 && size == 11);
    assert!(&rt; check::<Parts>(alloc, &BYTES[..10], 0, &mut size) == 8);
    assert!(&rt; check::<Parts>(alloc, &BYTES, 2, &mut size) == UNKNOWN_ORDER);
    assert!(&rt; check_whole::<u16>(alloc, &BYTES[..2], 0) == 0);
    assert!(&rt; check_whole::<u16>(alloc, &BYTES, 0) != 0);
    let mut view = zeros();
    assert!(&rt; read::<Parts, PartsView>(alloc, &BYTES, 0, &mut view, &mut size) == 0);
    assert!(&rt; view.flag == 1 && view.character == 65 && view.text == b"hi".as_slice());
    let mut walk = Walk { left: &BYTES };
    assert!(&rt; next::<Parts, PartsView>(alloc, &mut walk, 0, &mut view) == 0);
    assert!(&rt; walk.left.is_empty());
}

#[test]
fn a_view_is_written(rt: HostRuntime) {
    let alloc = rt.alloc();
    let mut size = 0;
    let mut buffer = [9; 12];
    assert!(&rt; write::<Parts, PartsView>(alloc, &VIEW, 0, &mut buffer, &mut size) == 0);
    assert!(&rt; size == 11 && buffer[..11] == BYTES[..] && buffer[11] == 9);
    assert!(&rt; write::<Parts, PartsView>(alloc, &VIEW, 0, &mut buffer[..10], &mut size) == 11);
    assert!(&rt; size == 11);
    assert!(&rt;
        write::<Parts, PartsView>(alloc, &VIEW, 2, &mut buffer, &mut size) == UNKNOWN_ORDER
    );
    assert!(&rt; size == 0);
}

#[test]
fn what_shows_nothing_is_refused(rt: HostRuntime) {
    let alloc = rt.alloc();
    let mut size = 0;
    let mut buffer = [9; 12];
    let mut view = VIEW;
    view.flag = 2;
    assert!(&rt; write::<Parts, PartsView>(alloc, &view, 0, &mut buffer, &mut size) == 2);
    view = VIEW;
    view.character = 0xd800;
    assert!(&rt; write::<Parts, PartsView>(alloc, &view, 0, &mut buffer, &mut size) == 1);
    view = VIEW;
    view.text = b"\xff";
    assert!(&rt; write::<Parts, PartsView>(alloc, &view, 0, &mut buffer, &mut size) == 3);
    assert!(&rt; size == 0 && buffer == [9; 12]);
}
