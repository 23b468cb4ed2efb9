//! The first calls, in one test.
use speedy::{Error, LittleEndian, Readable, Writable};

#[test]
fn a_list_of_names(rt: HostRuntime) -> Result<(), Error> {
    let alloc = rt.alloc();
    let names = vec![in alloc;
        String::from_str(alloc, "Ada")?,
        String::from_str(alloc, "Bo")?,
    ]?;
    let bytes = Writable::<LittleEndian>::write_to_vec(&names, alloc)?;
    assert!(rt; bytes.as_slice() == b"\x02\0\0\0\x03\0\0\0Ada\x02\0\0\0Bo".as_slice());
    let again = <Vec<String> as Readable<LittleEndian>>::read_from_buffer(alloc, &bytes)?;
    assert!(rt; again == names);
    Ok(())
}
