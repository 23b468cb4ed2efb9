//! What the types and callers of FORMATS.md answer to bytes of real files.
use crate::callers::assert_refused;
use crate::holding::{assert_bytes, assert_changes, assert_cuts};
use speedy::{Buffer, Error, LittleEndian};
use speedy_examples::capture::Packet;
use speedy_examples::dns_flags::{header_bytes, read_header};
use speedy_examples::locating::entries;
use speedy_examples::packets::{count_in_file, count_packets, packets};
use speedy_examples::ports::{packet_to, target_port};
use speedy_examples::sensor::Reading;
use speedy_examples::sensors::{load, save};
use speedy_examples::settings::{Settings, Tag, Theme};
use speedy_examples::{chunks, lumps};
use std::fs;

#[test]
fn readings_come_back_from_a_file(rt: HostRuntime) -> Result<(), Error> {
    let alloc = rt.alloc();
    let first = Reading {
        second: 1,
        value: -2,
    };
    let readings = vec![in alloc;
        first,
        Reading {
            second: 3,
            value: 4
        },
    ]?;
    save(&rt, alloc, "readings", &readings)?;
    assert!(rt; load(&rt, alloc, "readings")? == readings);
    Ok(())
}

// A query for one name, as `dig` sends it.
#[test]
fn flags_of_a_header_in_big_endian_are_bits(rt: HostRuntime) -> Result<(), Error> {
    let alloc = rt.alloc();
    let bytes = b"\xab\xcd\x01\x20\0\x01\0\0\0\0\0\x01";
    let mut header = read_header(alloc, bytes)?;
    assert!(rt; header.id == 0xabcd && header.questions == 1 && header.additional == 1);
    assert!(rt; !header.is_response() && header.opcode() == 0);
    assert!(rt; header_bytes(alloc, &header)?.as_slice() == bytes.as_slice());
    header.flags = 0xa800;
    header.set_response_code(3);
    assert!(rt; header.is_response() && header.opcode() == 5 && header.flags == 0xa803);
    Ok(())
}

#[test]
fn ports_keep_network_order_in_a_little_file(rt: HostRuntime) -> Result<(), Error> {
    let alloc = rt.alloc();
    let bytes = b"\x07\0\0\0\xc0\0\x01\xbb";
    assert!(rt; target_port(alloc, bytes)? == 443);
    assert!(rt; packet_to(alloc, 7, 443)?.as_slice() == bytes.as_slice());
    Ok(())
}

const LITTLE: &[u8] = b"\xd4\xc3\xb2\xa1\x02\0\x04\0\0\0\0\0\0\0\0\0\xff\xff\0\0\x01\0\0\0\
    \x10\0\0\0\x02\0\0\0\x02\0\0\0\x40\0\0\0\xaa\xbb\x11\0\0\0\x03\0\0\0\0\0\0\0\0\0\0\0";

const BIG: &[u8] = b"\xa1\xb2\xc3\xd4\0\x02\0\x04\0\0\0\0\0\0\0\0\0\0\xff\xff\0\0\0\x01\
    \0\0\0\x10\0\0\0\x02\0\0\0\x02\0\0\0\x40\xaa\xbb";

#[test]
fn packets_are_read_in_the_order_that_the_file_tells(rt: HostRuntime) -> Result<(), Error> {
    let alloc = rt.alloc();
    let in_little = packets(alloc, LITTLE)?;
    assert!(rt;
        in_little.len() == 2
            && in_little[0].second == 16
            && in_little[0].bytes.as_slice() == b"\xaa\xbb".as_slice()
    );
    let in_big = packets(alloc, BIG)?;
    assert!(rt; in_big.len() == 1 && in_big[0] == in_little[0]);
    let mut source = LITTLE;
    assert!(rt; count_packets(alloc, &mut source)? == 2);
    fs::write(&rt, "packets", LITTLE).expect(&rt, "a file");
    assert!(rt; count_in_file(&rt, alloc, "packets")? == 2);
    assert_refused(
        &rt,
        alloc,
        packets(alloc, b"GIF89a"),
        "Custom(\"no file of packets\")",
    );
    assert_refused(
        &rt,
        alloc,
        packets(alloc, &LITTLE[..41]),
        "UnexpectedEndOfInput",
    );
    Ok(())
}

#[test]
fn a_format_of_one_s_own_is_held_by_its_bytes(rt: HostRuntime) -> Result<(), Error> {
    let alloc = rt.alloc();
    let packet = Packet {
        second: 16,
        microsecond: 2,
        captured: 2,
        original: 64,
        bytes: Vec::from_array(alloc, [0xaa, 0xbb])?,
    };
    let bytes = &LITTLE[24..42];
    assert_bytes(&rt, alloc, &packet, bytes);
    assert_cuts::<Packet>(&rt, alloc, bytes);
    assert_changes::<Packet>(&rt, alloc, bytes);
    Ok(())
}

#[test]
fn a_table_stands_at_its_offset(rt: HostRuntime) -> Result<(), Error> {
    let alloc = rt.alloc();
    let bytes = b"PWAD\x01\0\0\0\x0f\0\0\0abc\x0c\0\0\0\x03\0\0\0MAP01\0\0\0";
    let table = lumps::lumps(alloc, bytes)?;
    assert!(rt; table.len() == 1 && &table[0].name == b"MAP01\0\0\0");
    assert!(rt; lumps::content(alloc, bytes, &table[0])? == b"abc".as_slice());
    fs::write(&rt, "archive", bytes.as_slice()).expect(&rt, "a file");
    assert!(rt; lumps::lumps_of_file(&rt, alloc, "archive")? == table);
    let cut = &bytes[..14];
    assert_refused(
        &rt,
        alloc,
        lumps::lumps(alloc, cut),
        "Custom(\"an offset past the end\")",
    );
    Ok(())
}

// An image of one pixel.
const IMAGE: &[u8] =
    b"\x89PNG\r\n\x1a\n\0\0\0\rIHDR\0\0\0\x01\0\0\0\x01\x08\x06\0\0\0\x1f\x15\xc4\x89\
    \0\0\0\x0bIDATx\x9cc`\0\x02\0\0\x05\0\x01z^\xab?\0\0\0\0IEND\xaeB`\x82";

#[test]
fn chunks_are_compared_with_their_checksums(rt: HostRuntime) -> Result<(), Error> {
    let alloc = rt.alloc();
    let found = chunks::chunks(alloc, IMAGE)?;
    assert!(rt; found.len() == 3 && &found[0].tag == b"IHDR" && found[1].content.len() == 11);
    let mut changed = Vec::new(alloc);
    changed.extend_from_slice(IMAGE)?;
    changed[20] = 7;
    assert_refused(
        &rt,
        alloc,
        chunks::chunks(alloc, &changed),
        "Custom(\"a checksum that is wrong\")",
    );
    Ok(())
}

#[test]
fn a_broken_entry_is_found(rt: HostRuntime) -> Result<(), Error> {
    let alloc = rt.alloc();
    let bytes = b"\x01\0\x02\0\0\0Hi\x02\0\x01\0\0\0\xff";
    let broken = entries(alloc, bytes)
        .err()
        .expect(&rt, "the second is no text");
    assert!(rt; broken.entry == 1 && broken.begins == 8 && broken.reached == 15);
    assert!(rt; entries(alloc, &bytes[..8]).expect(&rt, "one").len() == 1);
    let long = entries(alloc, b"\x01\0\xff\0\0\0Hi")
        .err()
        .expect(&rt, "its count is too long");
    assert!(rt; long.begins == 0 && long.reached == 6);
    let (outcome, count) = b"\x09\0\0\0\0"
        .as_slice()
        .read_with_length::<Theme>(alloc, LittleEndian {});
    assert_refused(&rt, alloc, outcome, "InvalidEnumVariant");
    assert!(rt; count == 4);
    Ok(())
}

// What bincode 1.3.3 wrote of this value.
const SETTINGS: &[u8] = b"\x03\0\0\0\0\0\0\0Ada\x01\x07\x02\0\0\0\0\0\0\0\x01\0\0\0\x02\x01\0\0\
    \x02\0\0\0\0\0\0\0\x02\0\0\0\0\0\0\0Hi\0\0\0\0\0\0\0\0\x01\0\0\0\x2c\x01";

#[test]
fn bytes_of_bincode_are_read(rt: HostRuntime) -> Result<(), Error> {
    let alloc = rt.alloc();
    let settings = Settings {
        name: String::from_str(alloc, "Ada")?,
        volume: Some(7),
        scores: Vec::from_array(alloc, [1, 258])?,
        tags: vec![in alloc;
            Tag {
                text: String::from_str(alloc, "Hi")?
            },
            Tag {
                text: String::new(alloc)
            },
        ]?,
        theme: Theme::Dark { contrast: 300 },
    };
    assert_bytes(&rt, alloc, &settings, SETTINGS);
    assert_cuts::<Settings>(&rt, alloc, SETTINGS);
    Ok(())
}
