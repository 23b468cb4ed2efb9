//! The program that says what files and packets hold whose formats others define, and writes them again.
//!
//! usage: speedy_formats [all] [[FORMAT] FILE]..
//!
//! A FORMAT (zone, png, pcap, wav, zip, elf, rtps) says what the files after it are; else the first bytes of each tell
//! it. A FILE of `-` is standard input, of which `pcap -` holds one packet at a time in memory. With `all` lists are
//! printed whole, else their first five items. A file that is broken gets a line on standard error, which names its
//! broken part and the byte there, and the status is 1.
#![tactic(auto)]

mod archives;
mod captures;
mod elf;
mod images;
mod messages;
mod pcap;
mod png;
mod programs;
mod report;
mod request;
mod rtps;
mod show_elf;
mod show_pcap;
mod show_png;
mod show_rtps;
mod show_symbols;
mod show_wav;
mod show_zip;
mod show_zone;
mod sounds;
mod times;
mod tzif;
mod wav;
mod zip;
mod zones;

use report::Failure;
use request::{Asked, Format, Request, format_of, parse_request};
use show_elf::show_elf;
use show_pcap::{show_pcap, show_stream};
use show_png::show_png;
use show_rtps::show_rtps;
use show_wav::show_wav;
use show_zip::show_zip;
use show_zone::show_zone;
use speedy::device::Counted;
use std::alloc::Global;
use std::io::{self, BufWriter, Read, Write};
use std::process::ExitCode;
use std::{env, fs};

/// The bytes of a file, or of standard input.
fn read_file(rt: &HostRuntime, path: &str) -> io::Result<Vec<u8>> {
    if path != "-" {
        return fs::read(rt, path);
    }
    let mut bytes = Vec::new(rt.alloc());
    rt.stdin().read_to_end(&mut bytes)?;
    Ok(bytes)
}

/// Says what the bytes of a file hold.
fn show<W: Write + Drop>(
    alloc: Global,
    out: &mut W,
    format: Option<Format>,
    bytes: &[u8],
    most: usize,
) -> Result<(), Failure> {
    match format.or(format_of(bytes)) {
        Some(Format::Zone) => show_zone(alloc, out, bytes, most),
        Some(Format::Png) => show_png(alloc, out, bytes, most),
        Some(Format::Pcap) => show_pcap(alloc, out, bytes, most),
        Some(Format::Wav) => show_wav(alloc, out, bytes, most),
        Some(Format::Zip) => show_zip(alloc, out, bytes, most),
        Some(Format::Elf) => show_elf(alloc, out, bytes, most),
        Some(Format::Rtps) => show_rtps(alloc, out, bytes, most),
        None => Err(Failure::Unknown),
    }
}

/// Says what a file holds. Packets of standard input are shown as they come, where their format was said.
fn show_file<W: Write + Drop>(
    rt: &HostRuntime,
    out: &mut W,
    asked: &Asked,
    most: usize,
) -> Result<(), Failure> {
    let alloc = rt.alloc();
    let path = asked.path.as_str();
    if path == "-" && matches!(asked.format, Some(Format::Pcap)) {
        writeln!(out, "{path}: a stream")?;
        return show_stream(alloc, out, &mut Counted::new(rt.stdin()), most);
    }
    let bytes = match read_file(rt, path) {
        Ok(bytes) => bytes,
        Err(error) => return Err(Failure::Unread(error)),
    };
    writeln!(out, "{path}: {} bytes", bytes.len())?;
    show(alloc, out, asked.format, &bytes, most)
}

/// Says what each file holds, or why it is broken. Whether none is broken.
fn show_all(rt: &HostRuntime, request: &Request) -> io::Result<bool> {
    let mut out = BufWriter::new(rt.alloc(), io::writer(rt))?;
    let mut is_whole = true;
    for asked in &request.files {
        match show_file(rt, &mut out, asked, request.most) {
            Ok(()) => {}
            Err(Failure::Print(error)) => return Err(error),
            Err(failure) => {
                out.flush()?;
                eprintln!(rt; "{}: {failure}", asked.path)?;
                is_whole = false;
            }
        }
    }
    out.flush()?;
    Ok(is_whole)
}

fn run(rt: &HostRuntime) -> io::Result<bool> {
    let request = parse_request(rt.alloc(), env::args(rt)?)?;
    if request.files.is_empty() {
        eprintln!(rt; "usage: speedy_formats [all] [[FORMAT] FILE]..")?;
        return Ok(false);
    }
    show_all(rt, &request)
}

fn main(rt: HostRuntime) -> ExitCode {
    match run(&rt) {
        Ok(true) => ExitCode::SUCCESS,
        Ok(false) => ExitCode::FAILURE,
        Err(error) => {
            let _ = eprintln!(&rt; "{error}");
            ExitCode::FAILURE
        }
    }
}
