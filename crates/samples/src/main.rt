// Runs the samples of the specification, and the published examples that stand in the file stdin, and prints what comes out; the file stdout has what
// must come out.

#![tactic(auto)]

use dictionary::Field;
use header::Header;
use input::read_full;
use std::io;
use text_reader::TextRead;

// The most codewords that a symbol has.
const MOST_CODEWORDS: usize = 1558;

// A control character is printed as its number in brackets, as the specification writes it.
fn show_text(rt: &impl Print, text: &[u8]) -> io::Result<()> {
    for &c in text {
        if c < 32 {
            print!(rt; "({c})")?;
        } else {
            rt.write_all(&[c])?;
        }
    }
    Ok(())
}

fn show_codewords(rt: &impl Print, codewords: &[u8]) -> io::Result<()> {
    for w in codewords {
        print!(rt; "{w} ")?;
    }
    Ok(())
}

fn read(rt: &impl Print, codewords: &[u8]) -> io::Result<()> {
    let mut text = [0u8; refusal::LIMIT];
    match symbol_reader::read_symbol(codewords, &mut text) {
        Ok(read) => {
            print!(rt; "is ")?;
            if let Some(shown) = text.get(..read.length) {
                show_text(rt, shown)?;
            }
            println!(rt; ", codewords before padding: {}", read.used)
        }
        Err(w) => println!(rt; "{w}"),
    }
}

fn read_shown(rt: &impl Print, codewords: &[u8]) -> io::Result<()> {
    show_codewords(rt, codewords)?;
    read(rt, codewords)
}

// 230 and 254 in turn, the most codewords that a symbol has: each reader hands the rest to the other at once.
fn latches() -> [u8; MOST_CODEWORDS] {
    let mut codewords = [230u8; MOST_CODEWORDS];
    for pair in codewords.chunks_exact_mut(2) {
        pair[1] = 254;
    }
    codewords
}

// A text in a symbol of at most the largest size.
fn write(rt: &impl Print, text: &[u8], largest: usize) -> io::Result<()> {
    let mut work = [0u16; 8192];
    let mut symbol = [0u8; MOST_CODEWORDS];
    rt.write_all(text)?;
    print!(rt; ", largest size {largest}: ")?;
    match symbol_writer::write_symbol(text, largest, &mut work, &mut symbol) {
        Ok(written) => {
            if let Some(shown) = symbol.get(..written.capacity) {
                show_codewords(rt, shown)?;
            }
            println!(rt; "codewords before padding: {}", written.used)
        }
        Err(w) => println!(rt; "{w}"),
    }
}

fn symbols_written(rt: &impl Print) -> io::Result<()> {
    println!(rt; "Symbols written")?;
    write(rt, b"", MOST_CODEWORDS)?;
    write(rt, b"123456", MOST_CODEWORDS)?;
    write(rt, b"ABC", MOST_CODEWORDS)?;
    write(rt, b"AB", MOST_CODEWORDS)?;
    write(rt, b"ABCD", MOST_CODEWORDS)?;
    write(rt, b"AIMAIMAIM", MOST_CODEWORDS)?;
    write(rt, b"ABCD", 3)?;
    write(rt, b"ABCD", 4)
}

fn symbols_read(rt: &impl Print) -> io::Result<()> {
    println!(rt; "Symbols read")?;
    read_shown(rt, &[230, 87, 158])?;
    read_shown(rt, &[230, 89, 217])?;
    read_shown(rt, &[230, 250, 0])?;
    read_shown(rt, &[230, 250, 1])?;
    read_shown(rt, &[230, 0, 0])?;
    read_shown(rt, &[230, 89, 218])?;
    read_shown(rt, &[66, 67, 68, 129])
}

// Row, start and length of each field.
fn show_fields(rt: &impl Print, fields: &[Field]) -> io::Result<()> {
    for f in fields {
        print!(rt; " {}/{}/{}", f.row, f.start, f.length)?;
        if f.cut {
            print!(rt; "/cut")?;
        }
    }
    Ok(())
}

fn show_conformity(rt: &impl Print, h: Header, fields: &[Field]) -> io::Result<()> {
    let [type0, type1] = h.doctype;
    match conformity::conforms(type0, type1, fields) {
        Ok(()) => println!(rt; "conforms"),
        Err(w) => println!(rt; "{w}"),
    }
}

fn show_message(rt: &impl Print, read: TextRead) -> io::Result<()> {
    let h = read.header;
    print!(rt; "accepted, days {} and {}", h.issue_day, h.signing_day)?;
    print!(rt;
        ", signed {}, signature {}, fields",
        read.signed_length,
        read.signature.len()
    )?;
    show_fields(rt, read.fields.as_slice())?;
    print!(rt; "; ")?;
    show_conformity(rt, h, read.fields.as_slice())
}

fn show_text_read(rt: &impl Print, text: &[u8]) -> io::Result<()> {
    match text_reader::read_text(text, refusal::MOST_FIELDS) {
        Ok(read) => show_message(rt, read),
        Err(w) => println!(rt; "{w}"),
    }
}

// A text a line.
fn published(rt: &(impl Print + Input)) -> io::Result<()> {
    println!(rt; "Published examples")?;
    let mut all = [0u8; 65536];
    let mut input = rt.reader();
    let n = read_full(&mut input, &mut all)?;
    for line in all[..n].split_inclusive(|&c| c == b'\n') {
        show_text_read(rt, line.strip_suffix(b"\n").unwrap_or(line))?;
    }
    Ok(())
}

fn main(rt: HostRuntime) -> io::Result<()> {
    symbols_written(&rt)?;
    symbols_read(&rt)?;
    print!(rt; "1558 codewords, 230 254 in turn: ")?;
    read(&rt, &latches())?;
    published(&rt)
}
