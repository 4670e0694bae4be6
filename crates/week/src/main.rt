// The week in figures: day files from standard input, each behind two bytes with its length, high byte first, counted; a line for each refused
// file when it is met, then a line for each count above zero, then "input cut" where the input stops inside a file or its length.

#![tactic(auto)]

use day_file::MOST_BYTES;
use input::read_full;
use lines::{PAGE, put_counts, put_file};
use std::io::{self, Read};
use tally::{SLOTS, Tally, count_file};

// What stands next in the input: a file, or its end, which may cut a file or its length.
#[derive(Clone, Copy)]
enum Next<'a> {
    File(&'a [u8]),
    End { cut: bool },
}

// The next file, in the buffer. A length above 32,768 ends the run like an input that stops.
fn next_file<'a, R: Read>(input: &mut R, buf: &'a mut [u8; MOST_BYTES]) -> io::Result<Next<'a>> {
    let mut head = [0; 2];
    let got = read_full(input, &mut head)?;
    if got < 2 {
        return Ok(Next::End { cut: got != 0 });
    }
    let len = usize::from(u16::from_be_bytes(head));
    if MOST_BYTES < len || read_full(input, &mut buf[..len])? < len {
        return Ok(Next::End { cut: true });
    }
    Ok(Next::File(&buf[..len]))
}

// The tally with a file counted, or as it was and a line that says so.
fn take_file(rt: &impl Print, t: Tally, file: &[u8], place: u64) -> io::Result<Tally> {
    match count_file(t, file) {
        Ok(more) => Ok(more),
        Err(refusal) => {
            let mut page = [0; PAGE];
            let n = put_file(&mut page, place, refusal.reason.number());
            rt.write_all(&page[..n])?;
            Ok(t)
        }
    }
}

// All files; whether the input was cut.
fn run<R: Read>(rt: &impl Print, input: &mut R) -> io::Result<bool> {
    let mut sofar = Tally { counts: [0; SLOTS] };
    let mut buf = [0; MOST_BYTES];
    for place in 1..=u64::MAX {
        match next_file(input, &mut buf)? {
            Next::File(file) => sofar = take_file(rt, sofar, file, place)?,
            Next::End { cut } => {
                let mut page = [0; PAGE];
                let n = put_counts(&mut page, &sofar.counts);
                rt.write_all(&page[..n])?;
                return Ok(cut);
            }
        }
    }
    Ok(true)
}

fn main(rt: HostRuntime) -> io::Result<()> {
    let mut input = rt.reader();
    if run(&rt, &mut input)? {
        println!(rt; "input cut")?;
    }
    Ok(())
}
