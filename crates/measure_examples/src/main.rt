// The measure examples of document 01, and the edges of the two forms: one line for each, the text and then the number or the refusal.
#![tactic(auto)]

use say::{Answer, Hex, Out};
use std::io;

// `read`, the text, and what is read of it.
fn show(rt: &impl Print, text: &str) -> io::Result<()> {
    println!(rt; "read {text}: {}", Answer(measure::read(text.as_bytes())))
}

fn show_marked(rt: &impl Print, text: &str) -> io::Result<()> {
    println!(rt;
        "marked {text}: {}",
        Answer(measure::read_marked(text.as_bytes()))
    )
}

// `write`, the number, the answer and what is left in the room.
fn show_write(rt: &impl Print, n: u32, room: &mut [u8]) -> io::Result<()> {
    let answer = Answer(measure::write(n, room).map(|()| "done"));
    println!(rt; "write {n}: {answer}{}", Hex(room))
}

fn show_write_marked(rt: &impl Print, z: i32, room: &mut [u8]) -> io::Result<()> {
    let answer = Answer(measure::write_marked(z, room).map(|()| "done"));
    println!(rt; "write marked {z}: {answer}{}", Hex(room))
}

// The examples of document 01 come first.
fn read_examples(rt: &impl Print) -> io::Result<()> {
    for text in [
        "012,5", "12,50", "012.5", "012,3", "000,0", "999,5", "", "012,", "012,5 ", "012,500",
        "-000,5", " 12,5", "0125", "1,250",
    ] {
        show(rt, text)?;
    }
    Ok(())
}

fn read_marked_examples(rt: &impl Print) -> io::Result<()> {
    for text in [
        "-000,5", "-000,0", "+000,0", "+999,5", "-999,5", "012,5", "", "+012,", "+012,50",
    ] {
        show_marked(rt, text)?;
    }
    Ok(())
}

// Each room holds something else before.
fn write_examples(rt: &impl Print) -> io::Result<()> {
    let mut wide = [255; 7];
    for n in [25, 0, 1999, 2000] {
        show_write(rt, n, &mut wide)?;
    }
    show_write(rt, 25, &mut [255; 5])?;
    show_write(rt, 25, &mut [255; 4])
}

fn write_marked_examples(rt: &impl Print) -> io::Result<()> {
    let mut wide = [255; 7];
    for z in [-1, 0, 1999, -1999, -2000, i32::MIN] {
        show_write_marked(rt, z, &mut wide)?;
    }
    show_write_marked(rt, 25, &mut [255; 5])
}

fn examples(rt: &impl Print) -> io::Result<()> {
    read_examples(rt)?;
    read_marked_examples(rt)?;
    write_examples(rt)?;
    write_marked_examples(rt)
}

// What cannot be printed is left out.
fn main() {
    let _ = examples(&Out);
}
