// Reads, writes and makes edges of ring lists, and prints what each call answers.
#![tactic(auto)]

ghost use Rattle.std.specs.Prelude.{◌≤◌, length};

use answers::{Answer, Refusal};
use console::Console;
use std::fmt;
use std::fmt::Write;

// A case's name, with the answer's number and value.
fn say(out: &mut Console, name: &str, given: Result<u64, Refusal>) -> fmt::Result {
    let Answer { number, value } = Answer::from(given);
    writeln!(out, "{name}: {number} {value}")
}

// The bytes of a file, in hexadecimal.
fn bytes(out: &mut Console, file: &[u8]) -> fmt::Result {
    for b in file {
        write!(out, " {:02x}", *b)?;
    }
    writeln!(out, "")
}

// The numbers of a list.
fn numbers(out: &mut Console, list: &[i32]) -> fmt::Result {
    for n in list {
        write!(out, " {}", *n)?;
    }
    writeln!(out, "")
}

// The worked example: its list, its edges, and its bytes again.
fn worked(out: &mut Console) -> fmt::Result {
    let mut list = [0i32; 12];
    let file = [1u8, 0, 2, 20, 0, 21, 10, 1, 2, 28, 4, 17, 12];
    say(out, "read", maskfile::read(&file, &mut list))?;
    numbers(out, &list)?;
    let mut made = [0i32; 16];
    say(out, "edges", ringedges::edges_of(&list, &mut made))?;
    numbers(out, &made)?;
    let mut back = [0u8; 13];
    say(out, "write", maskwriter::write(&list, &mut back))?;
    bytes(out, &back)
}

// Rooms that are one too short, and one too long.
fn rooms(out: &mut Console) -> fmt::Result {
    let file = [1u8, 0, 2, 20, 0, 21, 10];
    let mut short = [7i32; 5];
    say(out, "room for 5 numbers", maskfile::read(&file, &mut short))?;
    numbers(out, &short)?;
    let mut long = [7i32; 7];
    say(out, "room for 7 numbers", maskfile::read(&file, &mut long))?;
    numbers(out, &long)?;
    let list = &long[0..6];
    let mut made = [7i32; 7];
    say(
        out,
        "room for 7 numbers of edges",
        ringedges::edges_of(list, &mut made),
    )?;
    numbers(out, &made)?;
    let mut back = [7u8; 6];
    say(out, "room for 6 bytes", maskwriter::write(list, &mut back))?;
    bytes(out, &back)
}

// What reading a file with no room answers.
fn judge(out: &mut Console, name: &str, file: &[u8]) -> fmt::Result {
    say(out, name, maskfile::read(file, &mut []))
}

// Example 8.
fn stored(out: &mut Console) -> fmt::Result {
    let list = [0i32, 2, 100, 1073741824, -1, 0];
    let mut file = [0u8; 17];
    say(
        out,
        "stored 100 and 2^30",
        maskwriter::write(&list, &mut file),
    )?;
    bytes(out, &file)
}

// Example 9.
fn examples(out: &mut Console) -> fmt::Result {
    let file = [0x80u8, 0x00];
    judge(out, "80 00", &file)?;
    judge(out, "01", &[0x01u8])?;
    judge(out, "empty file", &file[0..0])
}

// A number that is not as it should be.
fn malformed(out: &mut Console) -> fmt::Result {
    judge(out, "01 80 00", &[0x01u8, 0x80, 0x00])?;
    judge(out, "minus zero", &[0x01u8, 0x00, 0x02, 0x01])?;
    judge(
        out,
        "four groups and the end",
        &[0x01u8, 0x80, 0x80, 0x80, 0x80],
    )?;
    judge(
        out,
        "fifth group continued",
        &[0x01u8, 0x80, 0x80, 0x80, 0x80, 0x80],
    )?;
    judge(out, "edition 2", &[0x02u8])
}

// Fills a list with one ring of layer 0, whose pairs are (0, 0), (1, 1) and so on, as many as there is room for.
fn ring(list: &mut [i32])
    requires { length list.old ≤ 10000 }
{
    if let [layer, count, pairs @ ..] = list {
        *layer = 0;
        *count = (pairs.len() / 2) as i32;
        for (i, pair) in pairs.chunks_exact_mut(2).enumerate() {
            pair.fill(i as i32);
        }
    }
}

// One ring of 4,096 pairs: written, read back and written again.
fn pairs_4096(out: &mut Console) -> fmt::Result {
    let mut list = [0i32; 8194];
    ring(&mut list);
    let mut file = [0u8; 8196];
    say(out, "write 4096 pairs", maskwriter::write(&list, &mut file))?;
    let mut back = [0i32; 8194];
    say(out, "read 4096 pairs", maskfile::read(&file, &mut back))?;
    let mut again = [0u8; 8196];
    say(
        out,
        "write them again",
        maskwriter::write(&back, &mut again),
    )?;
    if file == again {
        writeln!(out, "the same bytes")?;
    }
    let mut edges = [0i32; 16384];
    say(
        out,
        "edges of 4096 pairs",
        ringedges::edges_of(&list, &mut edges),
    )
}

// One ring of 4,097 pairs, and two rings of that many.
fn pairs_4097(out: &mut Console) -> fmt::Result {
    let mut list = [0i32; 8196];
    ring(&mut list);
    let mut file = [0u8; 1];
    let mut edges = [0i32; 1];
    say(out, "write 4097 pairs", maskwriter::write(&list, &mut file))?;
    say(
        out,
        "edges of 4097 pairs",
        ringedges::edges_of(&list, &mut edges),
    )?;
    let mut two = [0i32; 8198];
    let (most, rest) = two.split_at_mut(8192);
    ring(most);
    ring(rest);
    say(
        out,
        "write 4095 and 2 pairs",
        maskwriter::write(&two, &mut file),
    )?;
    judge(out, "read 4097 pairs", &[0x01u8, 0x00, 0x81, 0x20])
}

// Files of 49,152 and 49,153 bytes, all 1.
fn lengths(out: &mut Console) -> fmt::Result {
    let file = [1u8; 49153];
    judge(out, "49152 bytes", &file[0..49152])?;
    judge(out, "49153 bytes", &file)
}

fn run(out: &mut Console) -> fmt::Result {
    worked(out)?;
    rooms(out)?;
    stored(out)?;
    examples(out)?;
    malformed(out)?;
    pairs_4096(out)?;
    pairs_4097(out)?;
    lengths(out)
}

fn main() {
    let _ = run(&mut Console);
}
