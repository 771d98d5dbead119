// Reads files and prints what reading answers. The arguments are pairs: a file's name, and in three digits how many rows are lent.
// tests/vectors.py writes the files, the arguments and what has to be printed.
#![tactic(auto)]

ghost use Rattle.std.specs.Prelude.{◌≤◌};

use format::{Reading, Refusal, Row, Rule};
use std::rt::Files;
use std::{env, fs, io};

// What each row of the room holds before a file is read.
const UNUSED: Row = Row {
    offset: 7,
    size: 7,
    depth: 7,
    boxtype: 7,
};

// Digit i of a word, the low four bits of any byte, and 0 where the word has none: `parse` takes digits alone.
fn digit(word: &str, i: usize) -> usize
    ensures { result ≤ 15 }
{
    word.as_bytes().get(i).map_or(0, |b| usize::from(b % 16))
}

fn number(word: &str) -> usize {
    digit(word, 0) * 100 + digit(word, 1) * 10 + digit(word, 2)
}

// What is printed of an accepted file: its totals, and a line for each row. It goes to the output at once, and so not through `text`.
fn answer(rt: &impl Print, r: &Reading, rows: &[Row]) -> io::Result<()> {
    print!(rt;
        " boxes={} containers={} mutable={}",
        r.boxes, r.containers, r.mdri
    )?;
    println!(rt;
        " rights={} free={} transaction={}",
        r.rights, r.free, r.transaction
    )?;
    for row in rows {
        println!(rt;
            "row={},{},{},{:08x}",
            row.offset, row.size, row.depth, row.boxtype
        )?;
    }
    Ok(())
}

// Says so if reading altered more of the room than the rows it counts.
fn check_room(rt: &impl Print, unused: &[Row]) -> io::Result<()> {
    if unused.iter().any(|row| *row != UNUSED) {
        println!(rt; "altered")?;
    }
    Ok(())
}

// Reads a file with only the first rows of the room lent, or with all of it if there are no more.
#[tactic(auto, using(crate::proofs::Laws::boxes_fit))]
fn report(rt: &impl Print, file: &[u8], lent: usize) -> io::Result<()> {
    let mut room = [UNUSED; 300];
    let lent = lent.min(room.len());
    let r = rows::read(file, &mut room[..lent]);
    let Refusal { rule, place } = r.refusal;
    print!(rt; " verdict={}", u32::from(rule))?;
    if rule != Rule::Done {
        println!(rt; " place={place}")?;
        return check_room(rt, &room);
    }
    let (used, unused) = room.split_at(r.boxes);
    answer(rt, &r, used)?;
    check_room(rt, unused)
}

// The file of that name, with as many rows as the word says. Of a longer file it reads 65,536 bytes.
fn one<R: Files + Print>(rt: &R, name: &str, word: &str) -> io::Result<()> {
    print!(rt; "{name}")?;
    let Ok(mut file) = fs::open(rt, name) else {
        return println!(rt; " cannot open");
    };
    let mut room = [0u8; 65536];
    let n = input::read_full(&mut file, &mut room)?;
    report(rt, &room[..n], number(word))
}

// Argument 0 is the program's own name. The last name may stand alone: its word is then empty.
fn main(rt: HostRuntime) -> io::Result<()> {
    let mut words = env::args(&rt)?.skip(1);
    while let Some(name) = words.next() {
        let word = words.next();
        one(&rt, &name, word.as_deref().unwrap_or(""))?;
    }
    Ok(())
}
