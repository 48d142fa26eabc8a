// Class lines: the m of each pair.
use crate::class_lines;
use crate::rows::part;
use netting::netting::ClassColumns;
use std::io;

// The netting of the class lines from a start on.
pub fn netted(start: u64, count: u64) -> Option<[u64; 64]> {
    let columns = ClassColumns {
        froms: part(&class_lines::FROMS, start, count),
        tos: part(&class_lines::TOS, start, count),
        classes: part(&class_lines::CLASSES, start, count),
        customers: part(&class_lines::CUSTOMERS, start, count),
        watts: part(&class_lines::WATTS, start, count),
    };
    columns.net()
}

// The loser, the gainer and m of a pair, unless m is 0.
fn write_pair(rt: &impl Print, pair: usize, m: u64) -> io::Result<()> {
    if m == 0 {
        return Ok(());
    }
    print!(rt; ",{},{},{m}", pair / 8, pair % 8)
}

fn write_pairs(rt: &impl Print, m: &[u64; 64]) -> io::Result<()> {
    for (pair, kw) in m.iter().enumerate() {
        write_pair(rt, pair, *kw)?;
    }
    Ok(())
}

// The line of a row.
pub fn write_row(rt: &impl Print, row: &[u64; 2]) -> io::Result<()> {
    let [start, count] = *row;
    print!(rt; "netting")?;
    match netted(start, count) {
        Some(m) => write_pairs(rt, &m)?,
        None => print!(rt; ",no")?,
    }
    println!(rt)
}
