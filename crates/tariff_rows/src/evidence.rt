// Evidence: what it gives, and in which term.
use source_evidence::evidence::Entry;
use source_evidence::filing::{Filing, OutOfRange};
use std::io;
use tariff::sizes::TERMS;

fn write_entry(rt: &impl Print, e: Entry) -> io::Result<()> {
    print!(rt; ",{}", e.evidence.kw())?;
    for term in 0..TERMS {
        print!(rt; ",{}", e.kw(term))?;
    }
    print!(rt; ",{}", if e.is_ten_year() { e.kw(0) } else { 0 })
}

// The line of a row.
pub fn write_row(rt: &impl Print, row: &[u64; 6]) -> io::Result<()> {
    let [kind, capacity, right, first, last, mark] = *row;
    let filing = Filing {
        kind,
        capacity,
        right,
        first,
        last,
        mark,
    };
    print!(rt; "evidence")?;
    match filing.filed() {
        Ok(filed) => write_entry(rt, filed.entry)?,
        Err(OutOfRange) => print!(rt; ",no,3")?,
    }
    println!(rt)
}
