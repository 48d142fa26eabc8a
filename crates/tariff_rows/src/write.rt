// What lines of several kinds have. What a program writes is in no promise, so these state none: the stored output holds every line.
use std::io;

// Fields that are numbers, each with its comma.
pub fn fields(rt: &impl Print, numbers: &[u64]) -> io::Result<()> {
    for number in numbers {
        print!(rt; ",{number}")?;
    }
    Ok(())
}

// The line of a row whose settings no book can have, which no expected line is.
pub fn illegal(rt: &impl Print) -> io::Result<()> {
    println!(rt; "illegal settings")
}
