// Runs the tariff's functions on stored numbers and writes a line for each row, to be held against the Rust model's answers.
// The numbers stand in *_rows.rt and class_lines.rt. The lines:
//
//   load,KW                 the load posted of a block list; load,no,N where it is refused: 6, 7, or 1 for slices of unequal length
//   eligible,S,P,F,H        S and P of a load, and its parts without and with ten-year evidence
//   limit,TIER,TERM,KW      the term of a tier or of the Long Term step, which is 10, and the limit in it
//   evidence,KW,K0,..,K3,T  what evidence gives, what it gives in each term, and what as ten-year evidence; evidence,no,3 where a field is
//                           outside its range
//   netting,I,J,M,..        loser, gainer and m of each pair whose m is not 0; netting,no where the class lines are unfit
//   given,G0,..,G7          what each holder gives of a column of records in a migration
//   transfer,V0,..,V7       the column after it
#![tactic(auto)]

ghost use Rattle.std.specs.Prelude.{◌≡◌, ◌<◌, ◌/◌, length};
ghost use Rattle.std.specs.Simd.{first_chunks};

mod class_lines;
mod evidence;
mod evidence_rows;
mod limit_rows;
mod limits;
mod load_rows;
mod loads;
mod netted;
mod netting_rows;
mod rows;
mod transfer_rows;
mod transfers;
mod write;

use std::io;

// The rows of a table, each of so many numbers.
fn rows_of<const N: usize>(table: &[u64]) -> &[[u64; N]]
    requires { 0 < N }
    ensures { result.now ≡ first_chunks N (length table.now / N) table.now }
{
    table.as_chunks::<N>().0
}

// The lines of columns: each row has its class lines, its records and its loads.
fn write_transfers(rt: &impl Print) -> io::Result<()> {
    let columns = rows_of(&transfer_rows::COLUMNS);
    let loads = rows_of(&transfer_rows::LOADS);
    rows_of(&transfer_rows::ROWS)
        .iter()
        .zip(columns)
        .zip(loads)
        .try_for_each(|((row, column), load)| transfers::write_row(rt, row, column, load))
}

fn main(rt: HostRuntime) -> io::Result<()> {
    rows_of(&load_rows::ROWS)
        .iter()
        .try_for_each(|row| loads::write_row(&rt, row))?;
    rows_of(&limit_rows::LOADS)
        .iter()
        .try_for_each(|row| limits::write_eligible(&rt, row))?;
    rows_of(&limit_rows::ROWS)
        .iter()
        .try_for_each(|row| limits::write_row(&rt, row))?;
    rows_of(&evidence_rows::ROWS)
        .iter()
        .try_for_each(|row| evidence::write_row(&rt, row))?;
    rows_of(&netting_rows::ROWS)
        .iter()
        .try_for_each(|row| netted::write_row(&rt, row))?;
    write_transfers(&rt)
}
