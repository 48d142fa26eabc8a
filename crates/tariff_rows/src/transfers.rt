// Columns of records: what each holder gives in a migration, and the column after it.
ghost use Rattle.std.specs.Prelude.{◌↔◌, IsTrue};
ghost use Rattle.tariff_rows.specs.Bounds.{Moderate, WithinLoad, GivenFits};

use crate::netted::netted;
use crate::write;
use netting::shares::{given_by, shares_of, transferred_column};
use std::io;

// Whether each number is below 2^31, so that no product of two of them wraps.
fn moderate(numbers: &[u64]) -> bool
    ensures { IsTrue result ↔ Moderate numbers.now }
{
    numbers.iter().all(|&n| n < 1 << 31)
}

// Whether no holder loses more than its load.
#[tactic(auto, unfolding(netting::specs::Migration::lost_by, netting::specs::Netting::holder_at))]
fn within_load(m: [u64; 64], load: [u64; 8]) -> bool
    requires { GivenFits m }
    ensures { IsTrue result ↔ WithinLoad m load }
{
    (0..8).all(|holder| given_by(&m, holder, 8) <= load[holder])
}

fn write_given(rt: &impl Print, parts: [u64; 64]) -> io::Result<()>
    requires { GivenFits parts }
{
    print!(rt; "given")?;
    for holder in 0..8 {
        print!(rt; ",{}", given_by(&parts, holder, 8))?;
    }
    println!(rt)
}

// Nothing is written of numbers that are too large or of losses that cause 9 refuses. No row has such.
#[tactic(auto, using(crate::proofs::Bounds::moderate_sums, crate::proofs::Bounds::moderate_products, crate::proofs::Bounds::shares_given))]
fn write_transfer(
    rt: &impl Print,
    column: [u64; 8],
    m: [u64; 64],
    load: [u64; 8],
) -> io::Result<()> {
    if moderate(&column) && moderate(&m) && within_load(m, load) {
        let parts = shares_of(column, m, load);
        write_given(rt, parts)?;
        let after = transferred_column(column, &parts, 8);
        print!(rt; "transfer")?;
        write::fields(rt, &after)?;
        println!(rt)?;
    }
    Ok(())
}

// The two lines of a row: class lines that are unfit move nothing.
pub fn write_row(
    rt: &impl Print,
    row: &[u64; 2],
    column: &[u64; 8],
    load: &[u64; 8],
) -> io::Result<()> {
    let [start, count] = *row;
    let m = netted(start, count).unwrap_or([0; 64]);
    write_transfer(rt, *column, m, *load)
}
