// The shares of records that a migration moves, and the columns after they have moved (01, Migration).
ghost use Rattle.std.specs.Prelude.{◌≡◌, ℕ, ◌+◌, ◌*◌, ◌^◌, ◌<◌, ◌≤◌, slice_index};
ghost use Rattle.tariff.specs.Sizes.{max_holders, holder_pairs};
ghost use Rattle.tariff.specs.Sum.{sum_to};
ghost use Rattle.netting.specs.Migration.{share};
ghost use Rattle.netting.specs.Netting.{pair_at, ProductsFit, PartsFit, share_cells, transferred_entry, transferred_cells};

use tariff::sizes::{HOLDER_PAIRS, MAX_HOLDERS};

// The share of a record that goes with m of a load: 0 where m or the load is 0.
#[tactic(auto, unfolding(crate::specs::Migration::share))]
fn share_of(v: u64, m: u64, load: u64) -> u64
    requires { v * m < 2 ^ 64 }
    ensures { result ≡ share v m load }
{
    if m == 0 || load == 0 {
        return 0;
    }
    v * m / load
}

// The shares of a column of records, one to a holder, for each pair: every share is of the value before the migration.
pub fn shares_of(
    column: [u64; MAX_HOLDERS],
    m: [u64; HOLDER_PAIRS],
    load: [u64; MAX_HOLDERS],
) -> [u64; HOLDER_PAIRS]
    requires { ProductsFit column m }
    ensures { result ≡ share_cells column m load }
{
    std::array::from_fn(|k| {
        let loser = k / MAX_HOLDERS;
        share_of(column[loser], m[k], load[loser])
    })
}

// What one holder gives to the first n.
pub fn given_by(parts: &[u64; HOLDER_PAIRS], holder: usize, n: usize) -> u64
    requires { (holder < max_holders) × (n ≤ max_holders) × (sum_to n (λ j. pair_at parts.now holder j) < 2 ^ 64) }
    ensures { result ≡ sum_to n (λ j. pair_at parts.now holder j) }
{
    (0..n).map(|j| parts[holder * MAX_HOLDERS + j]).sum()
}

// What one holder gets from the first n.
fn gained_by(parts: &[u64; HOLDER_PAIRS], holder: usize, n: usize) -> u64
    requires { (holder < max_holders) × (n ≤ max_holders) × (sum_to n (λ j. pair_at parts.now j holder) < 2 ^ 64) }
    ensures { result ≡ sum_to n (λ j. pair_at parts.now j holder) }
{
    (0..n).map(|j| parts[j * MAX_HOLDERS + holder]).sum()
}

// What a holder has after the parts were transferred between the first n: one past them has what it had.
fn entry_after(column: &[u64; MAX_HOLDERS], parts: &[u64; HOLDER_PAIRS], n: usize, i: usize) -> u64
    requires { PartsFit n column.now parts.now × (i < max_holders) }
    ensures { result ≡ transferred_entry n column.now parts.now i }
{
    if n <= i {
        return column[i];
    }
    column[i] - given_by(parts, i, n) + gained_by(parts, i, n)
}

// The column after the parts were transferred between the first n holders.
pub fn transferred_column(
    column: [u64; MAX_HOLDERS],
    parts: &[u64; HOLDER_PAIRS],
    n: usize,
) -> [u64; MAX_HOLDERS]
    requires { PartsFit n column parts.now }
    ensures { result ≡ transferred_cells n column parts.now }
{
    std::array::from_fn(|i| entry_after(&column, parts, n, i))
}
