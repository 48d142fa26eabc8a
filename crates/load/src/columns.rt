// Load over columns: a load whose blocks' numbers stand in three lent slices, and is posted as the load of those blocks (01, Posting, Load).
ghost use Rattle.std.specs.Prelude.{◌≡◌, ◌≤◌, true, length};
ghost use Rattle.tariff.specs.Sizes.{max_hours};
ghost use Rattle.tariff.specs.Sum.{tabulate};
ghost use Rattle.load_metric.specs.Columns.{block_in, same_lengths_in};
ghost use Rattle.slots.specs.Steps.{ReachablePostings, PostingsStep, PostingsStepIf};
ghost use Rattle.load.specs.Loads.{load_of_columns};

use crate::load::load;
use crate::metered::{Metered, MeteredColumns};
use load_metric::block::Block;
use load_metric::columns::BlockColumns;
use records::refusal::Refusal;
use records::setup::KeptOpening;
use slots::layout::{Figures, Postings};
use tariff::sizes::MAX_HOURS;

// The most blocks of a load: each has an hour or more of at most 2,208.
const MAX_BLOCKS: usize = MAX_HOURS as usize;

// Up to so many blocks are put together in a small array, and up to so many in one of middle size, so that a short load does not pay for room that it does not need.
const FEW_BLOCKS: usize = 8;

const SOME_BLOCKS: usize = 64;

// The first blocks of columns, as many as there is room for; past their end stand zeros.
fn first_blocks<const N: usize>(columns: BlockColumns) -> [Block; N]
    ensures { result ≡ tabulate N (block_in columns.entry) }
{
    std::array::from_fn(|k| columns.block(k))
}

// Posts a load whose blocks stand in three slices of equal length, put together where there is room for them.
fn load_with_room<const N: usize>(
    o: &KeptOpening,
    f: &mut Figures,
    m: &mut Postings,
    h: u64,
    s: u64,
    metered: MeteredColumns,
) -> Result<(), Refusal>
    requires reachable { ReachablePostings o.now f.old m.old }
    requires even { same_lengths_in metered.columns ≡ true }
    requires room { length metered.columns.firsts.now ≤ N }
    requires memory { N ≤ max_hours }
    ensures { PostingsStep o.now f.old m.old (load_of_columns h s metered.entry) result f.new m.new }
{
    let blocks: [Block; N] = first_blocks(metered.columns);
    let counted = Metered {
        term: metered.term,
        contract: metered.contract,
        n: metered.n,
        blocks: &blocks[..metered.columns.firsts.len()],
    };
    load(o, f, m, h, s, counted)
}

// Posts the load of a holder at a sink in a term, whose blocks stand in three slices. Slices of unequal length are no blocks, and unreadable.
// More than 2,208 blocks are refused: by cause 2 where the holder or the sink is not in the book, else by 3.
pub fn load_columns(
    o: &KeptOpening,
    f: &mut Figures,
    m: &mut Postings,
    h: u64,
    s: u64,
    metered: MeteredColumns,
) -> Result<(), Refusal>
    requires { ReachablePostings o.now f.old m.old }
    ensures { PostingsStepIf (same_lengths_in metered.entry.columns) o.now f.old m.old (load_of_columns h s metered.entry) result f.new m.new }
{
    if !metered.columns.same_lengths() {
        return Err(Refusal::Unreadable);
    }
    let count = metered.columns.firsts.len();
    if MAX_BLOCKS < count {
        if o.unknown_holder(h) || o.unknown_sink(s) {
            return Err(Refusal::NotInBook);
        }
        return Err(Refusal::OutOfRange);
    }
    if count <= FEW_BLOCKS {
        return load_with_room::<FEW_BLOCKS>(o, f, m, h, s, metered);
    }
    if count <= SOME_BLOCKS {
        return load_with_room::<SOME_BLOCKS>(o, f, m, h, s, metered);
    }
    load_with_room::<MAX_BLOCKS>(o, f, m, h, s, metered)
}
