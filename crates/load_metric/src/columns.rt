// A block list whose numbers stand in three lent slices, and its load metric (01, Posting, Load; 02, 3/14). It is the metric of the list of blocks
// that the slices are side by side; slices of unequal length are no blocks.
ghost use Rattle.std.specs.Prelude.{◌≡◌};
ghost use Rattle.std.specs.Bool.{then_some};
ghost use Rattle.std.specs.Option.{option_map};
ghost use Rattle.load_metric.specs.Load.{smallest_within};
ghost use Rattle.load_metric.specs.Metering.{metric_or_cause, load_or_cause};
ghost use Rattle.load_metric.specs.Levels.{ordered_hours, highest_kw, kws_of, level_below, Countable, MetricInputs};
ghost use Rattle.load_metric.specs.Columns.{SameLengthsIn, block_in, blocks_in, same_lengths_in, metric_in, posted_in};

use crate::block::Block;
use crate::load::{BlockError, Level};
use tariff::entries::entry_at;
use tariff::legal_settings::LegalSettings;

// A block list as three slices of any lengths: block k has the k-th number of each.
#[derive(Clone, Copy)]
pub struct BlockColumns<'a> {
    pub firsts: &'a [u64],
    pub hours: &'a [u64],
    pub kws: &'a [u64],
}

// A block list: columns of equal length, so that block k is there in each of them if it is in the first.
#[derive(Clone, Copy)]
struct BlockList<'a> {
    columns: BlockColumns<'a>,
    ghost same_lengths: { SameLengthsIn columns },
}

impl<'a> BlockColumns<'a> {
    // Whether no block lacks one of its three numbers.
    #[tactic(auto, unfolding(crate::specs::Columns::same_lengths))]
    pub fn same_lengths(self) -> bool
        ensures { result ≡ same_lengths_in self.entry }
    {
        self.firsts.len() == self.hours.len() && self.hours.len() == self.kws.len()
    }

    // Block k; past the end of a column its number is 0.
    pub fn block(self, k: usize) -> Block
        ensures { result ≡ block_in self.entry k }
    {
        Block {
            first: entry_at(self.firsts, k, 0),
            hours: entry_at(self.hours, k, 0),
            kw: entry_at(self.kws, k, 0),
        }
    }

    // The block list of these columns, if they are of equal length.
    #[tactic(auto, using(crate::proofs::ColumnLaws::same_lengths_lem))]
    fn blocks(self) -> Option<BlockList<'a>>
        ensures { option_map (λ blocks. blocks.columns) result ≡ then_some (same_lengths_in self.entry) self.entry }
    {
        if self.same_lengths() {
            Some(BlockList { columns: self })
        } else {
            None
        }
    }
}

impl<'a> BlockList<'a> {
    // The hours that the blocks cover, where they ascend, do not overlap, have an hour or more and end by hour n. `from` is where the last one ended.
    #[tactic(auto, using(crate::proofs::ColumnLaws::column_left, crate::proofs::ColumnLaws::no_columns_left, crate::proofs::Ordered::ordered_broken, crate::proofs::Ordered::ordered_present), unfolding(crate::specs::Load::present_hours, tariff::specs::Sum::sum_over, crate::specs::Load::in_order))]
    fn present_in_order(self, n: u64) -> Option<u64>
        ensures { result ≡ ordered_hours n (blocks_in self.entry.columns) }
    {
        let mut from: u64 = 0;
        let mut present: u64 = 0;
        for k in 0..self.columns.firsts.len() {
            let b = self.columns.block(k);
            if !b.stands_between(from, n) {
                return None;
            }
            from = b.first + b.hours;
            present += b.hours;
        }
        Some(present)
    }

    // The highest kW, 0 if there is none.
    fn highest(self) -> u64
        ensures { result ≡ highest_kw (kws_of (blocks_in self.entry.columns)) }
    {
        self.columns.kws.iter().copied().max().unwrap_or(0)
    }

    // One pass over the blocks: a kW below the cap may be the next one, and a block at or above the cap adds its hours.
    #[tactic(auto, using(crate::proofs::ColumnLaws::column_left, crate::proofs::ColumnLaws::no_columns_left, crate::proofs::Levels::from_within_present, crate::proofs::Levels::pass_below, crate::proofs::Levels::pass_from), unfolding(crate::specs::Levels::level_below, crate::specs::Levels::highest_below, crate::specs::Levels::hours_at_least, tariff::specs::Sum::sum_over))]
    fn level_below(self, cap: u64) -> Level
        requires { Countable (blocks_in self.columns) }
        ensures { result ≡ level_below cap (blocks_in self.entry.columns) }
    {
        let mut kw: u64 = 0;
        let mut above: u64 = 0;
        for k in 0..self.columns.firsts.len() {
            let b = self.columns.block(k);
            if b.kw < cap {
                kw = kw.max(b.kw);
            } else {
                above += b.hours;
            }
        }
        Level { kw, above }
    }

    // The smallest kW among the blocks that is exceeded in no more than so many of the present hours, as `metric_of_blocks` of load.rt finds it.
    fn metric_within(self, present: u64, exceedance_hours: u64) -> u64
        requires { MetricInputs (blocks_in self.columns) present }
        ensures { result ≡ smallest_within exceedance_hours (blocks_in self.entry.columns) }
    {
        let most_above = exceedance_hours.min(present.saturating_sub(1));
        let mut kw = self.highest();
        let mut below = self.level_below(kw);
        while below.above <= most_above {
            kw = below.kw;
            below = self.level_below(kw);
        }
        kw
    }

    // The load metric of the blocks over n hours. They may have any numbers.
    #[tactic(auto, using(crate::proofs::ColumnLaws::block_count, crate::proofs::Refusals::broken_empty, crate::proofs::Refusals::broken_blocks_lem, crate::proofs::Refusals::present_within, crate::proofs::Refusals::missing_hours_lem, crate::proofs::Refusals::covering, crate::proofs::Refusals::metered))]
    fn metric(self, settings: LegalSettings, n: u64) -> Result<u64, BlockError>
        ensures { result ≡ metric_or_cause settings.settings (blocks_in self.entry.columns) n }
    {
        if self.columns.firsts.is_empty() {
            return Err(BlockError::Broken);
        }
        let Some(present) = self.present_in_order(n) else {
            return Err(BlockError::Broken);
        };
        let missing = n - present;
        if missing > settings.hours_missing(n) {
            return Err(BlockError::Missing);
        }
        let exceedance_hours = settings.hours_above_metric(present);
        Ok(self.metric_within(present, exceedance_hours))
    }

    // The load posted: the metric less the contract load, not below 0.
    fn posted(self, settings: LegalSettings, n: u64, contract: u64) -> Result<u64, BlockError>
        ensures { result ≡ load_or_cause settings.settings (blocks_in self.entry.columns) n contract }
    {
        Ok(self.metric(settings, n)?.saturating_sub(contract))
    }
}

// The load metric of a block list in columns over n hours; nothing where the columns differ in length. Any numbers may stand in them.
#[tactic(auto, unfolding(crate::specs::Columns::metric_of_columns))]
pub fn load_metric_of_columns(
    settings: LegalSettings,
    columns: BlockColumns,
    n: u64,
) -> Option<Result<u64, BlockError>>
    ensures { result ≡ metric_in settings.settings columns.entry n }
{
    Some(columns.blocks()?.metric(settings, n))
}

// The load posted of a block list in columns: the metric less the contract load, not below 0.
#[tactic(auto, unfolding(crate::specs::Columns::posted_of_columns))]
pub fn load_posted_of_columns(
    settings: LegalSettings,
    columns: BlockColumns,
    n: u64,
    contract: u64,
) -> Option<Result<u64, BlockError>>
    ensures { result ≡ posted_in settings.settings columns.entry n contract }
{
    Some(columns.blocks()?.posted(settings, n, contract))
}
