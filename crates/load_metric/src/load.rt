// The load metric over blocks of metered hours, and the load posted, by the book's settings (01, Posting, Load; 02, 3/14).
ghost use Rattle.std.specs.Prelude.{◌≡◌};
ghost use Rattle.load_metric.specs.Load.{smallest_within};
ghost use Rattle.load_metric.specs.Metering.{metric_or_cause, load_or_cause};
ghost use Rattle.load_metric.specs.Levels.{ordered_hours, highest_kw, kws_of, level_below, Countable, MetricInputs};

use crate::block::Block;
use tariff::legal_settings::LegalSettings;

// Why a block list is refused.
#[derive(Clone, Copy, PartialEq, Eq)]
pub enum BlockError {
    // 6
    Broken,
    // 7
    Missing,
}

// A step down from a kW: the highest kW below it, 0 if there is none, and the hours at or above it, which lie above the lower one.
#[derive(Clone, Copy)]
pub(crate) struct Level {
    pub(crate) kw: u64,
    pub(crate) above: u64,
}

// The hours that blocks cover, where they ascend, do not overlap, have an hour or more and end by hour n. `from` is where the last one ended.
#[tactic(auto, using(crate::proofs::Blocks::blocks_left, crate::proofs::Blocks::no_blocks_left, crate::proofs::Ordered::ordered_broken, crate::proofs::Ordered::ordered_present), unfolding(crate::specs::Load::present_hours, tariff::specs::Sum::sum_over, crate::specs::Load::in_order))]
fn present_in_order(blocks: &[Block], n: u64) -> Option<u64>
    ensures { result ≡ ordered_hours n blocks.now }
{
    let mut from: u64 = 0;
    let mut present: u64 = 0;
    for b in blocks {
        if !b.stands_between(from, n) {
            return None;
        }
        from = b.first + b.hours;
        present += b.hours;
    }
    Some(present)
}

// The highest kW, 0 if there is none.
fn highest(blocks: &[Block]) -> u64
    ensures { result ≡ highest_kw (kws_of blocks.now) }
{
    blocks.iter().map(|b| b.kw).max().unwrap_or(0)
}

// One pass over the blocks: a kW below the cap may be the next one, and a block at or above the cap adds its hours.
#[tactic(auto, using(crate::proofs::Blocks::blocks_left, crate::proofs::Levels::from_within_present, crate::proofs::Levels::pass_below, crate::proofs::Levels::pass_from), unfolding(crate::specs::Levels::level_below, crate::specs::Levels::highest_below, crate::specs::Levels::hours_at_least, tariff::specs::Sum::sum_over))]
fn level_below(blocks: &[Block], cap: u64) -> Level
    requires { Countable blocks.now }
    ensures { result ≡ level_below cap blocks.now }
{
    let mut kw: u64 = 0;
    let mut above: u64 = 0;
    for b in blocks {
        if b.kw < cap {
            kw = kw.max(b.kw);
        } else {
            above += b.hours;
        }
    }
    Level { kw, above }
}

// The smallest kW among the blocks that is exceeded in no more than so many of the present hours. From the highest kW it goes down to the next lower one
// as long as that one is exceeded in few enough. Where all hours may be exceeded it ends at the lowest block's kW, which has all hours at or above it.
fn metric_of_blocks(blocks: &[Block], present: u64, exceedance_hours: u64) -> u64
    requires { MetricInputs blocks.now present }
    ensures { result ≡ smallest_within exceedance_hours blocks.now }
{
    let most_above = exceedance_hours.min(present.saturating_sub(1));
    let mut kw = highest(blocks);
    let mut below = level_below(blocks, kw);
    // Each pass goes down to a lower kW that some block has, and that block's hours, 1 or more, add to those above the next. So the passes
    // over the blocks are at most exceedance_hours + 2, for 2,208 hours at 1/200 13, however many blocks there are.
    while below.above <= most_above {
        kw = below.kw;
        below = level_below(blocks, kw);
    }
    kw
}

// The load metric of a block list over n hours. The blocks may have any numbers.
#[tactic(auto, using(crate::proofs::Refusals::broken_empty, crate::proofs::Refusals::broken_blocks_lem, crate::proofs::Refusals::present_within, crate::proofs::Refusals::missing_hours_lem, crate::proofs::Refusals::covering, crate::proofs::Refusals::metered))]
pub fn load_metric(settings: LegalSettings, blocks: &[Block], n: u64) -> Result<u64, BlockError>
    ensures { result ≡ metric_or_cause settings.settings blocks.now n }
{
    if blocks.is_empty() {
        return Err(BlockError::Broken);
    }
    let Some(present) = present_in_order(blocks, n) else {
        return Err(BlockError::Broken);
    };
    // The rule compares two products, which may not fit. The hours are whole, so this test says the same.
    let missing = n - present;
    if missing > settings.hours_missing(n) {
        return Err(BlockError::Missing);
    }
    let exceedance_hours = settings.hours_above_metric(present);
    Ok(metric_of_blocks(blocks, present, exceedance_hours))
}

// The load posted: the metric less the contract load, not below 0.
pub fn load_posted(
    settings: LegalSettings,
    blocks: &[Block],
    n: u64,
    contract: u64,
) -> Result<u64, BlockError>
    ensures { result ≡ load_or_cause settings.settings blocks.now n contract }
{
    Ok(load_metric(settings, blocks, n)?.saturating_sub(contract))
}
