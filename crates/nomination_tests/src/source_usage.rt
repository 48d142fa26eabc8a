// What a holder has verified of a source, and what it uses of it (01, Tiers, Nominate; 02, 2/14; causes 19 and 11).
ghost use Rattle.std.specs.Prelude.{◌≡◌};
ghost use Rattle.tariff.specs.Terms.{term_of};
ghost use Rattle.ledger.specs.Verification.{has_evidence, verified_kw, uses_same_evidence, used_before, source_usage};
ghost use Rattle.slots.specs.Steps.{InFigures};
ghost use Rattle.tier_limits.specs.Inputs.{HolderInputs, SourceInputs};
ghost use Rattle.nomination_tests.specs.Inputs.{UsageInputs};

use records::setup::KeptOpening;
use slots::calendar::current_tier;
use slots::coverage::{covered_kw, is_covered};
use slots::layout::{AWARDS_SLOT, COVERAGE_SLOT, Figures, NOMINATED_SLOT};
use slots::sums::sum_from_source;
use tariff::sizes::{LAST_SEASON_TIER, TERMS};
use tariff::terms::term_of;

// Whether a holder has evidence of a source for the open tier's term, of either kind, whatever it comes to.
pub fn has_evidence(o: &KeptOpening, f: &Figures, h: u64, s: u64) -> bool
    requires { SourceInputs o.now f.now h s }
    ensures { InFigures o.now f.now (λ O L. result ≡ has_evidence L h s (term_of L.tiers.current_tier)) }
{
    let ownership = COVERAGE_SLOT + term_of(current_tier(f));
    let contract = ownership + TERMS;
    is_covered(f, h, s, ownership) || is_covered(f, h, s, contract)
}

// What a holder has verified of a source for the open tier's term: ownership and contract add.
pub fn verified_kw(o: &KeptOpening, f: &Figures, h: u64, s: u64) -> u64
    requires { SourceInputs o.now f.now h s }
    ensures { InFigures o.now f.now (λ O L. result ≡ verified_kw L h s (term_of L.tiers.current_tier)) }
{
    let ownership = COVERAGE_SLOT + term_of(current_tier(f));
    let contract = ownership + TERMS;
    covered_kw(f, h, s, ownership) + covered_kw(f, h, s, contract)
}

// Whether the awards of tier n, before this tier, use the same evidence.
#[tactic(auto, unfolding(ledger::specs::Verification::uses_same_evidence))]
fn uses_same_evidence(tier: u64, n: u64) -> bool
    ensures { result ≡ uses_same_evidence tier n }
{
    1 <= n && (term_of(n) == term_of(tier) || n <= LAST_SEASON_TIER)
}

// What a holder's awards of the tiers before use of its evidence for a source in a tier. Awards of a tier that use other evidence are not summed.
fn used_before(o: &KeptOpening, f: &Figures, h: u64, s: u64, tier: u64) -> u64
    requires { UsageInputs o.now f.now h tier }
    ensures { InFigures o.now f.now (λ O L. result ≡ used_before O L tier h s) }
{
    (0..tier)
        .filter(|n| uses_same_evidence(tier, *n))
        .map(|n| sum_from_source(o, f, h, AWARDS_SLOT + n, s))
        .sum()
}

// What a holder uses of its evidence for a source in the open tier: its nominations, and the awards that use the same evidence.
pub fn source_usage(o: &KeptOpening, f: &Figures, h: u64, s: u64) -> u64
    requires { HolderInputs o.now f.now h }
    ensures { InFigures o.now f.now (λ O L. result ≡ source_usage O L L.tiers.current_tier h s) }
{
    let before = used_before(o, f, h, s, current_tier(f));
    sum_from_source(o, f, h, NOMINATED_SLOT, s) + before
}
