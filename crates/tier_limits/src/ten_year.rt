// Ten-year evidence, which the Long Term step asks for (02, 1/14).
ghost use Rattle.std.specs.Prelude.{◌≡◌};
ghost use Rattle.tariff.specs.Sum.{when_true};
ghost use Rattle.tariff.specs.Terms.{is_long_term_step};
ghost use Rattle.ledger.specs.TenYear.{has_ten_year, ten_year_at, ten_year_sum};
ghost use Rattle.slots.specs.Steps.{InFigures};
ghost use Rattle.tier_limits.specs.Inputs.{HolderInputs, SourceInputs};

use records::setup::KeptOpening;
use records::sums::when_true;
use slots::cells::read;
use slots::coverage::covered_kw;
use slots::layout::{COVERAGE_SLOT, Figures, TEN_YEAR_SLOT};
use tariff::sizes::{LONG_TERM_STEP, TERMS};

// Whether a holder has ten-year evidence at a source, of either kind.
pub fn has_ten_year(o: &KeptOpening, f: &Figures, h: u64, s: u64) -> bool
    requires { SourceInputs o.now f.now h s }
    ensures { InFigures o.now f.now (λ O L. result ≡ has_ten_year L h s) }
{
    read(f, h, s, TEN_YEAR_SLOT) == 1 || read(f, h, s, TEN_YEAR_SLOT + 1) == 1
}

// What a holder's ten-year evidence comes to at a source: ownership and contract add.
fn ten_year_at(o: &KeptOpening, f: &Figures, h: u64, s: u64) -> u64
    requires { SourceInputs o.now f.now h s }
    ensures { InFigures o.now f.now (λ O L. result ≡ ten_year_at L h s) }
{
    let owned = read(f, h, s, TEN_YEAR_SLOT) == 1;
    let contracted = read(f, h, s, TEN_YEAR_SLOT + 1) == 1;
    let ownership = when_true(owned, covered_kw(f, h, s, COVERAGE_SLOT));
    let contract = when_true(contracted, covered_kw(f, h, s, COVERAGE_SLOT + TERMS));
    ownership + contract
}

// What it comes to over every source of the book.
fn ten_year_sum(o: &KeptOpening, f: &Figures, h: u64) -> u64
    requires { HolderInputs o.now f.now h }
    ensures { InFigures o.now f.now (λ O L. result ≡ ten_year_sum O L h) }
{
    (0..o.sources()).map(|s| ten_year_at(o, f, h, s)).sum()
}

// What a limit takes of it: all in the Long Term step, and nothing in another tier, where it is not summed.
pub fn ten_year_in(o: &KeptOpening, f: &Figures, tier: u64, h: u64) -> u64
    requires { HolderInputs o.now f.now h }
    ensures { InFigures o.now f.now (λ O L. result ≡ when_true (is_long_term_step tier) (ten_year_sum O L h)) }
{
    if tier != LONG_TERM_STEP {
        return 0;
    }
    ten_year_sum(o, f, h)
}
