// What counts in a sum.
ghost use Rattle.std.specs.Prelude.{◌≡◌};
ghost use Rattle.tariff.specs.Sum.{when_true};

// kw where the test passes, else 0.
#[tactic(auto, unfolding(tariff::specs::Sum::when_true))]
pub fn when_true(test: bool, kw: u64) -> u64
    ensures { result ≡ when_true test kw }
{
    if test { kw } else { 0 }
}
