// A nomination: who asks for how much on which path, and the opening and figures of the book that is asked.
ghost use Rattle.std.specs.Prelude.{◌≡◌, ◌+◌, ◌<◌, ◌&&◌, ℕ, eqb, ltb};
ghost use Rattle.slots.specs.Layout.{figure_in, figure_slots};

use records::setup::KeptOpening;
use slots::calendar::current_tier;
use slots::cells::read;
use slots::layout::{Figures, NOMINATED_SLOT};
use std::marker::Model;

#[derive(Drop)]
pub struct Nomination<'a> {
    pub opening: &'a KeptOpening,
    pub figures: &'a Figures,
    pub holder: u64,
    pub path: u64,
    pub kw: u64,
}

// Contracts see a nomination as its fields, just as they stand. The invariant is what every test of it needs: the arrays are a book's, the holder and the path
// are in it, and the kW is not above the highest. Whoever makes a nomination shows that, so the tests ask nothing of the one that they are given.
impl<'a> Model for Nomination<'a> {
    ghost use Rattle.nomination_tests.specs.Inputs.{NominationInputs};
    ghost use Rattle.nomination_tests.specs.Nominated.{Nominated};

    ghost Value = { Nominated };

    ghost view = { λ n. record { opening = n.opening.now; figures = n.figures.now; holder = n.holder; path = n.path; kw = n.kw } };

    ghost invariant = { λ n. NominationInputs n.opening.now n.figures.now n.holder n.path n.kw };
}

impl<'a> Nomination<'a> {
    ghost use Rattle.nomination_tests.specs.Nominated.{InNomination};

    // Causes 12 and 17: with kw more, a holder's nominations on a path in a tier exceed what stands in another slot there, number k of its kind.
    pub fn exceeds_in_tier(&self, tier: u64, slot: u64) -> bool
        requires { slot < figure_slots }
        ensures { (from count k : ℕ) → slot ≡ from + k → k < count → InNomination self.now (λ O L h p kw. result ≡ (eqb L.tiers.current_tier tier && ltb (figure_in self.now.figures from count 0 h p k) (L.tiers.nominated h p L.tiers.current_tier + kw))) }
    {
        let (f, h, p) = (self.figures, self.holder, self.path);
        let figure = read(f, h, p, slot);
        let wanted = read(f, h, p, NOMINATED_SLOT) + self.kw;
        current_tier(f) == tier && figure < wanted
    }
}
