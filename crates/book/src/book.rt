// The book: its opening, and its figures, what was posted and the evidence filed, in flat arrays.
ghost use Rattle.std.specs.Prelude.{◌≡◌};

use records::refusal::Refusal;
use records::setup::KeptOpening;
use slots::layout::{EVIDENCE_COUNT, Figures, Postings};
use source_evidence::evidence::Entry;
use std::marker::Model;

#[derive(Clone, Copy)]
pub struct Book {
    pub(crate) opening: KeptOpening,
    pub(crate) figures: Figures,
    pub(crate) posted: Postings,
    pub(crate) evidence: [Entry; EVIDENCE_COUNT],
}

// Contracts see a book as its opening and its arrays, just as they stand. The invariant is what makes arrays a book (01, The book): a legal opening and a list of calls lead to
// them. Whoever makes a book shows that, so the methods ask nothing of the one they are called on.
impl Model for Book {
    ghost use Rattle.slots.specs.Steps.{Reachable};
    ghost use Rattle.book.specs.BookArrays.{BookArrays};

    ghost Value = { BookArrays };

    ghost view = { λ b. record { opening = b.opening; figures = b.figures; posted = b.posted; evidence = b.evidence } };

    ghost inverse = { λ b. record { opening = b.opening; figures = b.figures; posted = b.posted; evidence = b.evidence } };

    ghost invariant = { λ b. Reachable b.opening b.figures b.posted b.evidence };
}

// What a book keeps, to be read.
impl Book {
    pub fn opening(&self) -> &KeptOpening
        ensures { result.now ≡ self.now.opening }
    {
        &self.opening
    }

    pub fn figures(&self) -> &Figures
        ensures { result.now ≡ self.now.figures }
    {
        &self.figures
    }

    pub fn posted(&self) -> &Postings
        ensures { result.now ≡ self.now.posted }
    {
        &self.posted
    }

    pub fn evidence(&self) -> &[Entry; EVIDENCE_COUNT]
        ensures { result.now ≡ self.now.evidence }
    {
        &self.evidence
    }
}

// What a call answers, beside the next book.
#[derive(Clone, Copy)]
pub struct Outcome {
    pub answer: Result<(), Refusal>,
    pub book: Book,
}
