// The calls that post (01, Posting), and migration (01, Migration): the book's arrays are lent to the call, and the next book is made of them.
ghost use Rattle.std.specs.Prelude.{◌≡◌};
ghost use Rattle.ledger.specs.Call.{carry, migrate, prior};
ghost use Rattle.load.specs.Loads.{load_of};
ghost use Rattle.verify.specs.Asked.{verify_of};
ghost use Rattle.book.specs.Outcomes.{outcome_of, outcome_of_columns, outcome_of_metered};

use crate::book::{Book, Outcome};
use load::columns::load_columns;
use load::load::load;
use load::metered::{Metered, MeteredColumns};
use migrate::class_lines::migrate_lines;
use migrate::migrate::migrate;
use netting::netting::{ClassColumns, ClassLine};
use postings::carry::carry;
use postings::prior::prior;
use source_evidence::filing::Filing;
use verify::verify::verify_and_file;

impl Book {
    // Posts the load of a holder at a sink in a term.
    pub fn load(mut self, h: u64, s: u64, metered: Metered) -> Outcome
        ensures { result ≡ outcome_of self (load_of h s metered.entry) }
    {
        let answer = load(
            &self.opening,
            &mut self.figures,
            &mut self.posted,
            h,
            s,
            metered,
        );
        Outcome { answer, book: self }
    }

    // Posts the load of a holder at a sink in a term, whose blocks stand in three slices.
    pub fn load_columns(mut self, h: u64, s: u64, metered_columns: MeteredColumns) -> Outcome
        ensures { result ≡ outcome_of_metered self h s metered_columns.entry }
    {
        let answer = load_columns(
            &self.opening,
            &mut self.figures,
            &mut self.posted,
            h,
            s,
            metered_columns,
        );
        Outcome { answer, book: self }
    }

    // Carries kw in for a holder on a path.
    pub fn carry(mut self, h: u64, p: u64, kw: u64) -> Outcome
        ensures { result ≡ outcome_of self (carry h p kw) }
    {
        let answer = carry(&self.opening, &mut self.figures, &mut self.posted, h, p, kw);
        Outcome { answer, book: self }
    }

    // Posts the prior of a holder on a path.
    pub fn prior(mut self, h: u64, p: u64, a: u64, l: u64) -> Outcome
        ensures { result ≡ outcome_of self (prior h p a l) }
    {
        let answer = prior(
            &self.opening,
            &mut self.figures,
            &mut self.posted,
            h,
            p,
            a,
            l,
        );
        Outcome { answer, book: self }
    }

    // Files evidence of a holder for a source; the mark says whether it runs for ten years.
    pub fn verify(mut self, h: u64, s: u64, filing: Filing) -> Outcome
        ensures { result ≡ outcome_of self (verify_of h s filing) }
    {
        let answer = verify_and_file(
            &self.opening,
            &mut self.figures,
            &mut self.posted,
            &mut self.evidence,
            h,
            s,
            filing,
        );
        Outcome { answer, book: self }
    }

    // Moves loads, rights and last year's allocations with the customers of class lines, whose fields stand in five slices.
    pub fn migrate(mut self, term: u64, sink: u64, columns: ClassColumns) -> Outcome
        ensures { result ≡ outcome_of_columns self term sink columns.entry }
    {
        let answer = migrate(&self.opening, &mut self.figures, term, sink, columns);
        Outcome { answer, book: self }
    }

    // Moves loads, rights and last year's allocations with the customers of the class lines lent.
    pub fn migrate_lines(mut self, term: u64, sink: u64, lines: &[ClassLine]) -> Outcome
        ensures { result ≡ outcome_of self (migrate term sink lines.now) }
    {
        let answer = migrate_lines(&self.opening, &mut self.figures, term, sink, lines);
        Outcome { answer, book: self }
    }
}
