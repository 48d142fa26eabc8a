// Verify: evidence for a source (01, Posting, Verify).
ghost use Rattle.std.specs.Prelude.{◌≡◌, ◌+◌, true, IfOk};
ghost use Rattle.source_evidence.specs.Filing.{filed_of};
ghost use Rattle.source_evidence.specs.Kind.{index_of};
ghost use Rattle.ledger.specs.Causes.{refusal};
ghost use Rattle.slots.specs.Cells.{HasCell, stored_at};
ghost use Rattle.slots.specs.Layout.{posted_slots, evidence_slots, evidence_posted_slot, ledger_in};
ghost use Rattle.slots.specs.Steps.{Reachable, ReachablePostings, InPostings, EvidenceStep, Steps};
ghost use Rattle.records.specs.Opening.{opening_of};
ghost use Rattle.records.specs.Refusals.{refused_by};
ghost use Rattle.verify.specs.Asked.{verify_of};
ghost use Rattle.verify.specs.StoredEntry.{stored_by_term, HasTerms, stored_entry};

use records::refusal::Refusal;
use records::setup::KeptOpening;
use slots::calendar::calendar;
use slots::cells::{cell, is_posted, set_posted, store};
use slots::coverage::coverage;
use slots::layout::{
    COVERAGE_SLOT, EVIDENCE_COUNT, EVIDENCE_POSTED_SLOT, EVIDENCE_SLOTS, Figures, Postings,
    TEN_YEAR_SLOT,
};
use source_evidence::evidence::Entry;
use source_evidence::filing::{Filed, Filing};
use source_evidence::kind::EvidenceKind;
use tariff::sizes::TERMS;

// What a filing files, or the first cause that it meets.
#[tactic(auto, using(slots::proofs::CalendarLaws::open_as_ledger, crate::proofs::VerifyLaws::posted_as), unfolding(ledger::specs::Causes::refusal, ledger::specs::Causes::call_causes, ledger::specs::Causes::verify_causes, ledger::specs::Numbers::first_met, slots::specs::Layout::ledger_in, source_evidence::specs::Filing::filing_outcome))]
fn decide(
    o: &KeptOpening,
    f: &Figures,
    m: &Postings,
    h: u64,
    s: u64,
    filing: Filing,
) -> Result<Filed, Refusal>
    requires { ReachablePostings o.now f.now m.now }
    ensures refused { InPostings o.now f.now m.now (λ O L. refused_by result ≡ refusal O L (verify_of h s filing)) }
    ensures filed { IfOk result (λ filed. filed ≡ filed_of filing) }
{
    if o.unknown_holder(h) || o.unknown_source(s) {
        return Err(Refusal::NotInBook);
    }
    let filed = filing.filed()?;
    if calendar(f).tier_is_open() {
        return Err(Refusal::NotAtThisTime);
    }
    if is_posted(m, h, s, EVIDENCE_POSTED_SLOT + filed.kind.index()) {
        return Err(Refusal::PostedBefore);
    }
    Ok(filed)
}

// An entry's coverage of each term, stored at a source in the four slots that begin at `from`.
#[tactic(auto, unfolding(crate::specs::StoredEntry::stored_below, crate::specs::StoredEntry::stored_by_term))]
fn store_by_term(f: &mut Figures, h: u64, s: u64, from: u64, entry: Entry)
    requires { HasTerms f.old h s from }
    ensures { f.new ≡ stored_by_term f.old h s from entry }
{
    for term in 0..TERMS {
        store(f, h, s, from + term, coverage(entry, term));
    }
}

// An entry's coverage of each term and whether it is ten-year evidence, stored at a source in the slots of a kind.
#[tactic(auto, unfolding(crate::specs::StoredEntry::stored_entry, slots::specs::Layout::flag, tariff::specs::Sum::when_true))]
fn store_entry(f: &mut Figures, h: u64, s: u64, kind: EvidenceKind, entry: Entry)
    requires { HasCell evidence_slots h s (index_of kind) }
    ensures { f.new ≡ stored_entry f.old h s (index_of kind) entry }
{
    let slot = kind.index();
    store_by_term(f, h, s, COVERAGE_SLOT + TERMS * slot, entry);
    let flag = u64::from(entry.is_ten_year());
    store(f, h, s, TEN_YEAR_SLOT + slot, flag);
}

// What is filed stored by its terms, and noted as posted.
fn post(f: &mut Figures, m: &mut Postings, h: u64, s: u64, filed: Filed)
    requires { HasCell evidence_slots h s (index_of filed.kind) }
    ensures figures { f.new ≡ stored_entry f.old h s (index_of filed.kind) filed.entry }
    ensures posted { m.new ≡ stored_at posted_slots m.old h s (evidence_posted_slot + index_of filed.kind) true }
{
    store_entry(f, h, s, filed.kind, filed.entry);
    set_posted(m, h, s, EVIDENCE_POSTED_SLOT + filed.kind.index());
}

// An entry put in the cell of a holder, a source and a kind.
#[tactic(auto, unfolding(slots::specs::Cells::stored_at))]
fn file(evidence: &mut [Entry; EVIDENCE_COUNT], h: u64, s: u64, filed: Filed)
    requires { HasCell evidence_slots h s (index_of filed.kind) }
    ensures { evidence.new ≡ stored_at evidence_slots evidence.old h s (index_of filed.kind) filed.entry }
{
    let at = cell(EVIDENCE_SLOTS, h, s, filed.kind.index());
    evidence[at] = filed.entry;
}

// Posts evidence of a holder for a source: its coverage of each term and whether it is ten-year evidence is stored, and it is noted as posted.
pub fn verify(
    o: &KeptOpening,
    f: &mut Figures,
    m: &mut Postings,
    h: u64,
    s: u64,
    filing: Filing,
) -> Result<(), Refusal>
    requires { ReachablePostings o.now f.old m.old }
    ensures { EvidenceStep o.now f.old m.old (verify_of h s filing) result f.new m.new }
{
    let filed = decide(o, f, m, h, s, filing)?;
    post(f, m, h, s, filed);
    Ok(())
}

// Posts evidence and files its entry among the book's.
pub fn verify_and_file(
    o: &KeptOpening,
    f: &mut Figures,
    m: &mut Postings,
    evidence: &mut [Entry; EVIDENCE_COUNT],
    h: u64,
    s: u64,
    filing: Filing,
) -> Result<(), Refusal>
    requires { Reachable o.now f.old m.old evidence.old }
    ensures { Steps (opening_of o.entry) (ledger_in f.old m.old evidence.old) (verify_of h s filing) result f.new m.new evidence.new }
{
    let filed = decide(o, f, m, h, s, filing)?;
    post(f, m, h, s, filed);
    file(evidence, h, s, filed);
    Ok(())
}
