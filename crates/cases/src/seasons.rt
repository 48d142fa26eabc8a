// The seasons of the marked cases, as the ledger's `marked_cases` has them.
use crate::answers::{write_case, write_outcome, write_query};
use book::book::{Book, Outcome};
use book::opened::open_book;
use load::metered::Metered;
use load_metric::block::Block;
use netting::netting::ClassLine;
use opening::book_setup::BookSetup;
use records::kinds::{HolderKind, SinkKind};
use records::setup::{PathLine, SinkLine};
use source_evidence::filing::Filing;
use source_evidence::kind::EvidenceKind;
use std::io;
use tariff::settings::Settings;

// The numbers by which an opening names the kinds of holders.
const LSE: u64 = HolderKind::Lse as u64;

const OBAALSE: u64 = HolderKind::Obaalse as u64;

// Those by which it names the kinds of sinks.
const DEFAULT_LAP: u64 = SinkKind::DefaultLap as u64;

const SCHEDULING_POINT: u64 = SinkKind::SchedulingPoint as u64;

// Evidence names its kind by its place among the kinds, from 1.
const OWNERSHIP: u64 = EvidenceKind::Ownership as u64 + 1;

// A path from a source to sink 0.
fn path_from(source: u64) -> PathLine {
    PathLine { source, sink: 0 }
}

// A book with holders of these kinds, one sink, and these paths, each from a source of its own.
fn open(kinds: &[u64], sink_kind: u64, path_lines: &[PathLine]) -> Outcome {
    let paths = path_lines.len() as u64;
    open_book(BookSetup {
        holders: kinds.len() as u64,
        sources: paths,
        sinks: 1,
        paths,
        holder_kinds: kinds,
        sink_lines: &[SinkLine {
            kind: sink_kind,
            parent: 0,
        }],
        path_lines,
        settings: Settings::present(),
    })
}

// Holders of these kinds at a Default LAP that no path ends at.
fn without_paths(kinds: &[u64]) -> Outcome {
    open(kinds, DEFAULT_LAP, &[])
}

// Holders of these kinds at a sink with one path.
fn with_path(kinds: &[u64], sink_kind: u64) -> Outcome {
    open(kinds, sink_kind, &[path_from(0)])
}

// What is metered in a term.
fn metered(term: u64, contract: u64, n: u64, blocks: &[Block]) -> Metered {
    Metered {
        term,
        contract,
        n,
        blocks,
    }
}

// Hours from one on with one load.
fn block(first: u64, hours: u64, kw: u64) -> Block {
    Block { first, hours, kw }
}

// A load of kw in each of 100 hours, at sink 0.
fn steady_load(b: Book, h: u64, term: u64, kw: u64) -> Outcome {
    b.load(h, 0, metered(term, 0, 100, &[block(0, 100, kw)]))
}

// A tier that opens and closes with nothing nominated.
fn pass_tier(rt: &impl Print, b: Book, tier: u64) -> io::Result<Book> {
    let b = write_outcome(rt, b.open_tier(tier))?;
    write_outcome(rt, b.close_tier())
}

// A tier in which holder 0 nominates kw on path 0 and is awarded it.
fn full_tier(rt: &impl Print, b: Book, tier: u64, kw: u64) -> io::Result<Book> {
    let b = write_outcome(rt, b.open_tier(tier))?;
    let b = write_outcome(rt, b.nominate(0, 0, kw))?;
    let b = write_outcome(rt, b.award(0, 0, kw))?;
    write_outcome(rt, b.close_tier())
}

// Case 1 up to its tier 1.
fn first_tier_1(rt: &impl Print) -> io::Result<Book> {
    let b = write_outcome(rt, open(&[LSE], DEFAULT_LAP, &[path_from(0), path_from(1)]))?;
    let blocks = [block(0, 398, 1000), block(398, 2, 5000)];
    let b = write_outcome(rt, b.load(0, 0, metered(0, 0, 400, &blocks)))?;
    let b = write_outcome(rt, b.carry(0, 0, 100))?;
    let b = write_outcome(rt, b.prior(0, 1, 300, 20))?;
    write_outcome(rt, b.open_tier(1))
}

// The rest of case 1.
fn first_season(rt: &impl Print) -> io::Result<Book> {
    let b = first_tier_1(rt)?;
    write_query(rt, b.limit(0, 0))?;
    let b = write_outcome(rt, b.nominate(0, 1, 201))?;
    let b = write_outcome(rt, b.nominate(0, 1, 200))?;
    let b = write_outcome(rt, b.award(0, 1, 150))?;
    let b = write_outcome(rt, b.award(0, 1, 51))?;
    let b = write_outcome(rt, b.close_tier())?;
    write_query(rt, b.net(1, 2))?;
    Ok(b)
}

// Below a limit of 200, 201 cannot be nominated; of 200 nominated 150 are awarded, and 51 more cannot be.
pub fn case_1(rt: &impl Print) -> io::Result<()> {
    write_case(rt, 1)?;
    first_season(rt)?;
    Ok(())
}

// 397 hours at 1,000 kW and 3 at 5,000: the metric is 5,000, and so is the month's limit.
pub fn case_2(rt: &impl Print) -> io::Result<()> {
    write_case(rt, 2)?;
    let blocks = [block(0, 397, 1000), block(397, 3, 5000)];
    let b = write_outcome(rt, without_paths(&[LSE]))?;
    let b = write_outcome(rt, b.load(0, 0, metered(1, 0, 400, &blocks)))?;
    let b = pass_tier(rt, b, 1)?;
    let b = pass_tier(rt, b, 2)?;
    let b = pass_tier(rt, b, 3)?;
    let b = write_outcome(rt, b.open_tier(4))?;
    write_query(rt, b.limit(0, 0))
}

// Of 100 hours 2 may be missing, and 3 are 7.
pub fn case_3(rt: &impl Print) -> io::Result<()> {
    write_case(rt, 3)?;
    let two_missing = [block(0, 98, 1000)];
    let three_missing = [block(0, 97, 1000)];
    let b = write_outcome(rt, without_paths(&[LSE, LSE]))?;
    let b = write_outcome(rt, b.load(0, 0, metered(0, 0, 100, &two_missing)))?;
    write_outcome(rt, b.load(1, 0, metered(0, 0, 100, &three_missing)))?;
    Ok(())
}

// A metric of 1,000 and a contract of 1,200 post 0, and so is the month's limit.
pub fn case_4(rt: &impl Print) -> io::Result<()> {
    write_case(rt, 4)?;
    let blocks = [block(0, 100, 1000)];
    let b = write_outcome(rt, without_paths(&[LSE]))?;
    let b = write_outcome(rt, b.load(0, 0, metered(1, 1200, 100, &blocks)))?;
    let b = pass_tier(rt, b, 1)?;
    let b = pass_tier(rt, b, 2)?;
    let b = pass_tier(rt, b, 3)?;
    let b = write_outcome(rt, b.open_tier(4))?;
    write_query(rt, b.limit(0, 0))
}

// A load of 3 has P 1 and S 2: with nothing awarded or carried these are the limits of tiers 2 and 3.
pub fn case_5(rt: &impl Print) -> io::Result<()> {
    write_case(rt, 5)?;
    let b = write_outcome(rt, without_paths(&[LSE]))?;
    let b = write_outcome(rt, steady_load(b, 0, 0, 3))?;
    let b = pass_tier(rt, b, 1)?;
    let b = write_outcome(rt, b.open_tier(2))?;
    write_query(rt, b.limit(0, 0))?;
    let b = write_outcome(rt, b.close_tier())?;
    let b = write_outcome(rt, b.open_tier(3))?;
    write_query(rt, b.limit(0, 0))
}

// In case 1's tier 1, 281 on path 1 is above a - l and above the limit: 12, not 13.
pub fn case_6(rt: &impl Print) -> io::Result<()> {
    write_case(rt, 6)?;
    let b = first_tier_1(rt)?;
    write_outcome(rt, b.nominate(0, 1, 281))?;
    Ok(())
}

// After case 1, tier 2's limit is 250.
pub fn case_7(rt: &impl Print) -> io::Result<()> {
    write_case(rt, 7)?;
    let b = first_season(rt)?;
    let b = write_outcome(rt, b.open_tier(2))?;
    write_query(rt, b.limit(0, 0))
}

// Customers of class 1 who move from one holder to another.
fn class_line(from: u64, to: u64, customers: u64, watts: u64) -> ClassLine {
    ClassLine {
        from,
        to,
        class: 1,
        customers,
        watts,
    }
}

// Held 100, L 1,000, 500 to each of two: keeps 0.
pub fn case_8(rt: &impl Print) -> io::Result<()> {
    write_case(rt, 8)?;
    let lines = [class_line(0, 1, 500, 1000), class_line(0, 2, 500, 1000)];
    let b = write_outcome(rt, with_path(&[LSE; 3], DEFAULT_LAP))?;
    let b = write_outcome(rt, steady_load(b, 0, 0, 1000))?;
    let b = write_outcome(rt, b.carry(0, 0, 100))?;
    let b = write_outcome(rt, b.migrate_lines(0, 0, &lines))?;
    write_query(rt, b.held(0, 0, 1))?;
    write_query(rt, b.held(1, 0, 1))?;
    write_query(rt, b.held(2, 0, 1))
}

// Held 1, m 999, L 1,000: keeps 1.
pub fn case_9(rt: &impl Print) -> io::Result<()> {
    write_case(rt, 9)?;
    let lines = [class_line(0, 1, 999, 1000)];
    let b = write_outcome(rt, with_path(&[LSE; 2], DEFAULT_LAP))?;
    let b = write_outcome(rt, steady_load(b, 0, 0, 1000))?;
    let b = write_outcome(rt, b.carry(0, 0, 1))?;
    let b = write_outcome(rt, b.migrate_lines(0, 0, &lines))?;
    write_query(rt, b.held(0, 0, 1))?;
    write_query(rt, b.held(1, 0, 1))
}

// 1,500 W against 501 W: m is 0, and nothing moves.
pub fn case_10(rt: &impl Print) -> io::Result<()> {
    write_case(rt, 10)?;
    let lines = [class_line(0, 1, 1, 1500), class_line(1, 0, 1, 501)];
    let b = write_outcome(rt, with_path(&[LSE; 2], DEFAULT_LAP))?;
    let b = write_outcome(rt, steady_load(b, 0, 0, 1000))?;
    let b = write_outcome(rt, b.carry(0, 0, 1000))?;
    let b = write_outcome(rt, b.migrate_lines(0, 0, &lines))?;
    write_query(rt, b.held(0, 0, 1))
}

// Capacity 1,000 and right 3,333, not marked ten-year: 334 is 11, 333 is taken.
pub fn case_11(rt: &impl Print) -> io::Result<()> {
    write_case(rt, 11)?;
    let b = write_outcome(rt, with_path(&[OBAALSE], SCHEDULING_POINT))?;
    let b = write_outcome(rt, steady_load(b, 0, 0, 1000))?;
    let b = write_outcome(rt, b.prior(0, 0, 1000, 0))?;
    let filing = Filing {
        kind: OWNERSHIP,
        capacity: 1000,
        right: 3333,
        first: 1,
        last: 3,
        mark: 0,
    };
    let b = write_outcome(rt, b.verify(0, 0, filing))?;
    let b = write_outcome(rt, b.open_tier(1))?;
    let b = write_outcome(rt, b.nominate(0, 0, 334))?;
    write_outcome(rt, b.nominate(0, 0, 333))?;
    Ok(())
}

// A month's load of 700 with awards of 650 in the season and 100 carried: limit 0.
pub fn case_12(rt: &impl Print) -> io::Result<()> {
    write_case(rt, 12)?;
    let b = write_outcome(rt, with_path(&[LSE], DEFAULT_LAP))?;
    let b = write_outcome(rt, steady_load(b, 0, 0, 1000))?;
    let b = write_outcome(rt, steady_load(b, 0, 1, 700))?;
    let b = write_outcome(rt, b.carry(0, 0, 100))?;
    let b = pass_tier(rt, b, 1)?;
    let b = full_tier(rt, b, 2, 400)?;
    let b = full_tier(rt, b, 3, 250)?;
    let b = write_outcome(rt, b.open_tier(4))?;
    write_query(rt, b.limit(0, 0))
}
