// Block lists: the load posted, or the refusal.
use crate::rows::{part, settings_at};
use crate::{load_rows, write};
use load_metric::columns::{BlockColumns, load_posted_of_columns};
use load_metric::load::BlockError;
use std::io;
use tariff::legal_settings::LegalSettings;

// What a row gives: nothing where its three parts have unequal lengths, and are no blocks.
fn row_posted(settings: LegalSettings, row: &[u64; 7]) -> Option<Result<u64, BlockError>> {
    let [n, contract, start, first_count, hour_count, kw_count, _] = *row;
    let columns = BlockColumns {
        firsts: part(&load_rows::FIRSTS, start, first_count),
        hours: part(&load_rows::HOURS, start, hour_count),
        kws: part(&load_rows::KWS, start, kw_count),
    };
    load_posted_of_columns(settings, columns, n, contract)
}

// The line of a row.
pub fn write_row(rt: &impl Print, row: &[u64; 7]) -> io::Result<()> {
    let [.., set] = *row;
    let Some(settings) = settings_at(&load_rows::SETS, set).legal() else {
        return write::illegal(rt);
    };
    match row_posted(settings, row) {
        None => println!(rt; "load,no,1"),
        Some(Err(BlockError::Broken)) => println!(rt; "load,no,6"),
        Some(Err(BlockError::Missing)) => println!(rt; "load,no,7"),
        Some(Ok(kw)) => println!(rt; "load,{kw}"),
    }
}
