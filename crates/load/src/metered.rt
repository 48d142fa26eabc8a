// What a load posts (01, Posting, Load).
use load_metric::block::Block;
use load_metric::columns::BlockColumns;

// The numbers of a load line after its holder and sink, with the blocks that it counts: any numbers, and any blocks.
#[derive(Clone, Copy)]
pub struct Metered<'a> {
    pub term: u64,
    pub contract: u64,
    pub n: u64,
    pub blocks: &'a [Block],
}

// The same of a load whose blocks stand in columns of any lengths.
#[derive(Clone, Copy)]
pub struct MeteredColumns<'a> {
    pub term: u64,
    pub contract: u64,
    pub n: u64,
    pub columns: BlockColumns<'a>,
}
