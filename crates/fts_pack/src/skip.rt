// The position of a block of a list, and its last document.
use crate::block_meta::BlockMeta;

/// The skip entry of a block.
#[derive(Clone, Copy)]
pub(crate) struct Skip {
    /// The position of the block's gaps.
    pub(crate) block: BlockMeta,
    /// The last document of the block.
    pub(crate) last: u32,
}
