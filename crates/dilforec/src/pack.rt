//! Numbers packed in words: bits, blocks, lists of documents, and columns.

pub use fts_pack::{
    BLOCK, Bits, Block, Blocks, Column, List, ListRange, ListRef, ListSource, Lists, PackedBlock,
};
