//! Blocks of 4,096 bytes: the numbers in them, the digests at their ends, and buffers of many.
//!
//! # How a format is written
//!
//! Every block on disk or on a volume is fields one after the other, zeros, and for most of them a
//! digest (`docs/FORMATS.md`, "Numbers and blocks"). A format has three words in its `specs/`:
//!
//! - `x_bytes v`, the one spelling of the value `v`: its fields joined to the left, `((magic ++
//!   le32 v.a) ++ le64 v.b) ++ numbers32 v.cs`, in a `page` (fields, zeros, the digest of all that
//!   at byte 4,064), a `plain_page` (fields and zeros alone) or a `page_over` (the digest also over
//!   the blocks behind). Zeros between fields are `zeros n`.
//! - `IsX v`, the ranges of its fields.
//! - `x_in bytes`, the candidate: the numbers at the fields' places, whatever they are.
//!
//! The encoder writes the fields in order of their places, by `put_bytes` (the magic bytes),
//! `put_u32`, `put_u64`, `put_zeros`, `put_numbers`, `put_block_records` and `put_table_records`, and
//! ends by `end_page`, `end_plain_page` or `end_page_over`. Each ensures by a clause `front` what now
//! stands before its end, so that these clauses chain, and an encoder's proof is empty.
//!
//! The decoder reads the candidate, tests the ranges, spells the candidate again in a block of its
//! own and compares. So bytes outside the fields need no test. What is left to prove is
//! `x_in (x_bytes v) ≡ v`: a line for each field, by `read32`, `read64` (`proofs/Decoding`),
//! `read_run` (`proofs/RunLemmas`) and `read_block_records` (`proofs/RecordLemmas`). `accepted` and
//! `refused` turn it into the decoder's clause. A view, which may take no memory and copies nothing,
//! tests in place by `has_bytes`, `is_zero` and `is_page_over`, and cites the lemmas on what stands
//! at a place (`front32`, `front_run`, `front_block_records`).
#![tactic(auto)]

mod block;
mod buffer;
mod fields;
mod numbers;
mod pages;
mod records;
mod sealing;

pub use block::Block;
pub use buffer::SegBuf;
pub use fields::{get_u32, get_u64, has_bytes, is_zero, put_bytes, put_u32, put_u64, put_zeros};
pub use numbers::{get_numbers, put_numbers};
pub use pages::{end_page, end_page_over, end_plain_page, is_page_over};
pub use records::{
    BlockRecord, TableRecord, get_block_record, get_block_records, get_table_record,
    get_table_records, put_block_record, put_block_records, put_table_record, put_table_records,
};

/// The bytes of a block.
pub const BLOCK: usize = 4096;
