//! What order asks of an image beyond its nodes and its tables: that last blocks are zero past the size, here and in staged
//! lines. So contents with the same nodes stay in order in another image, and its files are the same.
#![tactic(auto)]

pub mod laws;
