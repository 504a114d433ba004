//! Blocks of lines that are heard over a wire.
//!
//! A [`Wire`] is the input and the output of a long conversation. Contracts see its turns in their order, if the wire reveals
//! them, whether its input has ended, and a count of faults: a call fails only if the count rose. [`MemWire`] reveals
//! everything; [`StdWire`], standard input and standard output, no byte.
//!
//! A block is the lines up to a line `end`; LF or CRLF ends a line. [`hear_block`] hears until a whole block waits and answers
//! it, and keeps the bytes after the line `end` for the next call. It never hears while a whole block waits. A block has at
//! most [`LIMIT`] bytes; a longer one is heard to its end in bounded memory. [`say_whole`] says a whole text.
//!
//! Nothing here waits for another thread. The tests stand in `auc_text_tests`.
#![tactic(auto)]

mod blocks;
mod law;
mod mem_wire;
mod next_block;
mod saying;
mod search;
mod std_wire;
mod trouble;
mod turn;
mod waiting;
mod wire;

pub use blocks::{LIMIT, hear_block};
pub use law::{each_block_is_split_off, each_block_stands, earlier_blocks_stand};
pub use mem_wire::MemWire;
pub use next_block::NextBlock;
pub use saying::say_whole;
pub use std_wire::StdWire;
pub use trouble::Trouble;
pub use turn::Turn;
pub use wire::Wire;
