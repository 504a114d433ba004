//! The text of a transcript.
//!
//! [`print_round`] appends the lines of a round's record: one for the round, one for each job and each of its records, one for
//! each closing and each session's verdict, and one for the premise of equal keys; [`print_restart`] appends that of a restart.
//! A full print adds the bytes of each vector, the AUTS of each synchronisation failure with the RAND that it answers, each
//! packet, the keys of each Success and K_SEAF of each confirmed 5G authentication on lines of their own; the vectors are
//! handed to it beside the records. A vector of a session of EAP-AKA' has CK' and IK' in the places of CK and IK (RFC 9048
//! §3.3). The words of a line have a space between them, and LF ends the line. Numbers are decimal; bytes are lower-case
//! hexadecimal digits, which [`append_hex_digits`] writes. A text tells its transcript ([`each_text_has_one_transcript`]).
//!
//! Contracts see a round as its record and the text as a list of bytes. Printing takes memory for the text alone. If memory
//! runs out, the text stays as it was. The tests stand in `auc_round_tests`.
#![tactic(auto)]

mod added;
mod auts;
mod event;
mod further;
mod law;
mod line;
mod notes;
mod round;
mod sim;
mod sites;
mod word;
mod writer;

pub use law::each_text_has_one_transcript;
pub use round::{print_restart, print_round};
pub use writer::append_hex_digits;
