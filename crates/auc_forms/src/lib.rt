//! The forms of the program's words that run no scenario: `vector K OPC RAND SQN AMF`, `auts K OPC RAND SQN` and `reserved`.
//!
//! [`algorithm_words`] reads the words of `vector` and `auts`, and [`algorithm_lines`] makes their lines: the seven functions
//! of Milenage at these values (TS 35.206 §4.1) and, if the word `autn` stands behind them, AUTN (TS 33.102 §6.3.2); AUTS
//! (TS 33.102 §6.3.3). [`reserved_lines`] makes the lines of `reserved`: each identity of a journal with its limit, by rising
//! number and then by rising count of digits.
//!
//! `specs/Algorithm` and `specs/Reserved` say which words these forms have, and what their lines are. Nothing here
//! waits; memory is taken for the lines.
#![tactic(auto)]

mod algorithm;
mod reserved;

pub use algorithm::{AlgorithmForm, AlgorithmWords, AutsWords, algorithm_lines, algorithm_words};
pub use reserved::{is_reserved, reserved_lines};
