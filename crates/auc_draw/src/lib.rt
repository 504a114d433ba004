//! The subscribers' numbers and limits as words that several workers share.
//!
//! A [`Book`] has a word for each subscriber's number, one for the jobs of a round, one for why reservations ended, and
//! one for each subscriber's limit. Each worker has a [`Pass`], with which it draws a number, moves a number up, claims a
//! job, or releases a number that is within its limit; a [`KeeperPass`] raises the limits. Each of these is one atomic
//! step. Contracts see of a pass the list of what its steps did ([`Deed`]). The rule of the words says what holds of all
//! these lists between any two steps: of each subscriber they cover each number from the opening to the word once, the
//! claimed numbers are those below the job word, each once, and no released number is above its limit. [`Book::close`]
//! takes all passes and gives their lists and the words, for every interleaving of the steps.
//!
//! Each subscriber has its own greatest number. A draw after it leaves a mark and is refused, so a word is at most 64
//! above it. Only [`Book::open`] takes memory. Nothing here waits. The tests stand in `auc_number_tests`.
#![tactic(auto)]

mod book;
mod closed;
mod keeper;
mod law;
mod pass;
mod place;
mod rule;
mod step;

pub use book::Book;
pub use closed::Closed;
pub use keeper::KeeperPass;
pub use law::each_job_is_claimed_once;
pub use pass::{Draw, Jump, Pass, Release};
pub use rule::{Deed, Note, View};
