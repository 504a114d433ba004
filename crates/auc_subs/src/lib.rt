//! The subscribers of an authentication centre.
//!
//! A [`Row`] is what the centre keeps of one subscriber: the identity (TS 23.003 §2.2), the key K and
//! OPc (TS 35.206 §4.1), the AMF (TS 33.102 §6.3.2), the numbers up to which its vectors were drawn and
//! its USIM has accepted them, the length of IND and the USIM's age limit (TS 33.102 Annex C).
//! [`Subscribers`] are rows with different identities; contracts see them as the list of their rows.
//! [`Subscribers::read`] reads a file of comma-separated records and tells the first wrong one,
//! [`Subscribers::add`] a line of seven or nine fields, and [`Subscribers::add_words`] seven or nine words, each by its first
//! fault, a [`SubsWhy`]. If OP is given, OPc is computed from it. [`refused_record_is_the_first_wrong`] and the other laws say what
//! each fault is by itself.
//!
//! A [`Setting`] is what all sessions of a home network share: its subscribers, their random bytes and names, and the realm.
//! Contracts see it by `specs/Setting`.
#![tactic(auto)]

mod field;
mod file;
mod law;
mod refusal;
mod row;
mod row_reading;
mod setting;
mod subscribers;
mod words;

pub use law::{
    file_that_is_read_is_right, line_that_is_added_is_a_subscriber,
    refused_line_has_the_first_fault, refused_record_is_the_first_wrong,
};
pub use refusal::{AddRefusal, SubsRefusal, SubsWhy};
pub use row::{MAX_AGE, Row};
pub use setting::Setting;
pub use subscribers::{MAX_SUBSCRIBERS, Subscribers};
