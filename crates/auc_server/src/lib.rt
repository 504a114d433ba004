//! The server of a session of EAP-AKA (RFC 4187) or EAP-AKA' (RFC 9048), with pseudonyms and
//! fast re-authentication.
//!
//! [`Server::start`] takes the method and the network name and gives the first request, and [`Server::on_bytes`] takes
//! what was received: it falls into one [`Row`] of the table, which tells what is sent, what the
//! [`Centre`](auc_vector::Centre) is asked for and how the session ends. [`Server::repeat`] sends the last request again,
//! and [`Server::give_up`] ends the session. docs/sessions.md draws the table and names the clause of each row.
//!
//! Contracts see a [`Server`] as its `ServerEnd` (`specs/Server`) and a [`Setting`] as key, rows and realm
//! (`specs/Setting`). `specs/Rows` says which row bytes fall into, `specs/Table` what each row does. A turn takes its
//! memory before it asks the centre: if memory runs out, server and centre are as they were. Only `on_bytes` may wait, if
//! the centre does.
#![tactic(auto)]

mod asking;
mod attributes;
mod challenge;
mod contexts;
mod identities;
mod law;
mod messages;
mod naming;
mod options;
mod plan;
mod receiving;
mod reply;
mod resuming;
mod rooms;
mod rounds;
mod rows;
mod server;
mod setting;
mod sizes;
mod turns;

pub use auc_subs::Setting;
pub use auc_vector::ServerWhy;
pub use law::{
    each_turn_keeps_the_challenge_or_sends_one, each_turn_keeps_the_keys_of_its_inputs,
    each_turn_keeps_the_re_authentication_or_resumes, each_turn_leaves_fewer_packets,
    each_turn_makes_at_most_one_move, no_turn_changes_the_options, no_turn_gives_an_ordinal_back,
    success_needs_a_right_mac,
};
pub use naming::{GivenNames, NewNames};
pub use options::ServerOptions;
pub use reply::Reply;
pub use rows::Row;
pub use server::{Challenged, Last, Resumed, Server, ServerState};
pub use setting::HomeRow;
