//! Attributes of EAP-AKA (RFC 4187 §8.1 and §10), EAP-AKA' (RFC 9048 §3 and §4) and EAP-SIM (RFC 4186 §8.1 and
//! §10), read and written.
//!
//! [`read_attrs`] reads bytes as attributes, or reports their first fault: each fault has a condition of its
//! own, and `specs/Fault` lists them in their order. [`write_attrs`] writes the one spelling of attributes, and
//! [`put_attrs`] does so into memory that was taken before. [`first_fault`] tells whether bytes are attributes, and
//! [`value_in`] finds the value of a type in them. [`read_frame`] reads what stands before the attributes of a
//! packet, and [`mac_place`] finds its AT_MAC.
//!
//! A [`Table`] says whose attributes they are. An [`AttrList`] has those of EAP-AKA; the calls that take a table go by
//! type and value: [`item_at`], [`put_item`], [`read_frame_in`] and [`mac_place_in`].
//!
//! Contracts see an [`AttrList`] as the list of its [`Attr`]s. `specs/Grammar` relates bytes to attributes
//! and leaves reserved bytes and fill free; `specs/Table` has the tables of attributes. Reading takes memory
//! for the values; the other calls that read, and those that put, take none.
#![tactic(auto)]

mod attr;
mod attr_list;
mod body;
mod conversion;
mod frame;
mod front;
mod items;
mod law;
mod layout;
mod mac;
mod refusal;
mod seen;
mod table;
mod walking;
mod writing;

pub use attr::Attr;
pub use attr_list::AttrList;
pub use frame::{FrameFault, Framed, length_of, read_frame, read_frame_in};
pub use front::{Found, item_at};
pub use items::{fits_item, may_stand, put_item, size_of_item};
pub use law::{
    are_bytes, bytes_are_one_list, bytes_have_one_first_fault,
    bytes_have_one_first_fault_in_every_table, bytes_have_one_reading_in_every_table,
    bytes_have_one_reading_or_one_fault, found_frames_stand_there,
    found_frames_stand_there_in_every_table, read_attributes_may_be_written,
    read_items_may_be_written, refused_bytes_are_not_read, refused_bytes_are_not_read_in_any_table,
    written_attributes_are_read, written_items_are_read,
};
pub use mac::{mac_place, mac_place_in};
pub use refusal::AttrRefusal;
pub use seen::Seen;
pub use table::Table;
pub use walking::{first_fault, read_attrs, value_in};
pub use writing::{put_attrs, write_attrs};
