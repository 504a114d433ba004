//! How attributes are read and written.

use auc_attr::{AttrList, AttrRefusal, put_attrs, read_attrs, write_attrs};
use auc_memory::{Octets, Room};
use std::alloc::{AllocError, Global};

/// How many attributes bytes have, and the list written again, into a string and into a room; or the first fault.
pub fn written(alloc: Global, bytes: &[u8]) -> Result<String, AllocError> {
    match read_attrs(alloc, bytes) {
        Ok(list) => text_of_list(alloc, &list),
        Err(AttrRefusal::NoMemory) => Err(AllocError),
        Err(why) => format!(in alloc; "{why:?}"),
    }
}

fn text_of_list(alloc: Global, list: &AttrList) -> Result<String, AllocError> {
    if !list.writable() {
        return String::from_str(alloc, "not writable");
    }
    if !list.is_within(usize::MAX) {
        return String::from_str(alloc, "too large");
    }
    let size = list.size();
    let mut text = Octets::new(alloc);
    let Ok(mut room) = Room::new(alloc, size) else {
        return Err(AllocError);
    };
    if write_attrs(list, &mut text).is_err() {
        return Err(AllocError);
    }
    put_attrs(list, &mut room);
    let count = list.len();
    let (text, put) = (
        hex::encode(alloc, text.as_slice())?,
        hex::encode(alloc, room.into_octets().as_slice())?,
    );
    format!(in alloc; "{count} attributes in {size} bytes\n{text}\n{put}")
}
