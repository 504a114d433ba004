//! The reading of a file of subscribers.

ghost use Rattle.std.specs.Prelude.{◌≡◌, ℕ, ◌+◌, ◌<◌, [], ◌∷◌, List, length, fold, Contains, OnOk, IfOk, MatchBool, slice_index_or};
ghost use Rattle.csv.specs.Records.{fields_of as record_fields};
ghost use Rattle.auc_subs.specs.Subscriber.{field as field_of, line_counts, most_subscribers, row_of, rows_with_fields, IsRow};
ghost use Rattle.auc_subs.specs.File.{ends_named, is_header as is_header_of, is_named, rows_of, subscribers_in, with_record, records_of};
ghost use Rattle.auc_subs.specs.InnerFile.{IsBefore, WentOn};
ghost use Rattle.auc_subs.specs.declared.refusal.AddRefusal.TheVariants as add_refusal;
ghost use Rattle.auc_subs.specs.declared.refusal.SubsRefusal.TheVariants as refusal;

use crate::refusal::{AddRefusal, SubsRefusal, SubsWhy};
use crate::row::Row;
use crate::row_reading::read_row;
use crate::subscribers::Subscribers;
use auc_memory::NoMemory;
use csv::{ByteRecord, Reader, ReaderBuilder};
use std::alloc::Global;

impl Subscribers {
    /// The subscribers of a file of comma-separated records, as the crate `csv` reads them: a field may
    /// stand between double quotes, which are doubled inside; LF, CR and CRLF end a record; an empty line
    /// is no record; a byte order mark at the start is dropped; nothing is trimmed.
    ///
    /// The first record, of number 0, is the header `imsi,k,kind,op,amf,seq,usim` or
    /// `imsi,k,kind,op,amf,seq,usim,bits,age`. Each further record is a subscriber, by the seven or nine
    /// fields of [`Subscribers::add`], as many as the header has. A wrong file is refused with its first
    /// wrong record.
    pub fn read(alloc: Global, bytes: &[u8]) -> Result<Subscribers, SubsRefusal>
        ensures read { IfOk result (λ subs. subscribers_in bytes.now ≡ Ok subs) }
        ensures refused { (number : ℕ) (why : SubsWhy) → result ≡ Err (refusal.Row number why)
            → subscribers_in bytes.now ≡ Err (refusal.Row number why) }
    {
        let mut file = reader(alloc, bytes);
        let mut fields = ByteRecord::new(alloc);
        let count = read_header(&mut file, &mut fields)?;
        let mut subs = Subscribers::new(alloc);
        read_rows(&mut subs, &mut file, &mut fields, count)?;
        Ok(subs)
    }
}

/// A reader of a file's records, which may have any number of fields.
fn reader(alloc: Global, bytes: &[u8]) -> Reader<&[u8]>
    ensures { IsBefore result (records_of bytes.now) }
{
    ReaderBuilder::new()
        .has_headers(false)
        .flexible(true)
        .from_reader(alloc, bytes)
}

/// Reads the next record, and tells whether there was one.
fn next_record(file: &mut Reader<&[u8]>, fields: &mut ByteRecord) -> Result<bool, NoMemory>
    ensures { (left : List (List (List ℕ))) → IsBefore file.old left
        → IfOk result (λ found. MatchBool found (WentOn file.new left (record_fields fields.new)) (left ≡ [])) }
{
    let Ok(found) = file.read_byte_record(fields) else {
        return Err(NoMemory);
    };
    Ok(found)
}

/// Reads the header, and answers how many fields it has.
fn read_header(file: &mut Reader<&[u8]>, fields: &mut ByteRecord) -> Result<usize, SubsRefusal>
    ensures read { (left : List (List (List ℕ))) → IsBefore file.old left
        → IfOk result (λ count. (rest : List (List (List ℕ))) × IsBefore file.new rest × (rows_of left ≡ fold (with_record count) (Ok []) rest)) }
    ensures count { IfOk result (λ count. Contains line_counts count) }
    ensures refused { (left : List (List (List ℕ))) → IsBefore file.old left
        → (number : ℕ) (why : SubsWhy) → result ≡ Err (refusal.Row number why)
        → rows_of left ≡ Err (refusal.Row number why) }
{
    if next_record(file, fields)? && is_header(fields) {
        Ok(fields.len())
    } else {
        Err(SubsRefusal::Row(0, SubsWhy::Header))
    }
}

/// Whether a record is the header, of seven fields or nine.
fn is_header(fields: &ByteRecord) -> bool
    ensures { result ≡ is_header_of (record_fields fields.now) }
{
    is_named(fields) && (fields.len() == 7 || ends_named(fields))
}

/// Whether a record begins with the names of the first seven fields.
fn is_named(fields: &ByteRecord) -> bool
    ensures { result ≡ is_named (record_fields fields.now) }
{
    field(fields, 0) == b"imsi".as_slice()
        && field(fields, 1) == b"k".as_slice()
        && field(fields, 2) == b"kind".as_slice()
        && field(fields, 3) == b"op".as_slice()
        && field(fields, 4) == b"amf".as_slice()
        && field(fields, 5) == b"seq".as_slice()
        && field(fields, 6) == b"usim".as_slice()
}

/// Whether a record ends with the names of the last two of nine fields.
fn ends_named(fields: &ByteRecord) -> bool
    ensures { result ≡ ends_named (record_fields fields.now) }
{
    fields.len() == 9
        && field(fields, 7) == b"bits".as_slice()
        && field(fields, 8) == b"age".as_slice()
}

/// Adds a row for each record that is left, which has so many fields.
fn read_rows(
    subs: &mut Subscribers,
    file: &mut Reader<&[u8]>,
    fields: &mut ByteRecord,
    count: usize,
) -> Result<(), SubsRefusal>
    requires { Contains line_counts count }

    ensures read { (left : List (List (List ℕ))) → IsBefore file.old left
        → OnOk result (fold (with_record count) (Ok subs.old) left ≡ Ok subs.new) }
    ensures refused { (left : List (List (List ℕ))) → IsBefore file.old left
        → (number : ℕ) (why : SubsWhy) → result ≡ Err (refusal.Row number why)
        → fold (with_record count) (Ok subs.old) left ≡ Err (refusal.Row number why) }
{
    while next_record(file, fields)? {
        put_record(subs, fields, count)?;
    }
    Ok(())
}

/// Adds the subscriber that a record of so many fields is. With so many rows before it, it is the record of the
/// next number.
fn put_record(subs: &mut Subscribers, fields: &ByteRecord, count: usize) -> Result<(), SubsRefusal>
    requires { Contains line_counts count }

    ensures added { OnOk result (with_record count (Ok subs.old) (record_fields fields.now) ≡ Ok subs.new) }
    ensures grown { OnOk result (length subs.new ≡ length subs.old + 1) }
    ensures room { OnOk result (length subs.old < most_subscribers) }
    ensures refused { (number : ℕ) (why : SubsWhy) → result ≡ Err (refusal.Row number why)
        → with_record count (Ok subs.old) (record_fields fields.now) ≡ Err (refusal.Row number why) }
{
    let number = subs.len() + 1;
    match add_record(subs, fields, count) {
        Ok(()) => Ok(()),
        Err(AddRefusal::Why(why)) => Err(SubsRefusal::Row(number, why)),
        Err(AddRefusal::NoMemory) => Err(SubsRefusal::NoMemory),
    }
}

/// Adds the subscriber that a record of so many fields is.
fn add_record(subs: &mut Subscribers, fields: &ByteRecord, count: usize) -> Result<(), AddRefusal>
    requires { Contains line_counts count }

    ensures added { OnOk result (rows_with_fields (count ∷ []) subs.old (record_fields fields.now) ≡ Ok subs.new) }
    ensures grown { OnOk result (length subs.new ≡ length subs.old + 1) }
    ensures room { OnOk result (length subs.old < most_subscribers) }
    ensures refused { (why : SubsWhy) → result ≡ Err (add_refusal.Why why)
        → rows_with_fields (count ∷ []) subs.old (record_fields fields.now) ≡ Err why }
{
    let row = row_in(fields, count)?;
    subs.admit(row)?;
    Ok(())
}

/// The subscriber that a record of so many fields is.
fn row_in(fields: &ByteRecord, count: usize) -> Result<Row, SubsWhy>
    requires { Contains line_counts count }

    ensures value { result ≡ row_of (count ∷ []) (record_fields fields.now) }
    ensures row { IfOk result IsRow }
{
    if fields.len() != count {
        return Err(SubsWhy::FieldCount);
    }
    let nine = [
        field(fields, 0),
        field(fields, 1),
        field(fields, 2),
        field(fields, 3),
        field(fields, 4),
        field(fields, 5),
        field(fields, 6),
        field(fields, 7),
        field(fields, 8),
    ];
    read_row(&nine[..count])
}

/// The field at a place, empty if the record has none there.
fn field(fields: &ByteRecord, place: usize) -> &[u8]
    ensures { result.now ≡ field_of (record_fields fields.now) place }
{
    match fields.get(place) {
        Some(field) => field,
        None => b"".as_slice(),
    }
}
