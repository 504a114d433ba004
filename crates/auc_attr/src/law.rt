//! Laws of the grammar that no single call shows: of attributes of EAP-AKA, and of types and values by every table.

ghost use Rattle.auc_attr.specs.Laws.{AreBytes, OneWalkIn, OneFaultIn, RefusedIsNotReadIn, WrittenIsReadIn, ReadIsWritableIn, FoundIsFramedIn, OneWalk, OneList, OneFault, RefusedIsNotRead, WrittenIsRead, ReadIsWritable, FoundIsFramed};
ghost use Rattle.auc_attr.specs.declared.table.Table.{Table};

/// Bytes are less than 256 each, which some laws require.
pub fn are_bytes(bytes: &[u8])
    ensures { AreBytes bytes.now }
{}

/// Bytes are one list of attributes and then end, or one list of attributes and then one fault.
pub fn bytes_have_one_reading_or_one_fault()
    ensures { OneWalk }
{}

/// Bytes are one list of attributes.
pub fn bytes_are_one_list()
    ensures { OneList }
{}

/// Bytes have one first fault.
pub fn bytes_have_one_first_fault()
    ensures { OneFault }
{}

/// Bytes with a fault are no list of attributes.
pub fn refused_bytes_are_not_read()
    ensures { RefusedIsNotRead }
{}

/// What is written of a list is read as that list.
pub fn written_attributes_are_read()
    ensures { WrittenIsRead }
{}

/// A list that was read may be written, and takes as many bytes: only reserved bytes and fill differ.
pub fn read_attributes_may_be_written()
    ensures { ReadIsWritable }
{}

/// Bytes in which no fault stands before the attributes are what the grammar says, and the other way round.
pub fn found_frames_stand_there()
    ensures { FoundIsFramed }
{}

/// By every table, bytes are one list of items and then end, or one list of items and then one fault.
pub fn bytes_have_one_reading_in_every_table()
    ensures { (table : Table) → OneWalkIn table }
{}

/// By every table, bytes have one first fault.
pub fn bytes_have_one_first_fault_in_every_table()
    ensures { (table : Table) → OneFaultIn table }
{}

/// By every table, bytes with a fault are no list of items.
pub fn refused_bytes_are_not_read_in_any_table()
    ensures { (table : Table) → RefusedIsNotReadIn table }
{}

/// By every table, what is written of items is read as these items.
pub fn written_items_are_read()
    ensures { (table : Table) → WrittenIsReadIn table }
{}

/// By every table, items that were read may be written, and take as many bytes.
pub fn read_items_may_be_written()
    ensures { (table : Table) → ReadIsWritableIn table }
{}

/// By every table, bytes in which no fault stands before the attributes are what the grammar says, and the other way
/// round.
pub fn found_frames_stand_there_in_every_table()
    ensures { (table : Table) → FoundIsFramedIn table }
{}
