//! The table of attributes: what follows type and length.

ghost use Rattle.std.specs.Prelude.{◌≡◌};
ghost use Rattle.auc_attr.specs.Table.{row_of, sim_row_of, row_in, single, repeated};

/// Which attributes there are, and what stands before them in a packet.
#[derive(Clone, Copy)]
pub enum Table {
    /// EAP-AKA (RFC 4187 §10) and EAP-AKA' (RFC 9048 §3 and §4).
    Aka,
    /// EAP-SIM (RFC 4186 §10), full authentication alone.
    Sim,
}

/// What follows an attribute's type and length.
#[derive(Clone, Copy)]
pub enum Shape {
    /// This many bytes.
    Fixed(u8),
    /// Two reserved bytes, then this many.
    AfterReserved(u8),
    /// The length in bits in two bytes, 4 to 16 bytes, and fill.
    BitCounted,
    /// The length in bytes in two bytes, up to 1016 bytes, and fill.
    ByteCounted,
    /// Two reserved bytes, then two or three times 16 bytes.
    Several,
    /// The length in bytes in two bytes, versions of two bytes, at least one and up to 1016 bytes, and fill.
    Versions,
    /// Two reserved bytes, then encrypted attributes.
    Ciphertext,
    /// Two reserved bytes, then a hash of 20 or 32 bytes, or none.
    Hash,
    /// 2, 6 or 10 zero bytes.
    Zeros,
    /// One bit, then 15 reserved bits.
    Flag,
    /// Bytes of which nothing is known.
    Skipped,
}

/// A row of the table.
#[derive(Clone, Copy)]
pub struct Row {
    /// What follows type and length.
    pub shape: Shape,
    /// Whether a message may have it only once.
    pub once: bool,
}

/// The row of a type, or `None` if the type is unknown and may not be skipped.
pub fn row_in(table: Table, kind: u8) -> Option<Row>
    ensures { result ≡ row_in table kind }
{
    match table {
        Table::Aka => row_of(kind),
        Table::Sim => sim_row_of(kind),
    }
}

#[tactic(auto, unfolding(crate::specs::Table::row_of))]
fn row_of(kind: u8) -> Option<Row>
    ensures { result ≡ row_of kind }
{
    match kind {
        1 | 2 | 11 | 21 | 129 => single(Shape::AfterReserved(16)),
        3 => single(Shape::BitCounted),
        4 => single(Shape::Fixed(14)),
        6 => single(Shape::Zeros),
        10 | 13 | 17 | 20 | 135 => single(Shape::AfterReserved(0)),
        12 | 19 | 22 => single(Shape::Fixed(2)),
        14 | 23 | 132 | 133 => single(Shape::ByteCounted),
        24 => repeated(Shape::Fixed(2)),
        130 => single(Shape::Ciphertext),
        134 => single(Shape::Hash),
        136 => single(Shape::Flag),
        0..=127 => None,
        128.. => repeated(Shape::Skipped),
    }
}

#[tactic(auto, unfolding(crate::specs::Table::sim_row_of))]
fn sim_row_of(kind: u8) -> Option<Row>
    ensures { result ≡ sim_row_of kind }
{
    match kind {
        1 => single(Shape::Several),
        7 | 11 => single(Shape::AfterReserved(16)),
        10 | 13 | 17 => single(Shape::AfterReserved(0)),
        14 => single(Shape::ByteCounted),
        15 => single(Shape::Versions),
        16 | 22 => single(Shape::Fixed(2)),
        0..=127 => None,
        128.. => repeated(Shape::Skipped),
    }
}

fn single(shape: Shape) -> Option<Row>
    ensures { result ≡ single shape }
{
    Some(Row { shape, once: true })
}

fn repeated(shape: Shape) -> Option<Row>
    ensures { result ≡ repeated shape }
{
    Some(Row { shape, once: false })
}
