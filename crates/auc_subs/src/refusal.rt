//! Why a subscriber's line is refused.

ghost use Rattle.std.specs.Prelude.{◌≡◌};
ghost use Rattle.auc_subs.specs.declared.refusal.AddRefusal.TheVariants as refusal;
ghost use Rattle.auc_subs.specs.declared.refusal.SubsRefusal.TheVariants as file_refusal;

use auc_memory::NoMemory;
use std::alloc::AllocError;

/// The first fault of a subscriber's line, in the order of the tests.
#[derive(Clone, Copy, Debug, PartialEq, Eq)]
pub enum SubsWhy {
    /// The first record of a file is neither `imsi,k,kind,op,amf,seq,usim` nor
    /// `imsi,k,kind,op,amf,seq,usim,bits,age`, or there is none.
    Header,
    /// A line has neither seven fields nor nine, or a record hasn't as many as its file's header.
    FieldCount,
    /// The IMSI isn't 6 to 15 decimal digits.
    Imsi,
    /// K isn't 32 hexadecimal digits.
    Key,
    /// The kind of the operator's field is neither `op` nor `opc`.
    Kind,
    /// The operator's field isn't 32 hexadecimal digits.
    Op,
    /// The AMF isn't 4 hexadecimal digits.
    Amf,
    /// The index length isn't one digit, 0 to 6.
    Bits,
    /// The age limit is neither `-` nor 1 to 15 decimal digits, from 1 to `MAX_AGE`.
    Age,
    /// The number of the centre isn't 1 to 15 decimal digits, or above the greatest of the index length.
    Seq,
    /// The number of the USIM isn't 1 to 15 decimal digits, or above the greatest of the index length.
    Usim,
    /// A row has this IMSI already.
    Twice,
    /// There are as many rows as there may be.
    TooMany,
}

/// Why a file of subscribers isn't read.
#[derive(Clone, Copy)]
pub enum SubsRefusal {
    /// The first wrong record of the file, the header being 0, and its first fault.
    Row(u32, SubsWhy),
    /// There was no memory for the subscribers.
    NoMemory,
}

/// Why a line isn't added.
#[derive(Clone, Copy)]
pub enum AddRefusal {
    /// The line is wrong, by this fault first.
    Why(SubsWhy),
    /// There was no memory for the row.
    NoMemory,
}

impl From<NoMemory> for SubsRefusal {
    ghost from_gives = { λ _ e. e ≡ file_refusal.NoMemory };

    fn from(_: NoMemory) -> SubsRefusal {
        SubsRefusal::NoMemory
    }
}

impl From<SubsWhy> for AddRefusal {
    ghost from_gives = { λ why e. e ≡ refusal.Why why };

    fn from(why: SubsWhy) -> AddRefusal {
        AddRefusal::Why(why)
    }
}

impl From<AllocError> for AddRefusal {
    ghost from_gives = { λ _ e. e ≡ refusal.NoMemory };

    fn from(_: AllocError) -> AddRefusal {
        AddRefusal::NoMemory
    }
}

impl From<NoMemory> for AddRefusal {
    ghost from_gives = { λ _ e. e ≡ refusal.NoMemory };

    fn from(_: NoMemory) -> AddRefusal {
        AddRefusal::NoMemory
    }
}
