//! The vectors of a load, in pieces that threads make.

ghost use Rattle.std.specs.Prelude.{◌≡◌, ◌≤◌, ◌<◌, ◌+◌, ◌*◌, ◌++◌, ℕ, [], IfOk, OnOk, Ok, drop, flat_map, length, map, slice_index_or, take};
ghost use Rattle.std.specs.List.{concat, range_with_len};
ghost use Rattle.auc_random.specs.Random.{rand_of};
ghost use Rattle.auc_sqn.specs.Number.{max_seq, most_bits, top_of};
ghost use Rattle.auc_load.specs.Pieces.{AreStarts, IsCut, IsPlace, IsSource, Source, each_vector, numbers_bytes, pieces_bytes, vectors_from, vectors_of_piece};
ghost use Rattle.auc_load.specs.Summary.{vector_bytes};
ghost use Rattle.auc_record.specs.declared.record.Closing.{Closing};

use auc_hmac::Method;
use auc_memory::{Items, NoMemory, Octets};
use auc_random::{RandStream, Rands};
use auc_record::Closing;
use auc_subs::{Row, Subscribers};
use auc_vector::{Vector, vectors};
use std::alloc::{AllocError, Global};
use std::marker::Model;
use std::thread::{self, Threads};

/// How many vectors a piece has. The last one may have fewer.
const PIECE: u64 = 1024;

/// How many vectors are made together.
const GROUP: usize = 16;

/// What stands in a group before its vectors are made.
const EMPTY: Vector = Vector {
    n: 0,
    rand: [0; 16],
    autn: [0; 16],
    xres: [0; 8],
    ck: [0; 16],
    ik: [0; 16],
};

/// What the vectors of a load are made from. Contracts see the key of the random bytes, the rows and the closings.
#[derive(Drop)]
pub(crate) struct Source<'a> {
    pub(crate) rands: &'a Rands,
    pub(crate) subs: &'a Subscribers,
    /// How the round closed the subscribers.
    pub(crate) closings: &'a [Closing],
}

impl<'a> Model for Source<'a> {
    ghost use Rattle.auc_load.specs.Pieces as specs;

    ghost Value = { specs.Source };

    ghost view = { λ source. record { key = source.rands.now; rows = source.subs.now; closings = source.closings.now } };
}

/// A place among the vectors: a closing, and how many of its vectors stand before.
#[derive(Clone, Copy)]
pub(crate) struct Place {
    pub(crate) closing: usize,
    pub(crate) before: u64,
}

/// Where each piece begins.
pub(crate) fn starts(alloc: Global, source: &Source) -> Result<Items<Place>, NoMemory>
    requires { IsSource source.now }
    ensures starts { IfOk result (λ starts. AreStarts source.now starts) }
    ensures all { IfOk result (λ starts. drop (vectors_of_piece * length starts) (each_vector source.now.key source.now.closings) ≡ []) }
{
    let mut starts = Items::new(alloc);
    let mut before = 0;
    for closing in 0..source.closings.len() {
        let last = source.closings[closing].last;
        before = push_starts(&mut starts, closing, last, before)?;
    }
    Ok(starts)
}

/// Notes the pieces whose first vector is of a closing, up to its last number, if the first of them begins after so many
/// of the closing's vectors. Gives how many vectors of the next closing stand before the next piece.
fn push_starts(
    starts: &mut Items<Place>,
    closing: usize,
    last: u64,
    before: u64,
) -> Result<u64, NoMemory>
    requires near { before ≤ vectors_of_piece }
    requires last { last ≤ max_seq }
    ensures near { IfOk result (λ after. after ≤ vectors_of_piece) }
    ensures cut { IfOk result (λ after. (source : Source) (d : Closing) → closing < length source.closings
        → (slice_index_or source.closings closing d).last ≡ last
        → IsCut source (record { closing = closing; before = before }) starts.old
        → IsCut source (record { closing = closing + 1; before = after }) starts.new) }
{
    let mut at = before;
    while at < last {
        starts.push(Place {
            closing,
            before: at,
        })?;
        at += PIECE;
    }
    Ok(at - last)
}

/// The bytes of so many pieces from the piece `first` on, each made by a thread of its own.
pub(crate) fn make_pieces<R: Threads + Sync>(
    rt: &R,
    alloc: Global,
    source: &Source,
    starts: &[Place],
    first: usize,
    count: usize,
) -> Result<Items<Octets>, NoMemory>
    requires source { IsSource source.now }
    requires starts { AreStarts source.now starts.now }
    requires within { first + count ≤ length starts.now }
    ensures { IfOk result (λ made. concat made ≡ pieces_bytes source.now first count) }
{
    collect(alloc, by_threads(rt, alloc, source, starts, first, count)?)
}

/// What a thread for each of so many pieces made.
fn by_threads<R: Threads + Sync>(
    rt: &R,
    alloc: Global,
    source: &Source,
    starts: &[Place],
    first: usize,
    count: usize,
) -> Result<Vec<Result<Octets, NoMemory>>, AllocError>
    requires source { IsSource source.now }
    requires starts { AreStarts source.now starts.now }
    requires within { first + count ≤ length starts.now }
    ensures count { IfOk result (λ all. length all.items ≡ count) }
    ensures each { IfOk result (λ all. (i : ℕ) (d : _) → i < count
        → IfOk (slice_index_or all.items i d) (λ bytes. bytes ≡ pieces_bytes source.now (first + i) 1)) }
{
    let one = |i: usize| -> Result<Octets, NoMemory>
        requires { IsSource source.now × AreStarts source.now starts.now × (first + i < length starts.now) }
        ensures { IfOk result (λ bytes. bytes ≡ pieces_bytes source.entry.now (first + i) 1) }
    { numbered(alloc, source, starts, first + i) };
    thread::map_indices(rt, alloc, count, &one)
}

/// The bytes of the piece of a number.
fn numbered(
    alloc: Global,
    source: &Source,
    starts: &[Place],
    number: usize,
) -> Result<Octets, NoMemory>
    requires source { IsSource source.now }
    requires starts { AreStarts source.now starts.now }
    requires known { number < length starts.now }
    ensures { IfOk result (λ bytes. bytes ≡ pieces_bytes source.now number 1) }
{
    piece(alloc, source, starts[number])
}

/// The pieces, if each of them had the memory.
fn collect(alloc: Global, all: Vec<Result<Octets, NoMemory>>) -> Result<Items<Octets>, NoMemory>
    ensures { IfOk result (λ made. map Ok made ≡ all.items) }
{
    let mut made = Items::new(alloc);
    for one in all {
        made.push(one?)?;
    }
    Ok(made)
}

/// The bytes of the piece that begins at a place.
fn piece(alloc: Global, source: &Source, start: Place) -> Result<Octets, NoMemory>
    requires source { IsSource source.now }
    requires start { IsPlace source.now.closings start }
    ensures { IfOk result (λ bytes. bytes ≡ concat (take vectors_of_piece (vectors_from source.now start))) }
{
    let mut bytes = Octets::new(alloc);
    let mut before = start.before;
    let mut left = PIECE;
    for k in start.closing..source.closings.len() {
        let closing = source.closings[k];
        let count = left.min(closing.last - before);
        let row = source.subs.row(closing.sub);
        append_numbers(&mut bytes, source.rands, row, closing.sub, before, count)?;
        left -= count;
        if left == 0 {
            return Ok(bytes);
        }
        before = 0;
    }
    Ok(bytes)
}

/// Appends the bytes of a subscriber's vectors of `count` numbers after `before`, which are made in groups.
fn append_numbers(
    bytes: &mut Octets,
    rands: &Rands,
    row: &Row,
    sub: u32,
    before: u64,
    count: u64,
) -> Result<(), NoMemory>
    requires bits { row.now.bits ≤ most_bits }
    requires last { before + count ≤ top_of row.now.bits }
    ensures { OnOk result (bytes.new ≡ bytes.old ++ concat (numbers_bytes rands.now row.now sub (before + 1) count)) }
{
    let mut stream = rands.stream(sub);
    let mut done = 0;
    while done < count {
        let group = (count - done).min(GROUP as u64);
        append_group(bytes, &mut stream, row, before + done, group as usize)?;
        done += group;
    }
    Ok(())
}

/// Appends the bytes of the vectors of `count` numbers after `before`, which are made together.
fn append_group(
    bytes: &mut Octets,
    stream: &mut RandStream,
    row: &Row,
    before: u64,
    count: usize,
) -> Result<(), NoMemory>
    requires bits { row.now.bits ≤ most_bits }
    requires few { count ≤ 16 }
    requires last { before + count ≤ top_of row.now.bits }
    ensures kept { stream.new ≡ stream.old }
    ensures bytes { OnOk result (bytes.new ≡ bytes.old
        ++ concat (numbers_bytes stream.old.key row.now stream.old.sub (before + 1) count)) }
{
    let rands = rands_of(stream, before + 1, count);
    let mut group = [EMPTY; GROUP];
    let made = &mut group[..count];
    vectors(
        &row.secret,
        Method::Aka,
        row.amf,
        &[],
        row.bits,
        before + 1,
        &rands[..count],
        made,
    );
    append_all(bytes, made)
}

/// The RANDs of `count` numbers from `first` on, and zeros after them.
fn rands_of(stream: &mut RandStream, first: u64, count: usize) -> [[u8; 16]; GROUP]
    requires few { count ≤ 16 }
    requires last { first + count ≤ max_seq + 1 }
    ensures kept { stream.new ≡ stream.old }
    ensures rands { take count result ≡ map (rand_of stream.old.key stream.old.sub) (range_with_len first count) }
{
    let mut rands = [[0; 16]; GROUP];
    for i in 0..count {
        rands[i] = stream.rand_of(first + i as u64);
    }
    rands
}

/// Appends the bytes of vectors, one after the other.
fn append_all(bytes: &mut Octets, made: &[Vector]) -> Result<(), NoMemory>
    ensures { OnOk result (bytes.new ≡ bytes.old ++ flat_map vector_bytes made.now) }
{
    for vector in made {
        append_vector(bytes, vector)?;
    }
    Ok(())
}

/// Appends the bytes of a vector.
fn append_vector(bytes: &mut Octets, vector: &Vector) -> Result<(), NoMemory>
    ensures { OnOk result (bytes.new ≡ bytes.old ++ vector_bytes vector.now) }
{
    bytes.append(&vector.rand)?;
    bytes.append(&vector.autn)?;
    bytes.append(&vector.xres)?;
    bytes.append(&vector.ck)?;
    bytes.append(&vector.ik)
}
