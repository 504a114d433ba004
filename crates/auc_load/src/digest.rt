//! The digest of all vectors of a load.

ghost use Rattle.std.specs.Prelude.{◌≡◌, ◌≤◌, ◌<◌, ◌+◌, ◌++◌, ℕ, List, IfOk, length};
ghost use Rattle.std.specs.List.{concat};
ghost use Rattle.std.specs.Thread.{IsSync};
ghost use Rattle.sha2.specs.Sha256.{sha256};
ghost use Rattle.sha2.specs.Hashers.{Holds256};
ghost use Rattle.auc_load.specs.Input.{load_rows};
ghost use Rattle.auc_load.specs.Pieces.{AreStarts, IsHashing, IsSource, each_vector, pieces_bytes};
ghost use Rattle.auc_load.specs.Summary.{all_bytes, load_closings};
ghost use Rattle.auc_load.specs.Words.{IsLoad};

use crate::input::key_of;
use crate::pieces::{Place, Source, make_pieces, starts};
use crate::words::LoadWords;
use auc_memory::{Items, NoMemory, Octets};
use auc_random::Rands;
use auc_record::Closing;
use auc_subs::Subscribers;
use sha2::{Digest, Sha256};
use std::alloc::Global;
use std::thread::{self, Threads};

/// How far the digest is.
#[derive(Drop)]
pub(crate) struct Hashing {
    /// What was hashed.
    pub(crate) hasher: Sha256,
    /// The pieces that were made after it.
    pub(crate) made: Items<Octets>,
    /// How many pieces were made.
    pub(crate) begun: usize,
}

/// The digest of all vectors, which as many threads make as the load has workers.
pub(crate) fn digest<R: Threads + Sync>(
    rt: &R,
    alloc: Global,
    load: &LoadWords,
    subs: &Subscribers,
    closings: &[Closing],
) -> Result<[u8; 32], NoMemory>
    requires load { IsLoad load.now }
    requires subscribers { subs.now ≡ load_rows load.now }
    requires closings { closings.now ≡ load_closings load.now }
    ensures { IfOk result (λ digest. digest ≡ sha256 (all_bytes load.now)) }
{
    let rands = Rands::new(key_of(load.key));
    let source = Source {
        rands: &rands,
        subs,
        closings,
    };
    digest_of(rt, alloc, &source, load.workers as usize)
}

/// The digest of all vectors, of which each worker makes a piece while the pieces before are hashed.
fn digest_of<R: Threads + Sync>(
    rt: &R,
    alloc: Global,
    source: &Source,
    workers: usize,
) -> Result<[u8; 32], NoMemory>
    requires source { IsSource source.now }
    requires workers { 1 ≤ workers }
    ensures { IfOk result (λ digest. digest ≡ sha256 (concat (each_vector source.now.key source.now.closings))) }
{
    let starts = starts(alloc, source)?;
    let hashing = make_all(rt, alloc, source, starts.as_slice(), workers)?;
    Ok(hash_all(hashing.hasher, hashing.made).finalize())
}

/// Makes all pieces, and hashes all but the last ones.
fn make_all<R: Threads + Sync>(
    rt: &R,
    alloc: Global,
    source: &Source,
    starts: &[Place],
    workers: usize,
) -> Result<Hashing, NoMemory>
    requires source { IsSource source.now }
    requires starts { AreStarts source.now starts.now }
    requires workers { 1 ≤ workers }
    ensures hashing { IfOk result (IsHashing source.now) }
    ensures begun { IfOk result (λ hashing. hashing.begun ≡ length starts.now) }
{
    let mut hashing = Hashing {
        hasher: Sha256::new(),
        made: Items::new(alloc),
        begun: 0,
    };
    while hashing.begun < starts.len() {
        hashing = turn(rt, alloc, source, starts, workers, hashing)?;
    }
    Ok(hashing)
}

/// Makes the next pieces, one for each worker or as many as are left, and meanwhile hashes those that were made.
fn turn<R: Threads + Sync>(
    rt: &R,
    alloc: Global,
    source: &Source,
    starts: &[Place],
    workers: usize,
    hashing: Hashing,
) -> Result<Hashing, NoMemory>
    requires source { IsSource source.now }
    requires starts { AreStarts source.now starts.now }
    requires workers { 1 ≤ workers }
    requires left { hashing.begun < length starts.now }
    requires hashing { IsHashing source.now hashing }
    ensures hashing { IfOk result (IsHashing source.now) }
    ensures begun { IfOk result (λ next. (hashing.begun < next.begun) × (next.begun ≤ length starts.now)) }
{
    let Hashing {
        hasher,
        made,
        begun,
    } = hashing;
    let count = workers.min(starts.len() - begun);
    let make = move || -> Result<Items<Octets>, NoMemory>
        requires { IsSync R.row × IsSource source.now × AreStarts source.now starts.now × (begun + count ≤ length starts.now) }
        ensures { IfOk result (λ next. concat next ≡ pieces_bytes source.entry.now begun count) }
    { make_pieces(rt, alloc, source, starts, begun, count) };
    let hash = move || -> Sha256
        ensures { (fed : List ℕ) → Holds256 hasher fed → Holds256 result (fed ++ concat made) }
    { hash_all(hasher, made) };
    let (next, hasher) = thread::join(rt, make, hash);
    Ok(Hashing {
        hasher,
        made: next?,
        begun: begun + count,
    })
}

/// Hashes pieces, one after the other.
fn hash_all(hasher: Sha256, made: Items<Octets>) -> Sha256
    ensures { (fed : List ℕ) → Holds256 hasher fed → Holds256 result (fed ++ concat made) }
{
    let mut hasher = hasher;
    for bytes in made.as_slice() {
        hasher.update(bytes.as_slice());
    }
    hasher
}
