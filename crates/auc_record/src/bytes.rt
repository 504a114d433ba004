//! The vectors that a job's lines release.

ghost use Rattle.std.specs.Prelude.{◌≡◌, ◌≤◌, ◌<◌, ◌++◌, [], All, length, IfOk, OnOk, if◌then◌else◌};
ghost use Rattle.auc_subs.specs.Subscriber.{top_at};
ghost use Rattle.auc_record.specs.Vectors.{AreOfRow, IsOfRow, IsReleasableLine, vector_at as vector_there, vectors_in, vector_in};
ghost use Rattle.auc_record.specs.InnerVectors.{IsSourceOf};

use crate::record::{JobVectors, LineRecord};
use auc_memory::{Items, NoMemory};
use auc_subs::Setting;
use auc_vector::{NumberNote, Vector, Vectors};
use std::alloc::Global;

/// The vectors of a subscriber, by its row.
fn vectors_of(set: &Setting, sub: u32) -> Vectors
    requires { sub < length set.now.rows }
    ensures { AreOfRow set.now.key set.now.rows sub result }
{
    let row = set.subs.row(sub);
    Vectors::new(&row.secret, row.amf, row.bits, set.rands.stream(sub))
}

/// The vector of a subscriber's number for EAP-AKA, with the RAND of both.
pub fn vector_at(set: &Setting, sub: u32, n: u64) -> Vector
    requires known { sub < length set.now.rows }
    requires first { 1 ≤ n }
    requires last { n ≤ top_at set.now.rows sub }
    ensures row { IsOfRow set.now.key set.now.rows sub n result }
{
    vectors_of(set, sub).vector_of(n)
}

/// What the vectors of one subscriber are made with.
#[derive(Drop)]
struct Source {
    sub: u32,
    vectors: Vectors,
}

/// The source of a subscriber's vectors: the last one, if it is this subscriber's.
fn source_of(set: &Setting, last: Option<Source>, sub: u32) -> Source
    requires known { sub < length set.now.rows }
    requires source { IsSourceOf set.now last }
    ensures { (result.sub ≡ sub) × AreOfRow set.now.key set.now.rows sub result.vectors }
{
    match last {
        Some(source) if source.sub == sub => source,
        _ => Source {
            sub,
            vectors: vectors_of(set, sub),
        },
    }
}

/// Adds the vector that a line releases, if it releases one. An event's record has its own.
fn add_vector(
    set: &Setting,
    all: &mut JobVectors,
    last: Option<Source>,
    line: &LineRecord,
) -> Result<Option<Source>, NoMemory>
    requires releasable { IsReleasableLine set.now line.now }
    requires source { IsSourceOf set.now last }
    ensures added { OnOk result (all.new ≡ all.old ++ vector_in set.now line.now) }
    ensures source { IfOk result (IsSourceOf set.now) }
{
    match line {
        LineRecord::Number {
            sub,
            note: NumberNote::Drew(n),
        } => {
            let mut source = source_of(set, last, *sub);
            all.push(source.vectors.vector_of(*n))?;
            Ok(Some(source))
        }
        LineRecord::Event(event) => {
            if let Some(vector) = event.record().vector() {
                all.push(vector)?;
            }
            Ok(last)
        }
        LineRecord::Number { .. }
        | LineRecord::Sync { .. }
        | LineRecord::Give { .. }
        | LineRecord::Further(_) => Ok(last),
    }
}

/// The vectors that a job's lines release, in the order of the lines. Consecutive lines of one subscriber share its key
/// schedule and its generator.
fn job_vectors(alloc: Global, set: &Setting, lines: &[LineRecord]) -> Result<JobVectors, NoMemory>
    requires { All (IsReleasableLine set.now) lines.now }
    ensures { IfOk result (λ vectors. vectors ≡ vectors_in set.now lines.now) }
{
    let mut all = Items::new(alloc);
    let mut last = None;
    for line in lines {
        last = add_vector(set, &mut all, last, line)?;
    }
    Ok(all)
}

/// The same for the full print; the brief print needs no vectors.
pub fn printed_vectors(
    alloc: Global,
    set: &Setting,
    lines: &[LineRecord],
    full: bool,
) -> Result<JobVectors, NoMemory>
    requires { All (IsReleasableLine set.now) lines.now }
    ensures { IfOk result (λ vectors. vectors ≡ (if full then vectors_in set.now lines.now else [])) }
{
    if full {
        job_vectors(alloc, set, lines)
    } else {
        Ok(Items::new(alloc))
    }
}
