//! The input of the round.

ghost use Rattle.std.specs.Prelude.{◌≡◌, ◌<◌, ◌+◌, ◌*◌, ◌^◌, ◌∷◌, [], None, IfOk};
ghost use Rattle.auc_subs.specs.Subscriber.{IsRow, most_subscribers};
ghost use Rattle.auc_load.specs.Input.{job_at, load_jobs, load_key, load_rows, row_at};
ghost use Rattle.auc_load.specs.Words.{IsLoad};

use crate::words::LoadWords;
use auc_lines::{JobPart, Line};
use auc_memory::{Imsi, Items, NoMemory};
use auc_milenage::Secret;
use auc_random::Rands;
use auc_subs::{Row, Subscribers};
use std::alloc::Global;

/// The stream of the subscribers' K and OPc, 2^41.
const SECRETS_STREAM: u64 = 2199023255552;
/// The number of the IMSI of subscriber 0: 00101, and 0 in ten digits.
const FIRST_IMSI: u64 = 1010000000000;
/// How many vectors a job draws.
pub(crate) const VECTORS_OF_A_JOB: u32 = 5;

/// The key of the random bytes: 24 zero bytes, and the number in 8 bytes with the most significant first.
pub fn key_of(key: u64) -> [u8; 32]
    ensures { result ≡ load_key key }
{
    let mut bytes = [0; 32];
    bytes[24..].copy_from_slice(&key.to_be_bytes());
    bytes
}

/// The subscribers. Subscriber i, from 0, has the IMSI of 00101 and i in ten digits, the K and OPc of 16 random bytes
/// each, the AMF 8000, an index of 5 bits, no age limit, and no number drawn or accepted.
pub fn subscribers(alloc: Global, load: &LoadWords) -> Result<Subscribers, NoMemory>
    requires { IsLoad load.now }
    ensures { IfOk result (λ subs. subs ≡ load_rows load.now) }
{
    let rands = Rands::new(key_of(load.key));
    let mut subs = Subscribers::new(alloc);
    for i in 0..load.subscribers {
        subs.push(row(&rands, i))?;
    }
    Ok(subs)
}

/// Subscriber i.
fn row(rands: &Rands, i: u32) -> Row
    requires { i < most_subscribers }
    ensures value { result ≡ row_at rands.now i }
    ensures row { IsRow result }
{
    let place = 8 * u64::from(i);
    let k = rands.sixteen_at(SECRETS_STREAM, place);
    let opc = rands.sixteen_at(SECRETS_STREAM, place + 4);
    Row {
        imsi: Imsi::new(15, FIRST_IMSI + u64::from(i)),
        secret: Secret { k, opc },
        amf: [0x80, 0],
        seq: 0,
        usim: 0,
        bits: 5,
        age: None,
    }
}

/// The jobs of the round. Job j, from 0, draws 5 vectors of subscriber j modulo their number.
pub fn jobs(alloc: Global, load: &LoadWords) -> Result<Items<JobPart>, NoMemory>
    requires { IsLoad load.now }
    ensures { IfOk result (λ jobs. jobs ≡ load_jobs load.now) }
{
    let mut jobs = Items::new(alloc);
    for j in 0..load.jobs {
        jobs.push(job(alloc, j % load.subscribers)?)?;
    }
    Ok(jobs)
}

/// A job that draws for a subscriber.
fn job(alloc: Global, sub: u32) -> Result<JobPart, NoMemory>
    ensures { IfOk result (λ job. job ≡ Line.Draw sub VECTORS_OF_A_JOB ∷ []) }
{
    let mut job = Items::new(alloc);
    job.push(Line::Draw {
        sub,
        count: VECTORS_OF_A_JOB,
    })?;
    Ok(job)
}
