//! What a job and a round tell of their sessions.

ghost use Rattle.std.specs.Prelude.{◌≡◌, ◌<◌, ◌^◌, ◌++◌, IfOk, OnOk, flat_map, length};
ghost use Rattle.indexmap.specs.IndexMap.{values};
ghost use Rattle.auc_world.specs.Sessions.{AreVerdicts, joined, premise_from, premise_with, same_keys, verdict_on};

use crate::net::Session;
use auc_hmac::KeySet;
use auc_memory::{Items, NoMemory};
use auc_record::{JobSessions, Premise, SessionVerdict};
use auc_server::ServerState;
use auc_vector::Outcome;
use indexmap::IndexMap;
use std::alloc::Global;

fn same_keys(a: &KeySet, b: &KeySet) -> bool
    ensures { result ≡ same_keys a.now b.now }
{
    a.k_encr.as_slice() == b.k_encr.as_slice()
        && (a.k_aut.as_slice() == b.k_aut.as_slice()
            && (a.k_re.as_slice() == b.k_re.as_slice()
                && (a.msk.as_slice() == b.msk.as_slice()
                    && a.emsk.as_slice() == b.emsk.as_slice())))
}

/// Adds the verdict on a session, if both ends ended in Success.
fn add_verdict(verdicts: &mut Items<SessionVerdict>, session: &Session) -> Result<(), NoMemory>
    ensures { OnOk result (verdicts.new ≡ verdicts.old ++ verdict_on session.now) }
{
    let Some(server) = &session.server else {
        return Ok(());
    };
    match (server.state(), &session.peer_keys) {
        (ServerState::Ended(Outcome::Success(a), _), Some(b)) => verdicts.push(SessionVerdict {
            session: session.number,
            agree: same_keys(&a, b),
        }),
        _ => Ok(()),
    }
}

/// The verdicts on a job's sessions, in the order in which they were opened.
pub(crate) fn job_verdicts(
    alloc: Global,
    sessions: &IndexMap<u32, Session>,
) -> Result<Items<SessionVerdict>, NoMemory>
    ensures { IfOk result (λ verdicts. verdicts ≡ flat_map verdict_on (values sessions.now)) }
{
    let mut verdicts = Items::new(alloc);
    for place in 0..sessions.len() {
        add_verdict(&mut verdicts, &sessions[place])?;
    }
    Ok(verdicts)
}

/// The verdicts of some jobs, in their order.
fn gathered(alloc: Global, jobs: &[JobSessions]) -> Result<Vec<SessionVerdict>, NoMemory>
    ensures { IfOk result (λ all. all.items ≡ flat_map (λ job. job.verdicts) jobs.now) }
{
    let mut all = Vec::new(alloc);
    for job in jobs {
        all.extend_from_slice(job.verdicts.as_slice())?;
    }
    Ok(all)
}

/// The verdicts on the sessions of a round's jobs, in the order of the sessions' numbers.
pub fn round_verdicts(
    alloc: Global,
    jobs: &[JobSessions],
) -> Result<Items<SessionVerdict>, NoMemory>
    ensures { IfOk result (AreVerdicts jobs.now) }
{
    let mut all = gathered(alloc, jobs)?;
    all.sort_by_key(|verdict| verdict.session)?;
    Ok(listed(alloc, &all)?)
}

/// The same verdicts as a list.
fn listed(alloc: Global, all: &[SessionVerdict]) -> Result<Items<SessionVerdict>, NoMemory>
    ensures { IfOk result (λ list. list ≡ all.now) }
{
    let mut list = Items::new(alloc);
    for verdict in all {
        list.push(*verdict)?;
    }
    Ok(list)
}

/// What a job tells of the premise.
fn premise_of(number: u32, job: &JobSessions) -> Premise
    ensures { result ≡ premise_with number job.now.any job.now.broken }
{
    match job.broken {
        _ if !job.any => Premise::NoSession,
        None => Premise::Held,
        Some(breach) => Premise::Broken {
            job: number,
            breach,
        },
    }
}

/// What earlier jobs and a later one tell of the premise.
fn joined(before: Premise, later: Premise) -> Premise
    ensures { result ≡ joined before later }
{
    match (before, later) {
        (Premise::Held, Premise::NoSession) | (Premise::Broken { .. }, _) => before,
        _ => later,
    }
}

/// Whether the premise of equal keys held in a round of these jobs.
pub fn round_premise(jobs: &[JobSessions]) -> Premise
    requires { length jobs.now < 2 ^ 32 }
    ensures { result ≡ premise_from 1 jobs.now }
{
    let mut premise = Premise::NoSession;
    for place in 0..jobs.len() {
        premise = joined(premise, premise_of(place as u32 + 1, &jobs[place]));
    }
    premise
}
