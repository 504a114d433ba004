//! The text of a part of a transcript: a round or a restart.

ghost use Rattle.std.specs.Prelude.{◌≡◌, ◌++◌, ◌<◌, [], drop, length, map, All, IsTrue, OnOk, OnErr, flat_map, if◌then◌else◌, slice_index_or};
ghost use Rattle.auc_record.specs.Record.{IsBelow, NamesBelow, subscriber_of};
ghost use Rattle.auc_record.specs.Vectors.{vectors_in};
ghost use Rattle.auc_print.specs.Inner.{Prints, answer_text, answers_text, bytes_text, left_after, shown_after};
ghost use Rattle.auc_print.specs.OneText.{AnswerFits, RoundFits};
ghost use Rattle.auc_print.specs.Text.{identities_of, jobs_lines, line_text, restart_text, round_text};

use crate::added::print_added;
use crate::auts::print_auts;
use crate::line::{print_closings, print_first, print_premise, print_record, print_sessions};
use crate::word::Word;
use crate::writer::print_line;
use auc_memory::{NoMemory, Octets};
use auc_record::{JobRecord, JobVectors, LineRecord, RoundRecord, Setting};
use auc_vector::{NumberNote, Vector};

/// Appends the text of a restart. If memory runs out, `out` stays as it was.
pub fn print_restart(out: &mut Octets) -> Result<(), NoMemory>
    ensures printed { OnOk result (out.new ≡ out.old ++ restart_text) }
    ensures kept { OnErr result (out.new ≡ out.old) }
{
    out.append(b"restart\n")
}

/// Appends the text of a round: its own line, the lines of its jobs, numbered from 1, those of its closings and its
/// sessions, and that of the premise of equal keys. In a full print the lines of a vector's bytes, an AUTS, a packet and keys
/// follow the line that they belong to; `vectors` has the vectors that each job's lines released, and in a brief print it
/// is empty. Each subscriber that the round names is a row. Each SQN, K_ASME, HXRES* and changed byte that is printed
/// consists of bytes. If memory runs out, `out` stays as it was.
pub fn print_round(
    round: &RoundRecord,
    vectors: &[JobVectors],
    set: &Setting,
    full: bool,
    out: &mut Octets,
) -> Result<(), NoMemory>
    requires named { NamesBelow (length set.now.rows) round.now }
    requires vectors { vectors.now ≡ (if full then map (vectors_in set.now) round.now.jobs else []) }

    ensures printed { OnOk result (out.new ≡ out.old ++ round_text set.now full round.now) }
    ensures fits { OnOk result (RoundFits round.now) }
    ensures kept { OnErr result (out.new ≡ out.old) }
{
    let count = out.len();
    match print_lines(round, vectors, set, full, out) {
        Ok(()) => Ok(()),
        Err(NoMemory) => {
            out.truncate(count);
            Err(NoMemory)
        }
    }
}

/// Appends the lines of a round. If memory runs out, some of them may be appended.
fn print_lines(
    round: &RoundRecord,
    vectors: &[JobVectors],
    set: &Setting,
    full: bool,
    out: &mut Octets,
) -> Result<(), NoMemory>
    requires named { NamesBelow (length set.now.rows) round.now }
    requires vectors { vectors.now ≡ (if full then map (vectors_in set.now) round.now.jobs else []) }

    ensures text { Prints result out.old out.new (round_text set.now full round.now) }
    ensures fits { OnOk result (RoundFits round.now) }
{
    print_line(b"round", &[Word::Number(round.number)], out)?;
    print_jobs(round.jobs.as_slice(), vectors, set, full, out)?;
    print_closings(round.closings.as_slice(), set.subs, out)?;
    print_sessions(round.sessions.as_slice(), out)?;
    print_premise(round.premise, out)
}

/// Appends the lines of a round's jobs.
fn print_jobs(
    jobs: &[JobRecord],
    vectors: &[JobVectors],
    set: &Setting,
    full: bool,
    out: &mut Octets,
) -> Result<(), NoMemory>
    requires named { All (All (λ answer. IsBelow (length set.now.rows) (subscriber_of answer))) jobs.now }
    requires vectors { vectors.now ≡ (if full then map (vectors_in set.now) jobs.now else []) }

    ensures text { Prints result out.old out.new
        (flat_map (line_text set.now full) (jobs_lines 1 jobs.now)) }
    ensures fits { OnOk result (All (All AnswerFits) jobs.now) }
{
    for (place, job) in jobs.iter().enumerate() {
        print_line(b"job", &[Word::Number(place as u64 + 1)], out)?;
        let own = vectors_of(vectors, place, full);
        print_answers(job.as_slice(), own, set, full, out)?;
    }
    Ok(())
}

/// The vectors that a print shows of the job at a place: in a brief print none.
fn vectors_of(vectors: &[JobVectors], place: usize, full: bool) -> &[Vector]
    requires { IsTrue full → place < length vectors.now }
    ensures { result.now ≡ (if full then slice_index_or vectors.now place [] else []) }
{
    if full { vectors[place].as_slice() } else { &[] }
}

/// Appends the lines of a job's records. The i-th line that releases a vector is followed by the bytes of the
/// i-th of the vectors, if there are so many.
fn print_answers(
    job: &[LineRecord],
    vectors: &[Vector],
    set: &Setting,
    full: bool,
    out: &mut Octets,
) -> Result<(), NoMemory>
    requires { All (λ answer. IsBelow (length set.now.rows) (subscriber_of answer)) job.now }

    ensures text { Prints result out.old out.new
        (answers_text set.now full job.now job.now vectors.now) }
    ensures fits { OnOk result (All AnswerFits job.now) }
{
    let mut left = vectors;
    for answer in job {
        print_answer(answer, job, left, set, full, out)?;
        left = after(answer, left);
    }
    Ok(())
}

/// Appends the line of a record of a job. If it releases a vector and vectors are left, the line of the first
/// one's bytes follows; in a full print, so do those of AUTS, of K_SEAF or of an event's packet and keys.
fn print_answer(
    answer: &LineRecord,
    job: &[LineRecord],
    vectors: &[Vector],
    set: &Setting,
    full: bool,
    out: &mut Octets,
) -> Result<(), NoMemory>
    requires { IsBelow (length set.now.rows) (subscriber_of answer.now) }

    ensures text { Prints result out.old out.new
        (answer_text set.now full job.now answer.now vectors.now) }
    ensures fits { OnOk result (AnswerFits answer.now) }
{
    print_record(answer, set.subs, out)?;
    print_shown(answer, vectors, out)?;
    if full {
        print_auts(answer, job, set, out)?;
        print_added(answer, out)
    } else {
        Ok(())
    }
}

/// Appends the line of the first vector's bytes, if the record releases a vector and there is one.
fn print_shown(answer: &LineRecord, vectors: &[Vector], out: &mut Octets) -> Result<(), NoMemory>
    ensures { Prints result out.old out.new (bytes_text (shown_after answer.now vectors.now)) }
{
    match answer {
        LineRecord::Number {
            note: NumberNote::Drew(_),
            ..
        } => print_first(vectors, out),
        LineRecord::Event(event) if event.record().vector().is_some() => print_first(vectors, out),
        _ => Ok(()),
    }
}

/// The vectors that are left after a record's line.
fn after<'a>(answer: &LineRecord, vectors: &'a [Vector]) -> &'a [Vector]
    ensures { result.now ≡ left_after answer.now vectors.now }
{
    match answer {
        LineRecord::Number {
            note: NumberNote::Drew(_),
            ..
        } => behind_first(vectors),
        LineRecord::Event(event) if event.record().vector().is_some() => behind_first(vectors),
        _ => vectors,
    }
}

/// The vectors behind the first, if there is one.
fn behind_first(vectors: &[Vector]) -> &[Vector]
    ensures { result.now ≡ drop 1 vectors.now }
{
    match vectors {
        [_, left @ ..] => left,
        [] => vectors,
    }
}
