//! The line of AUTS that a full print adds after a synchronisation failure.

ghost use Rattle.std.specs.Prelude.{◌≡◌, ◌++◌, OnOk, Some, drop, slice_get};
ghost use Rattle.auc_print.specs.AutsText.{auts_after, auts_lines, event_auts, packet_among, rand_among, rand_delivered, rand_in};
ghost use Rattle.auc_print.specs.Inner.{Prints, lines_text};

use crate::added::bytes_of_step;
use crate::word::Word;
use crate::writer::print_line;
use auc_hmac::piece_of;
use auc_memory::{NoMemory, Octets};
use auc_milenage::make_auts;
use auc_record::{Event, EventRecord, GiveVerdict, LineRecord, Setting};
use auc_vector::UsimNote;

/// Appends the line of AUTS after the line of a job's record, if that is a synchronisation failure.
pub fn print_auts(
    answer: &LineRecord,
    job: &[LineRecord],
    set: &Setting,
    out: &mut Octets,
) -> Result<(), NoMemory>
    ensures { Prints result out.old out.new (lines_text (auts_after set.now job.now answer.now)) }
{
    match answer {
        LineRecord::Give {
            sub,
            n,
            verdict: GiveVerdict::Sync(sqn_ms),
        } => {
            let rand = set.rands.rand_of(*sub, *n);
            print_failure(*sub, Some(rand), *sqn_ms, set, out)
        }
        LineRecord::Event(event) => print_of_event(event.record(), job, set, out),
        LineRecord::Number { .. }
        | LineRecord::Sync { .. }
        | LineRecord::Give { .. }
        | LineRecord::Further(_) => Ok(()),
    }
}

/// Appends the line after that of an event.
fn print_of_event(
    event: &EventRecord,
    job: &[LineRecord],
    set: &Setting,
    out: &mut Octets,
) -> Result<(), NoMemory>
    ensures { Prints result out.old out.new (lines_text (event_auts set.now job.now event.now)) }
{
    let Ok(note) = &event.result else {
        return Ok(());
    };
    match (note.notes.usim, note.device) {
        (Some(UsimNote::Sync(sqn_ms)), Some(sub)) => {
            print_failure(sub, rand_delivered(job, &event.event), sqn_ms, set, out)
        }
        _ => Ok(()),
    }
}

/// Appends the line of a subscriber's USIM, by RAND and SQN_MS, if the subscriber has a row and there is a RAND.
fn print_failure(
    sub: u32,
    rand: Option<[u8; 16]>,
    sqn_ms: [u8; 6],
    set: &Setting,
    out: &mut Octets,
) -> Result<(), NoMemory>
    ensures { Prints result out.old out.new
        (lines_text (auts_lines (slice_get set.now.rows sub) rand sqn_ms)) }
{
    let Some(rand) = rand else {
        return Ok(());
    };
    if sub >= set.subs.len() {
        return Ok(());
    }
    let auts = make_auts(&set.subs.row(sub).secret, rand, sqn_ms);
    print_line(b"auts", &[Word::Hex(&auts), Word::Hex(&rand)], out)
}

/// RAND of the packet of a job that an event delivers.
fn rand_delivered(job: &[LineRecord], event: &Event) -> Option<[u8; 16]>
    ensures { result ≡ rand_delivered job.now event.now }
{
    match *event {
        Event::Deliver { packet, .. } => rand_of_packet(packet, job),
        _ => None,
    }
}

/// RAND of the packet of a number that was sent or made in a job.
fn rand_of_packet(packet: u32, job: &[LineRecord]) -> Option<[u8; 16]>
    ensures { result ≡ rand_in (packet_among packet job.now) }
{
    for answer in job {
        if let LineRecord::Event(event) = answer {
            if let Ok(note) = &event.record().result {
                if note.packet == Some(packet) {
                    return rand_in(bytes_of_step(&note.step));
                }
            }
        }
    }
    None
}

/// RAND of a packet's bytes.
fn rand_in(bytes: &[u8]) -> Option<[u8; 16]>
    ensures { result ≡ rand_in (Some bytes.now) }
{
    rand_among(bytes.len(), behind(bytes, 8))
}

/// The value of the first AT_RAND among at most so many attributes.
fn rand_among(most: usize, attrs: &[u8]) -> Option<[u8; 16]>
    ensures { result ≡ rand_among most attrs.now }
{
    let mut left = most;
    let mut rest = attrs;
    while left > 0 && rest.len() >= 20 {
        if rest[0] == 1 {
            return Some(piece_of(rest, 4));
        }
        rest = behind(rest, 4 * usize::from(rest[1]));
        left -= 1;
    }
    None
}

/// What stands behind so many bytes, or nothing if there are fewer.
fn behind(bytes: &[u8], count: usize) -> &[u8]
    ensures { result.now ≡ drop count bytes.now }
{
    if count <= bytes.len() {
        &bytes[count..]
    } else {
        &[]
    }
}
