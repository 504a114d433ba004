//! The text of lines for sites, and of events that change a packet.

use crate::printing::{is_further_printed, is_printed};
use auc_memory::Octets;
use auc_record::{
    BoxedEvent, Event, EventRecord, Further, LineRecord, Note, NoteStep, SitesNote, SitesOutcome,
    WorldRefusal,
};
use auc_sqn::MAX_SEQ;
use auc_vector::Notes;
use std::alloc::Global;
use std::process::Abort;

// A note of the first subscriber's sites, and its line. By hand: sites and packets by their numbers, and a number by itself.
const EVENTS: [(SitesNote, &[u8]); 6] = [
    (
        SitesNote::Asked { site: 2, packet: 3 },
        b"sites 001010000000001 ask 2 sent 3\n",
    ),
    (
        SitesNote::Number {
            site: 2,
            n: MAX_SEQ,
        },
        b"sites 001010000000001 draw 2 number 8796093022207\n",
    ),
    (
        SitesNote::Empty { site: 1 },
        b"sites 001010000000001 draw 1 empty\n",
    ),
    (
        SitesNote::Restarted { site: 64 },
        b"sites 001010000000001 restart 64\n",
    ),
    (
        SitesNote::MasterRestarted,
        b"sites 001010000000001 master\n",
    ),
    (
        SitesNote::Delivered {
            packet: 0,
            outcome: SitesOutcome::NoSuchPacket,
        },
        b"sites 001010000000001 deliver 0 nosuchpacket\n",
    ),
];

// A packet that the second subscriber's sites get, what came of it, and its line. By hand.
const DELIVERIES: [(u32, SitesOutcome, &[u8]); 6] = [
    (
        1,
        SitesOutcome::Granted { count: 4, sent: 2 },
        b"sites 000007 deliver 1 granted 4 sent 2\n",
    ),
    (
        1,
        SitesOutcome::Again { count: 4, sent: 3 },
        b"sites 000007 deliver 1 again 4 sent 3\n",
    ),
    (5, SitesOutcome::Old, b"sites 000007 deliver 5 old\n"),
    (
        6,
        SitesOutcome::Refused,
        b"sites 000007 deliver 6 refused\n",
    ),
    (
        2,
        SitesOutcome::Taken { count: 32 },
        b"sites 000007 deliver 2 taken 32\n",
    ),
    (
        3,
        SitesOutcome::NotMine,
        b"sites 000007 deliver 3 notmine\n",
    ),
];

// Whether a note of a subscriber's sites has this line in each print.
fn is_note_printed(rt: &impl Abort, alloc: Global, sub: u32, note: SitesNote, line: &[u8]) -> bool {
    let brief = is_further_printed(rt, alloc, Further::Sites { sub, note }, (line, &[]), false);
    let full = is_further_printed(rt, alloc, Further::Sites { sub, note }, (line, &[]), true);
    brief && full
}

#[test]
fn lines_for_sites_are_the_same_in_each_print(rt: HostRuntime) {
    for (note, line) in EVENTS {
        let is_right = is_note_printed(&rt, rt.alloc(), 0, note, line);
        assert!(rt; is_right, "at {line:?}");
    }
    for (packet, outcome, line) in DELIVERIES {
        let note = SitesNote::Delivered { packet, outcome };
        let is_right = is_note_printed(&rt, rt.alloc(), 1, note, line);
        assert!(rt; is_right, "at {line:?}");
    }
}

// What came of a change: a packet of these bytes.
fn made(rt: &impl Abort, alloc: Global, packet: u32, bytes: &[u8]) -> Note {
    let notes = Notes {
        resync: None,
        number: None,
        resumed: None,
        usim: None,
        counter: None,
    };
    Note {
        notes,
        packet: Some(packet),
        asked: None,
        device: None,
        vector: None,
        step: NoteStep::Made(Octets::copied_from(alloc, bytes).expect(rt, "memory")),
    }
}

// A change of packet 3, from a place on or at it with this byte: what came of it, and its lines.
type ChangeCase = (
    u32,
    Option<u8>,
    Result<&'static [u8], WorldRefusal>,
    &'static [u8],
    &'static [u8],
);

// By hand.
const CHANGES: [ChangeCase; 6] = [
    (
        48,
        Some(0x7f),
        Ok(&[1, 0x7f]),
        b"tamper 3 48 7f made 4\n",
        b"packet 4 017f\n",
    ),
    (
        0,
        Some(5),
        Ok(&[1]),
        b"tamper 3 0 05 made 4\n",
        b"packet 4 01\n",
    ),
    (
        72,
        Some(0),
        Err(WorldRefusal::NoSuchPlace),
        b"tamper 3 72 00 nosuchplace\n",
        b"",
    ),
    (0, None, Ok(&[]), b"cut 3 0 made 4\n", b"packet 4 \n"),
    (
        72,
        None,
        Err(WorldRefusal::NoSuchPlace),
        b"cut 3 72 nosuchplace\n",
        b"",
    ),
    (
        0,
        None,
        Err(WorldRefusal::NoSuchPacket),
        b"cut 3 0 nosuchpacket\n",
        b"",
    ),
];

fn change_record(
    rt: &impl Abort,
    alloc: Global,
    place: u32,
    byte: Option<u8>,
    came: Result<&[u8], WorldRefusal>,
) -> LineRecord {
    let event = match byte {
        Some(byte) => Event::Tamper {
            packet: 3,
            place,
            byte,
        },
        None => Event::Cut {
            packet: 3,
            length: place,
        },
    };
    let result = match came {
        Ok(bytes) => Ok(made(rt, alloc, 4, bytes)),
        Err(why) => Err(why),
    };
    let boxed = BoxedEvent::new(alloc, EventRecord { event, result }).expect(rt, "memory");
    LineRecord::Event(boxed)
}

#[test]
fn changed_packets_are_printed_and_a_copy_of_no_bytes_too(rt: HostRuntime) {
    for (place, byte, came, line, more) in CHANGES {
        for full in [false, true] {
            let record = change_record(&rt, rt.alloc(), place, byte, came);
            let is_right = is_printed(&rt, rt.alloc(), record, (line, &[more]), full);
            assert!(rt; is_right, "at {line:?}");
        }
    }
}
