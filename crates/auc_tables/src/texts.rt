//! How scenarios and subscribers are read.

use auc_lines::{
    FivegLine, Identity, JobPart, Line, Report, SessionLine, SimLine, SimSchedule, SiteEvent,
    SitesLine,
};
use auc_memory::Items;
use auc_script::{Part, Script, ScriptRefusal};
use auc_subs::{AddRefusal, SubsRefusal, Subscribers};
use std::alloc::{AllocError, Global};

/// How many jobs a scenario's rounds have, and its words; or the line of its refusal and the cause.
pub fn script(alloc: Global, text: &[u8]) -> Result<String, AllocError> {
    if text.len() > 67108864 {
        return String::from_str(alloc, "too long");
    }
    let mut subs = Subscribers::new(alloc);
    match Script::read(alloc, text, &mut subs) {
        Ok(script) => text_of_script(alloc, &script, subs.len()),
        Err(ScriptRefusal::Line(line, why)) => format!(in alloc; "line {line} {why:?}"),
        Err(ScriptRefusal::NoMemory) => Err(AllocError),
    }
}

fn text_of_script(alloc: Global, script: &Script, subs: u32) -> Result<String, AllocError> {
    let Script {
        key,
        workers,
        full,
        realm,
        parts,
    } = script;
    let key = hex::encode(alloc, key)?;
    let realm = hex::encode(alloc, realm.as_slice())?;
    let mut text = format!(in alloc;
        "subscribers {subs} workers {workers} full {full} randkey {key} realm {realm}"
    )?;
    if parts.len() <= 2 {
        for part in parts.as_slice() {
            push_part(alloc, &mut text, part)?;
        }
    }
    Ok(text)
}

fn push_part(alloc: Global, text: &mut String, part: &Part) -> Result<(), AllocError> {
    match part {
        Part::Round(jobs) => push_jobs(alloc, text, jobs),
        Part::Restart => text.push_str(" restart"),
    }
}

fn push_jobs(alloc: Global, text: &mut String, jobs: &Items<JobPart>) -> Result<(), AllocError> {
    text.push_str(" round")?;
    if jobs.len() <= 9 {
        for job in jobs.as_slice() {
            text.push_str(" job")?;
            push_lines(alloc, text, job)?;
        }
    }
    Ok(())
}

fn push_lines(alloc: Global, text: &mut String, job: &JobPart) -> Result<(), AllocError> {
    if job.len() <= 9 {
        for line in job.as_slice() {
            text.push_str(" ")?;
            text.push_str(text_of_line(alloc, line)?.as_str())?;
        }
    }
    Ok(())
}

fn text_of_line(alloc: Global, line: &Line) -> Result<String, AllocError> {
    match line {
        Line::Draw { sub, count } => format!(in alloc; "Draw {{ sub: {sub}, count: {count} }}"),
        Line::Sync { sub, report, count } => {
            let report = text_of_report(alloc, report)?;
            format!(in alloc; "Sync {{ sub: {sub}, {report}, count: {count} }}")
        }
        Line::Give { sub, n } => format!(in alloc; "Give {{ sub: {sub}, n: {n} }}"),
        Line::Eps { sub, snid } => {
            let snid = hex::encode(alloc, snid)?;
            format!(in alloc; "Eps {{ sub: {sub}, snid: {snid} }}")
        }
        Line::Fiveg(line) => text_of_fiveg(alloc, line),
        Line::Sites(line) => text_of_sites(alloc, line),
        Line::Sim(line) => text_of_sim(alloc, line),
        Line::Session(line) => text_of_session(alloc, line),
        Line::Start(session) => format!(in alloc; "Start({session})"),
        Line::Deliver {
            session,
            end,
            packet,
        } => format!(in alloc; "Deliver {{ session: {session}, end: {end:?}, packet: {packet} }}"),
        Line::Repeat(session) => format!(in alloc; "Repeat({session})"),
        Line::GiveUp { session, end } => {
            format!(in alloc; "GiveUp {{ session: {session}, end: {end:?} }}")
        }
        Line::Plain(session) => format!(in alloc; "Plain({session})"),
        Line::Tamper {
            packet,
            place,
            byte,
        } => format!(in alloc; "Tamper {{ packet: {packet}, place: {place}, byte: {byte} }}"),
        Line::Cut { packet, length } => {
            format!(in alloc; "Cut {{ packet: {packet}, length: {length} }}")
        }
    }
}

/// The SEQ and the bit of a report, or its AUTS and its RAND as hexadecimal digits.
fn text_of_report(alloc: Global, report: &Report) -> Result<String, AllocError> {
    match report {
        Report::Seq { seq, bit } => format!(in alloc; "seq: {seq}, bit: {bit:?}"),
        Report::Auts { auts, rand } => {
            let auts = hex::encode(alloc, auts)?;
            let rand = hex::encode(alloc, rand)?;
            format!(in alloc; "auts: {auts}, rand: {rand}")
        }
    }
}

/// A 5G authentication with its names as hexadecimal digits.
fn text_of_fiveg(alloc: Global, line: &FivegLine) -> Result<String, AllocError> {
    let FivegLine {
        sub,
        home,
        device,
        bit,
        hxres,
    } = line;
    let home = hex::encode(alloc, home.as_slice())?;
    let device = hex::encode(alloc, device.as_slice())?;
    format!(in alloc;
        "Fiveg {{ sub: {sub}, home: {home}, device: {device}, bit: {bit:?}, hxres: {hxres} }}"
    )
}

/// A line for sites: how many events it has, and its first nine.
fn text_of_sites(alloc: Global, line: &SitesLine) -> Result<String, AllocError> {
    let (sub, sites, size, events) = (line.sub(), line.sites(), line.size(), line.schedule());
    let count = events.len();
    let mut text = format!(in alloc;
        "Sites {{ sub: {sub}, sites: {sites}, size: {size}, events: {count}"
    )?;
    for event in events.iter().take(9) {
        text.push_str(" ")?;
        text.push_str(text_of_event(alloc, *event)?.as_str())?;
    }
    text.push_str(" }")?;
    Ok(text)
}

fn text_of_event(alloc: Global, event: SiteEvent) -> Result<String, AllocError> {
    match event {
        SiteEvent::Ask(site) => format!(in alloc; "Ask({site})"),
        SiteEvent::Deliver(packet) => format!(in alloc; "Deliver({packet})"),
        SiteEvent::Draw(site) => format!(in alloc; "Draw({site})"),
        SiteEvent::Restart(site) => format!(in alloc; "Restart({site})"),
        SiteEvent::MasterRestart => String::from_str(alloc, "MasterRestart"),
    }
}

/// A session of EAP-SIM: `Plain`, or how many deliveries it has, and its first nine.
fn text_of_sim(alloc: Global, line: &SimLine) -> Result<String, AllocError> {
    let (sub, count) = (line.sub(), line.count());
    let mut text = format!(in alloc; "Sim {{ sub: {sub}, count: {count}, ")?;
    match line.schedule() {
        SimSchedule::Plain => text.push_str("Plain")?,
        SimSchedule::Steps(deliveries) => {
            let count = deliveries.len();
            text.push_str(format!(in alloc; "deliveries: {count}")?.as_str())?;
            for delivery in deliveries.as_slice().iter().take(9) {
                let (end, packet) = (delivery.end, delivery.packet);
                text.push_str(format!(in alloc; " {end:?}({packet})")?.as_str())?;
            }
        }
    }
    text.push_str(" }")?;
    Ok(text)
}

/// A session with its texts as hexadecimal digits.
fn text_of_session(alloc: Global, line: &SessionLine) -> Result<String, AllocError> {
    let SessionLine {
        session,
        sub,
        method,
        name,
        peer_name,
        pseudonym,
        reauth,
        bidding,
        any,
        has_prime,
        identity,
    } = line;
    let name = hex::encode(alloc, name.as_slice())?;
    let peer_name = match peer_name {
        Some(name) => Some(hex::encode(alloc, name.as_slice())?),
        None => None,
    };
    let identity = text_of_identity(alloc, identity)?;
    format!(in alloc;
        "Session {{ session: {session}, sub: {sub}, method: {method:?}, name: {name}, peer_name: {peer_name:?}, pseudonym: {pseudonym}, reauth: {reauth}, bidding: {bidding}, any: {any}, has_prime: {has_prime}, identity: {identity} }}"
    )
}

fn text_of_identity(alloc: Global, identity: &Identity) -> Result<String, AllocError> {
    match identity {
        Identity::Held => String::from_str(alloc, "Held"),
        Identity::Permanent => String::from_str(alloc, "Permanent"),
        Identity::Text(text) => {
            let text = hex::encode(alloc, text.as_slice())?;
            format!(in alloc; "Text({text})")
        }
    }
}

/// How many subscribers a file has, or the record of its refusal and the cause.
pub fn file(alloc: Global, text: &[u8]) -> Result<String, AllocError> {
    match Subscribers::read(alloc, text) {
        Ok(subs) => {
            let count = subs.len();
            format!(in alloc; "subscribers {count}")
        }
        Err(SubsRefusal::Row(record, why)) => format!(in alloc; "record {record} {why:?}"),
        Err(SubsRefusal::NoMemory) => Err(AllocError),
    }
}

/// A line of a subscriber, after one of the identity I: the row that is read, or the cause of its refusal.
pub fn record(alloc: Global, line: &[u8]) -> Result<String, AllocError> {
    let first =
        b"001010000000001 465b5ce8b199b49faa5f0a2ee238a6bc opc cd63cb71954a9f4e48a5994e37a02baf b9b9 7 5";
    let mut subs = Subscribers::new(alloc);
    if subs.add(first).is_err() {
        return Err(AllocError);
    }
    match subs.add(line) {
        Ok(place) => text_of_row(alloc, &subs, place),
        Err(AddRefusal::Why(why)) => format!(in alloc; "{why:?}"),
        Err(AddRefusal::NoMemory) => Err(AllocError),
    }
}

fn text_of_row(alloc: Global, subs: &Subscribers, place: u32) -> Result<String, AllocError> {
    if subs.len() <= place {
        return String::from_str(alloc, "no row");
    }
    let row = *subs.row(place);
    let found = subs.find(row.imsi);
    let (k, opc) = (
        hex::encode(alloc, row.secret.k)?,
        hex::encode(alloc, row.secret.opc)?,
    );
    let amf = hex::encode(alloc, row.amf)?;
    let (imsi, seq, usim, bits, age) = (row.imsi, row.seq, row.usim, row.bits, row.age);
    format!(in alloc;
        "{imsi:?} k {k} opc {opc} amf {amf} seq {seq} usim {usim} bits {bits} age {age:?} at {place} found {found:?}"
    )
}
