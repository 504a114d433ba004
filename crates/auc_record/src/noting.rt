//! Noting the numbers that lines release.

ghost use Rattle.std.specs.Prelude.{◌≡◌, ◌||◌, ◌++◌, ℕ, List, All, OnOk, OnErr};
ghost use Rattle.auc_released.specs.Room.{KeepsRoom, IsRoomier};
ghost use Rattle.auc_record.specs.declared.record.LineRecord.{LineRecord};
ghost use Rattle.auc_record.specs.Lines.{is_in, released_by, all_lines};
ghost use Rattle.auc_record.specs.Released.{has, AreReleased};
ghost use Rattle.auc_record.specs.InnerRoom.{HasRoomForLine, HasRoomForLines};

use crate::record::{JobRecord, LineRecord};
use auc_memory::NoMemory;
use auc_released::Numbers;

/// Notes the number that a line releases, if it releases one.
pub fn note(released: &mut Numbers, line: &LineRecord) -> Result<(), NoMemory>
    ensures noted { OnOk result ((s : ℕ) (m : ℕ)
        → has released.new s m ≡ (has released.old s m || is_in m (released_by s line.now))) }
    ensures kept { OnErr result (released.new ≡ released.old) }
{
    make_room_for_line(released, line)?;
    note_line(released, line);
    Ok(())
}

/// Notes the numbers that the lines of some jobs release. If memory runs out, none is noted.
pub fn note_all(released: &mut Numbers, records: &[JobRecord]) -> Result<(), NoMemory>
    ensures noted { OnOk result ((before : List LineRecord) → AreReleased released.old before
        → AreReleased released.new (before ++ all_lines records.now)) }
    ensures kept { OnErr result (released.new ≡ released.old) }
{
    let blocks = released.blocks();
    if let Err(error) = make_room_for_jobs(released, records) {
        released.truncate(blocks);
        return Err(error);
    }
    note_jobs(released, records);
    Ok(())
}

/// Makes room for the number that a line releases, if it releases one.
fn make_room_for_line(released: &mut Numbers, line: &LineRecord) -> Result<(), NoMemory>
    ensures roomier { IsRoomier released.old released.new }
    ensures there { OnOk result (HasRoomForLine released.new line.now) }
    ensures kept { OnErr result (released.new ≡ released.old) }
{
    match line.number() {
        Some(number) => released.make_room(number),
        None => Ok(()),
    }
}

/// Makes room for the numbers that some lines release. If memory runs out, there may be room for some of them.
fn make_room_for_lines(released: &mut Numbers, lines: &[LineRecord]) -> Result<(), NoMemory>
    ensures roomier { IsRoomier released.old released.new }
    ensures there { OnOk result (HasRoomForLines released.new lines.now) }
{
    for line in lines {
        make_room_for_line(released, line)?;
    }
    Ok(())
}

/// The same for the lines of some jobs.
fn make_room_for_jobs(released: &mut Numbers, records: &[JobRecord]) -> Result<(), NoMemory>
    ensures roomier { IsRoomier released.old released.new }
    ensures there { OnOk result (All (HasRoomForLines released.new) records.now) }
{
    for record in records {
        make_room_for_lines(released, record.as_slice())?;
    }
    Ok(())
}

/// Notes the number that a line releases, if it releases one. There is room for it.
fn note_line(released: &mut Numbers, line: &LineRecord)
    requires { HasRoomForLine released.old line.now }
    ensures noted { (s : ℕ) (m : ℕ)
        → has released.new s m ≡ (has released.old s m || is_in m (released_by s line.now)) }
    ensures room { KeepsRoom released.old released.new }
{
    if let Some(number) = line.number() {
        released.note(number);
    }
}

/// Notes the numbers that some lines release. There is room for them.
fn note_lines(released: &mut Numbers, lines: &[LineRecord])
    requires { HasRoomForLines released.old lines.now }
    ensures noted { (before : List LineRecord) → AreReleased released.old before
        → AreReleased released.new (before ++ lines.now) }
    ensures room { KeepsRoom released.old released.new }
{
    for line in lines {
        note_line(released, line);
    }
}

/// Notes the numbers that the lines of some jobs release. There is room for them.
fn note_jobs(released: &mut Numbers, records: &[JobRecord])
    requires { All (HasRoomForLines released.old) records.now }
    ensures noted { (before : List LineRecord) → AreReleased released.old before
        → AreReleased released.new (before ++ all_lines records.now) }
{
    for record in records {
        note_lines(released, record.as_slice());
    }
}
