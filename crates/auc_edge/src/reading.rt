//! Reading a whole file.

ghost use Rattle.std.specs.Prelude.{◌≡◌, ◌≢◌, ◌≤◌, ◌^◌, ℕ, List, length, Err, IfOk, IsErrOf};
ghost use Rattle.auc_memory.specs.Faults.{Rose};
ghost use Rattle.auc_edge.specs.Shelf.{IsFile, IsLongerFile};

use crate::read_refusal::ReadRefusal;
use crate::shelf::Shelf;
use auc_memory::Octets;
use std::alloc::Global;

// How many bytes one read asks for at most.
const PIECE: usize = 65536;

/// Reads the whole file of a name, if it has at most `limit` bytes.
pub fn read_all<H: Shelf>(
    alloc: Global,
    shelf: &mut H,
    name: &[u8],
    limit: usize,
) -> Result<Octets, ReadRefusal>
    requires { limit ≤ 2 ^ 30 }

    ensures read { IfOk result (λ text. IsFile (H.files shelf.old) name.now text) }
    ensures within { IfOk result (λ text. length text ≤ limit) }
    ensures same { H.files shelf.new ≡ H.files shelf.old }

    // Why it refuses; only a fault raises a count.
    ensures fault { IsErrOf result ReadRefusal.ReadFault
        → Rose (H.faults shelf.old name.now) (H.faults shelf.new name.now) }
    ensures long { IsErrOf result ReadRefusal.TooLong → IsLongerFile (H.files shelf.old) name.now limit }
    ensures quiet { result ≢ Err ReadRefusal.ReadFault
        → (other : List ℕ) → H.faults shelf.new other ≡ H.faults shelf.old other }
    ensures later { (other : List ℕ) → H.faults shelf.old other ≤ H.faults shelf.new other }
{
    let mut text = Octets::new(alloc);
    let mut room = vec![in alloc; 0u8; PIECE.min(limit + 1)]?;
    let piece = room.as_mut_slice();
    while text.len() <= limit {
        let count = shelf.read(name, text.len() as u64, piece)?;
        if count == 0 {
            return Ok(text);
        }
        text.append(&piece[..count])?;
    }
    Err(ReadRefusal::TooLong)
}
