// Writing a frame behind the closed gate of a log.
ghost use Rattle.std.specs.Prelude.{◌≡◌, ◌<◌, ◌≤◌, ◌+◌, ◌^◌, ℕ, List, ◌∷◌, ◌++◌, [], length, IsTrue, OnOk, OnErr};
ghost use Rattle.zb_disk.specs.Disk.{overwritten, Torn, Only};
ghost use Rattle.zb_disk.specs.Cause.{HasCause};
ghost use Rattle.zb_store.specs.Calls.{LeavesOnly, LeftByWriting};
ghost use Rattle.zb_store.specs.Log.{framed};
ghost use Rattle.zb_store.specs.Stands.{EndsAt, StandsWithOrWithout};

use zb_disk::{Disk, Trouble};

// A gate that is open, as any byte but 0 is.
const OPEN_GATE: u8 = 1;

/// Writes a frame behind the closed gate at this place, and opens that gate once the frame is on the disk.
/// Four calls of the disk.
pub fn write_frame<D: Disk>(disk: &mut D, gate: u64, frame: &[u8]) -> Result<(), Trouble>
    requires inside { IsTrue D.tells → gate < length (D.view disk.old).contents }
    requires fits { gate + 1 + length frame.now < 2 ^ 58 }

    ensures written { IsTrue D.tells → (bodies : List (List ℕ)) (body : List ℕ)
        → EndsAt (D.view disk.old).contents bodies gate → frame.now ≡ framed body
        → OnOk result (EndsAt (D.view disk.new).contents (bodies ++ body ∷ [])
        (gate + length frame.now)) }
    ensures left { IsTrue D.tells → (bodies : List (List ℕ)) (body : List ℕ)
        → EndsAt (D.view disk.old).contents bodies gate → frame.now ≡ framed body
        → StandsWithOrWithout bodies body (D.view disk.new).contents }
    ensures no_shorter { IsTrue D.tells → length (D.view disk.old).contents
        ≤ length (D.view disk.new).contents }
    ensures longer { IsTrue D.tells
        → OnOk result (gate + length frame.now < length (D.view disk.new).contents) }

    ensures bytes { IsTrue D.tells → OnOk result ((D.view disk.new).contents
        ≡ overwritten (overwritten (D.view disk.old).contents (gate + 1) frame.now) gate (1 ∷ [])) }
    ensures durable { IsTrue D.tells_images
        → OnOk result (Only (D.view disk.new).contents (D.images disk.new)) }
    ensures crash { IsTrue D.tells_images → (bodies : List (List ℕ)) (body : List ℕ)
        → EndsAt (D.view disk.old).contents bodies gate
        → Only (D.view disk.old).contents (D.images disk.old) → frame.now ≡ framed body
        → (c : List ℕ) → D.images disk.new c → StandsWithOrWithout bodies body c }
    ensures time { IsTrue D.tells_images → (bodies : List (List ℕ)) (body : List ℕ)
        → EndsAt (D.view disk.old).contents bodies gate
        → Only (D.view disk.old).contents (D.images disk.old) → frame.now ≡ framed body
        → LeavesOnly (D.view disk.old).moment (D.view disk.new).moment (D.since disk.old)
        (D.since disk.new) (StandsWithOrWithout bodies body) }

    ensures cause { HasCause D.counts_failures D.takes_memory (D.view disk.old).faults
        (D.view disk.new).faults result }
{
    write_through(disk, gate + 1, frame)?;
    write_through(disk, gate, &[OPEN_GATE])
}

// Writes a piece, and brings it onto the disk.
fn write_through<D: Disk>(disk: &mut D, at: u64, piece: &[u8]) -> Result<(), Trouble>
    requires inside { IsTrue D.tells → at ≤ length (D.view disk.old).contents }
    requires end { at + length piece.now < 2 ^ 58 }
    ensures written { IsTrue D.tells
        → OnOk result
        ((D.view disk.new).contents ≡ overwritten (D.view disk.old).contents at piece.now) }
    ensures torn { IsTrue D.tells → Torn at (length piece.now) (D.view disk.old).contents
        (D.view disk.new).contents }
    ensures durable { IsTrue D.tells_images
        → OnOk result (Only (D.view disk.new).contents (D.images disk.new)) }
    ensures crash { IsTrue D.tells_images → (c : List ℕ) → D.images disk.new c
        → LeftByWriting at (length piece.now) (D.images disk.old) c }
    ensures time { IsTrue D.tells_images
        → LeavesOnly (D.view disk.old).moment (D.view disk.new).moment (D.since disk.old)
        (D.since disk.new)
        (LeftByWriting at (length piece.now) (D.images disk.old)) }
    ensures cause { HasCause D.counts_failures D.takes_memory (D.view disk.old).faults
        (D.view disk.new).faults result }
{
    disk.write_at(at, piece)?;
    disk.sync()
}
