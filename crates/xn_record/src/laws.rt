//! What holds of intact records.

ghost use Rattle.std.specs.Prelude.{◌≡◌, ◌*◌, ◌++◌, ℕ, List, None, take};
ghost use Rattle.xn_log.specs.Records.{IsIntact, outline_in, record_in, record_sectors, sector_size};
ghost use Rattle.xn_log.specs.RecordFaults.{record_fault};
ghost use Rattle.xn_log.specs.Spelled.{record_spelling};
ghost use Rattle.xn_log.specs.declared.record.Record.{Record};
ghost use Rattle.xn_record.specs.Writing.{IsWritable};

/// Bytes begin with an intact record exactly where they have no fault.
pub fn intact_records_have_no_fault()
    ensures sound { (ring_sectors sector : ℕ) (uuid bytes : List ℕ) → record_fault ring_sectors sector uuid bytes ≡ None → IsIntact ring_sectors sector uuid bytes }
    ensures complete { (ring_sectors sector : ℕ) (uuid bytes : List ℕ) → IsIntact ring_sectors sector uuid bytes → record_fault ring_sectors sector uuid bytes ≡ None }
{}

/// Whether a record is intact, and what it says, depends on the bytes of its own sectors alone.
pub fn only_the_front_counts()
    ensures intact { (ring_sectors sector : ℕ) (uuid bytes other : List ℕ) → take (sector_size * record_sectors bytes) bytes ≡ take (sector_size * record_sectors bytes) other → IsIntact ring_sectors sector uuid bytes → IsIntact ring_sectors sector uuid other }
    ensures decoded { (ring_sectors sector : ℕ) (uuid bytes other : List ℕ) → take (sector_size * record_sectors bytes) bytes ≡ take (sector_size * record_sectors bytes) other → IsIntact ring_sectors sector uuid bytes → record_in sector bytes ≡ record_in sector other }
    ensures outlined { (ring_sectors sector : ℕ) (uuid bytes other : List ℕ) → take (sector_size * record_sectors bytes) bytes ≡ take (sector_size * record_sectors bytes) other → IsIntact ring_sectors sector uuid bytes → outline_in sector bytes ≡ outline_in sector other }
{}

/// A record that is written is intact whatever stands behind it, and says what was written.
pub fn spelled_records_are_intact()
    ensures intact { (ring_sectors : ℕ) (uuid behind : List ℕ) (written : Record) → IsWritable ring_sectors uuid written → IsIntact ring_sectors written.sector uuid (record_spelling ring_sectors uuid written ++ behind) }
    ensures decoded { (ring_sectors : ℕ) (uuid behind : List ℕ) (written : Record) → IsWritable ring_sectors uuid written → record_in written.sector (record_spelling ring_sectors uuid written ++ behind) ≡ written }
{}
