ghost use Rattle.std.specs.Prelude.{◌≡◌};
ghost use Rattle.stn_records.specs.declared.record.Record.{Record};
ghost use Rattle.stn_wire.specs.{Spelling.{IsRecord, record_bytes}, OldSides.{IsWritten, written_bytes, as_read}, declared.layout.Layout.TheVariants.Old};

/// What is written in an old frame as a record is read as `as_read` says: in a plain record, a side at an end of the old
/// times is open; every other side is as it is written. Nothing else is read.
pub fn old_sides()
    ensures read { (written : Record) → IsWritten written → IsRecord Old (as_read written) × (record_bytes Old (as_read written) ≡ written_bytes written) }
    ensures all { (r : Record) → IsRecord Old r → (written : Record) × IsWritten written × (r ≡ as_read written) }
{}
