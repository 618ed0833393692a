ghost use Rattle.std.specs.Prelude.{◌≡◌, ℕ, ◌<◌, List, ◌++◌, length, OnOk};
ghost use Rattle.stn_wire.specs.{Reading.IsReadFrom, declared.layout.Layout.{Layout as LayoutOf, TheVariants.New}};

use crate::fields::{append_id, append_record, read_id, read_record};
use crate::layout::Layout;
use std::alloc::Allocator;
use stn_records::{Id, Record};
use stn_time::Memory;

/// What stands in a list of a frame, each in the same number of bytes.
pub(crate) trait Item: Copy {
    /// How many bytes in a layout.
    ghost wide: { LayoutOf → ℕ };

    /// Which items have a spelling, and what it is.
    ghost IsSpelled: { LayoutOf → Self → Type 0 };

    ghost bytes_of: { LayoutOf → Self → List ℕ };

    fn size(layout: Layout) -> usize
        ensures { result ≡ wide layout };

    fn read(layout: Layout, bytes: &[u8]) -> Option<Self>
        requires { length bytes.now ≡ wide layout }
        ensures { IsReadFrom (IsSpelled layout) (bytes_of layout) bytes.now result };

    fn append<A: Allocator>(&self, out: &mut Vec<u8, A>) -> Result<(), Memory>
        ensures appended { OnOk result (out.new.items ≡ out.old.items ++ bytes_of New self.now) }
        ensures spelled { OnOk result (IsSpelled New self.now) };

    /// An item has some bytes.
    ghost some: { (layout : LayoutOf) → 0 < wide layout };

    ghost sized: { (layout : LayoutOf) (item : Self) → length (bytes_of layout item) ≡ wide layout };

    /// Items with the same bytes are one.
    ghost apart: { (layout : LayoutOf) (a b : Self) → IsSpelled layout a → IsSpelled layout b → bytes_of layout a ≡ bytes_of layout b → a ≡ b };
}

impl Item for (Id, Record) {
    ghost use Rattle.stn_wire.specs.{Spelling.{IsEntry, entry_bytes, entry_width}, Apart.{entry_some, entry_sized, entry_apart}};

    ghost wide = { entry_width };

    ghost IsSpelled = { IsEntry };

    ghost bytes_of = { entry_bytes };

    fn size(layout: Layout) -> usize {
        layout.entry_width()
    }

    fn read(layout: Layout, bytes: &[u8]) -> Option<(Id, Record)> {
        let (id, said) = bytes.split_at(4);
        let id = read_id(id)?;
        let record = read_record(layout, said)?;
        Some((id, record))
    }

    fn append<A: Allocator>(&self, out: &mut Vec<u8, A>) -> Result<(), Memory> {
        let (id, record) = self;
        append_id(out, *id)?;
        append_record(out, record)
    }

    ghost some = { entry_some };

    ghost sized = { entry_sized };

    ghost apart = { entry_apart };
}

impl Item for (Id, Id) {
    ghost use Rattle.std.{specs.Prelude.refl, proofs.Common.lit<};
    ghost use Rattle.stn_wire.specs.{Spelling.{AreIds, amendment_bytes}, Apart.amendment_apart};

    ghost wide = { λ layout. 8 };

    ghost IsSpelled = { λ layout. AreIds };

    ghost bytes_of = { λ layout. amendment_bytes };

    fn size(_layout: Layout) -> usize {
        8
    }

    fn read(_layout: Layout, bytes: &[u8]) -> Option<(Id, Id)> {
        let (new, replaced) = bytes.split_at(4);
        let new = read_id(new)?;
        let replaced = read_id(replaced)?;
        Some((new, replaced))
    }

    fn append<A: Allocator>(&self, out: &mut Vec<u8, A>) -> Result<(), Memory> {
        let (new, replaced) = self;
        append_id(out, *new)?;
        append_id(out, *replaced)
    }

    ghost some = { λ layout. lit< tt };

    ghost sized = { λ layout item. refl };

    ghost apart = { λ layout. amendment_apart };
}

impl Item for (Id, ()) {
    ghost use Rattle.std.{specs.Prelude.refl, proofs.Common.lit<};
    ghost use Rattle.stn_wire.specs.{Spelling.{IsTomb, tomb_bytes}, Apart.tomb_apart};

    ghost wide = { λ layout. 4 };

    ghost IsSpelled = { λ layout. IsTomb };

    ghost bytes_of = { λ layout. tomb_bytes };

    fn size(_layout: Layout) -> usize {
        4
    }

    fn read(_layout: Layout, bytes: &[u8]) -> Option<(Id, ())> {
        let id = read_id(bytes)?;
        Some((id, ()))
    }

    fn append<A: Allocator>(&self, out: &mut Vec<u8, A>) -> Result<(), Memory> {
        append_id(out, self.0)
    }

    ghost some = { λ layout. lit< tt };

    ghost sized = { λ layout item. refl };

    ghost apart = { λ layout. tomb_apart };
}
