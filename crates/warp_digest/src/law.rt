//! What a digest does not depend on.
ghost use Rattle.std.specs.Prelude.{◌≡◌, IsPermutation, List};
ghost use Rattle.warp_record.specs.declared.record.Record.{Record};
ghost use Rattle.warp_digest.specs.Digest.{digest_of};

/// The same records in another order have the same digest.
pub fn any_order()
    ensures { (one other : List Record) → IsPermutation one other → digest_of other ≡ digest_of one }
{}
