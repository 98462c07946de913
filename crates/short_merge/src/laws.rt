//! What the names of a merged network keep. Each law is a function without a body.
ghost use Rattle.std.specs.Prelude.{◌≡◌, length, All, Contains};
ghost use Rattle.name_table.specs.ByteOrder.{IsInByteOrder};
ghost use Rattle.spice_grid.specs.declared.named.Named.{Named};
ghost use Rattle.short_merge.specs.declared.merged.Merged.{Merged};
ghost use Rattle.short_merge.specs.Netlist.{IsNetlist};
ghost use Rattle.short_merge.specs.Merged.{IsMerged};

/// A merged network has one name a node, and where the names of the netlist stand in byte order, each once, so do those
/// of the groups. The name of a group is one of the names of the netlist.
pub fn merged_names()
    ensures one_name_a_group { (named : Named) (merged : Merged) → IsMerged named merged
        → length merged.names ≡ merged.net.nodes }
    ensures in_byte_order { (named : Named) (merged : Merged) → IsNetlist named → IsMerged named merged
        → IsInByteOrder named.names → IsInByteOrder merged.names }
    ensures of_netlist { (named : Named) (merged : Merged) → IsNetlist named → IsMerged named merged
        → All (λ name. Contains named.names name) merged.names }
{}
