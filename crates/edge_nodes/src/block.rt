ghost use Rattle.std.specs.Prelude.{◌≡◌, ◌+◌, ◌*◌, ◌≤◌};
ghost use Rattle.edge_base.specs.layout.Places.{IsGeometry, entries_of, pointers_of};

use edge_base::Geometry;

/// The bytes of a block.
pub(crate) fn block_size(g: &Geometry) -> usize
    ensures size { result ≡ g.now.block_size }
    ensures least { 512 ≤ result }
    ensures most { result ≤ 4096 }
    ensures geometry { IsGeometry g.now }
    ensures whole { 32 + 4 * entries_of g.now ≡ result }
    ensures pointers { 20 + 4 * pointers_of g.now ≡ result }
{
    g.request().block_size as usize
}
