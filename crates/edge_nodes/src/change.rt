ghost use Rattle.std.specs.Prelude.{◌≡◌, ◌+◌, ◌*◌, ◌≤◌, ℕ, length};
ghost use Rattle.edge_base.specs.declared.node.NodeType.TheVariants.{File};
ghost use Rattle.edge_base.specs.layout.Bytes.{number_at};
ghost use Rattle.edge_nodes.specs.Writing.{ChangesOnly};
ghost use Rattle.edge_nodes.specs.Changes.{HasHead, ChangesHead, ChangesEntry, ChangesPointer, ChangesSequence};

use crate::inode::put_head;
use crate::writing::{put_u32, put_u64};
use edge_base::Head;

/// Writes another sequence number and another head into an inode. It keeps its entries, and `seal`
/// is to put its check word right.
pub fn change_head(b: &mut [u8], sequence: u64, head: &Head)
    requires whole { 32 ≤ length b.old }
    requires some_link { 1 ≤ head.now.links }
    requires no_parent { head.now.kind ≡ File → head.now.parent ≡ 0 }
    ensures head { HasHead sequence head.now b.new }
    ensures kept { ChangesOnly 8 32 b.old b.new }
    ensures spelled { ChangesHead sequence head.now b.old b.new }
{
    put_u64(b, 8, sequence);
    put_head(b, head);
}

/// Writes another number as entry i of an inode. It keeps its head and its other entries, and
/// `seal` is to put its check word right.
pub fn change_entry(b: &mut [u8], i: u32, entry: u32)
    requires { 32 + 4 * i + 4 ≤ length b.old }
    ensures here { number_at (32 + 4 * i) 4 b.new ≡ entry }
    ensures kept { ChangesOnly (32 + 4 * i) (32 + 4 * i + 4) b.old b.new }
    ensures spelled { ChangesEntry i entry b.old b.new }
{
    put_u32(b, 32 + 4 * i as usize, entry);
}

/// Writes another number as entry i of a pointer node. It keeps its owner and its other entries,
/// and `seal` is to put its check word right.
pub fn change_pointer(b: &mut [u8], i: u32, entry: u32)
    requires { 20 + 4 * i + 4 ≤ length b.old }
    ensures here { number_at (20 + 4 * i) 4 b.new ≡ entry }
    ensures kept { ChangesOnly (20 + 4 * i) (20 + 4 * i + 4) b.old b.new }
    ensures spelled { ChangesPointer i entry b.old b.new }
{
    put_u32(b, 20 + 4 * i as usize, entry);
}

/// Writes another sequence number into an inode, a pointer node or an imap node. It keeps all else,
/// and `seal` is to put its check word right.
pub fn change_sequence(b: &mut [u8], sequence: u64)
    requires { 16 ≤ length b.old }
    ensures here { number_at 8 8 b.new ≡ sequence }
    ensures kept { ChangesOnly 8 16 b.old b.new }
    ensures spelled { ChangesSequence sequence b.old b.new }
{
    put_u64(b, 8, sequence);
}
