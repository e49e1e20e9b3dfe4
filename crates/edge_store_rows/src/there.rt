ghost use Rattle.std.specs.Prelude.{◌≡◌, true, IfOk};
ghost use Rattle.edge_base.specs.layout.Places.{entries_of, pointers_of};
ghost use Rattle.edge_store.specs.Calls.{Called};
ghost use Rattle.edge_store.specs.State.{IsLive, IsNumber, HasInode};
ghost use Rattle.edge_store.specs.View.{is_number, is_allocable, is_link};

use edge_store::{Store, StoreFault};

/// Whether a node may have a number.
pub fn may_have<S: Store>(s: &S, n: u32) -> bool
    ensures { result ≡ is_number (S.state s.now).origin.request n }
{
    let r = s.geometry().request();
    n >= 2 && n - 2 < r.inodes
}

/// Whether a block is one that nodes may have.
pub fn may_use<S: Store>(s: &S, b: u32) -> bool
    ensures { result ≡ is_allocable (S.state s.now).origin.request b }
{
    let g = s.geometry();
    b >= g.first_allocable() && b - g.first_allocable() < g.allocable()
}

/// Whether a pointer is absent or leads to such a block.
pub fn may_lead<S: Store>(s: &S, b: u32) -> bool
    ensures { result ≡ is_link (S.state s.now).origin.request b }
{
    let g = s.geometry();
    b == 0 || (b >= g.first_allocable() && b - g.first_allocable() < g.allocable())
}

/// How many entries an inode has.
pub fn entries<S: Store>(s: &S) -> u32
    ensures { result ≡ entries_of (S.state s.now).origin.request }
{
    (s.geometry().request().block_size - 32) / 4
}

/// How many pointers a pointer node has.
pub fn pointers<S: Store>(s: &S) -> u32
    ensures { result ≡ pointers_of (S.state s.now).origin.request }
{
    (s.geometry().request().block_size - 20) / 4
}

/// Whether a number has an inode, so that a store may be asked of it.
pub fn is_there<S: Store>(s: &mut S, n: u32) -> Result<bool, StoreFault>
    requires live { IsLive (S.state s.old) }
    ensures called { Called (S.state s.old) (S.state s.new) result }
    ensures number { IfOk result (λ there. there ≡ true → IsNumber (S.state s.new) n) }
    ensures inode { IfOk result (λ there. there ≡ true → HasInode (S.state s.new) n) }
{
    if !may_have(s, n) {
        return Ok(false);
    }
    Ok(s.head(n)?.is_some())
}
