ghost use Rattle.std.specs.Prelude.{◌≡◌, ◌<◌, ◌≤◌, ℕ, ◌+◌, true, false, List, length, is_some, Option, Some};
ghost use Rattle.edge_base.specs.declared.geometry.Request.{Request};
ghost use Rattle.edge_base.specs.declared.node.Head.{Head};
ghost use Rattle.edge_base.specs.layout.Places.{IsGeometry, max_size_of};
ghost use Rattle.edge_store.specs.Effects.{HeadSet};
ghost use Rattle.edge_store.specs.View.{View, IsView, head_of_inode};
ghost use Rattle.edge_file.specs.Bytes.{size_at};
ghost use Rattle.edge_file.specs.Rewritten.{IsWritten};
ghost use Rattle.edge_file.specs.Shortened.{IsShortened};
ghost use Rattle.edge_file.specs.Writing.{SameBlocks, grown, sized};
ghost use Rattle.edge_model.specs.Files.{written, cut};
ghost use Rattle.edge_model.specs.Rules.{IsTree};
ghost use Rattle.edge_model.specs.Tree.{Tree, is_directory};
ghost use Rattle.edge_image.specs.Opens.{StandsFor};
ghost use Rattle.edge_steps.specs.Listed.{IsListed};
ghost use Rattle.edge_stands.specs.Stands.{indices_at};
ghost use Rattle.edge_changes.specs.Edited.{IsEdited, HasHeadOf};

/// Where a view stands for a tree, writing bytes of a file, or giving it a size, makes of it a view
/// that stands for the tree with that edit; and what is dirty then is what the edit's data
/// positions tell.
pub fn files_are_written_and_sized()
    ensures written { (g : Request) (c v w : View) (t : Tree) (n at : ℕ) (new : List ℕ)
        → IsGeometry g → IsView g v → IsView g w → StandsFor g v t → IsTree g t
        → is_some (t n) ≡ true → is_directory t n ≡ false
        → 0 < length new → at + length new ≤ max_size_of g
        → IsTree g (written g t n at new).tree → IsListed g t (written g t n at new)
        → IsWritten g c v w n at new (indices_at g (t n))
        → HasHeadOf v w n (λ head. grown head (at + length new))
        → IsEdited g c v w t (written g t n at new) }
    ensures sized { (g : Request) (c v w : View) (t : Tree) (n size : ℕ)
        → IsGeometry g → IsView g v → IsView g w → StandsFor g v t → IsTree g t
        → is_some (t n) ≡ true → is_directory t n ≡ false
        → size ≤ max_size_of g → IsTree g (cut g t n size).tree → IsListed g t (cut g t n size)
        → (size < size_at v n → IsShortened g c v w n size (indices_at g (t n)))
        → (size_at v n ≤ size → SameBlocks v w n)
        → ((head : Head) → head_of_inode (v.inodes n) ≡ Some head → head.size ≤ size
        → HeadSet v w n (record head { size = size }))
        → HasHeadOf v w n (λ head. sized head size)
        → IsEdited g c v w t (cut g t n size) }
{}
