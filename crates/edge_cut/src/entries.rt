ghost use Rattle.std.specs.Prelude.{◌≡◌, ◌≤◌, OnOk};
ghost use Rattle.edge_base.specs.layout.Places.{entries_of};
ghost use Rattle.edge_store.specs.Calls.{Called, KeepsPoint, KeepsPlacesBut};
ghost use Rattle.edge_store.specs.Damages.{form_of_entry};
ghost use Rattle.edge_store.specs.State.{IsLive, IsNumber, HasInode};
ghost use Rattle.edge_tree.specs.Answers.{TellsWhatIs, NeverTangled};
ghost use Rattle.edge_tree.specs.Own.{KeepsHeads};
ghost use Rattle.edge_cut.specs.Cuts.{NeverOnSoundInode, CutsEntries, AreFullEntries};

use crate::drop::drop_tree;
use edge_base::Form;
use edge_store::{Spot, Store, StoreFault};
use edge_tree::entry_link;

/// How many entries an inode has.
pub(crate) fn entries<S: Store>(s: &S) -> u32
    ensures { result ≡ entries_of (S.state s.now).origin.request }
{
    (s.geometry().request().block_size - 32) / 4
}

/// What an entry leads to.
pub(crate) fn entry_form<S: Store>(s: &S, e: u32) -> Form
    ensures { result ≡ form_of_entry (S.state s.now).origin.request e }
{
    let r = s.geometry().request();
    if e < r.direct {
        return Form::Plain;
    }
    if e - r.direct < r.indirect {
        return Form::Indirect;
    }
    Form::Double
}

/// Drops what hangs under the entries of an inode from one on, and sets these entries to 0.
pub(crate) fn cut_entries<S: Store>(s: &mut S, n: u32, from: u32) -> Result<(), StoreFault>
    requires live { IsLive (S.state s.old) }
    requires number { IsNumber (S.state s.old) n }
    requires there { HasInode (S.state s.old) n }
    requires entry { from ≤ entries_of (S.state s.old).origin.request }
    ensures called { Called (S.state s.old) (S.state s.new) result }
    ensures point { KeepsPoint (S.state s.old) (S.state s.new) }
    ensures places { OnOk result (KeepsPlacesBut (S.state s.old) (S.state s.new) n) }
    ensures damage { TellsWhatIs (S.state s.old) (S.state s.new) result }
    ensures untangled { NeverTangled (S.state s.old) result }
    ensures undamaged { NeverOnSoundInode (S.state s.old) n from result }
    ensures heads { OnOk result (KeepsHeads (S.state s.old) (S.state s.new) n) }
    ensures there { OnOk result (HasInode (S.state s.new) n) }
    ensures cut { OnOk result (CutsEntries (S.state s.old) (S.state s.new) n from) }
    ensures full { OnOk result (AreFullEntries (S.state s.old) n from) }
{
    for e in from..entries(s) {
        let block = entry_link(s, n, e)?;
        if block != 0 {
            let at = Spot {
                block,
                form: entry_form(s, e),
                owner: n,
            };
            drop_tree(s, at, 0)?;
            s.set_entry(n, e, 0)?;
        }
    }
    Ok(())
}
