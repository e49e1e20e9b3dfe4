ghost use Rattle.std.specs.Prelude.{◌≡◌, ◌≢◌, ◌⊎◌, ◌<◌, ℕ, List, length, IsTrue, OnOk};
ghost use Rattle.edge_base.specs.outside.Faults.{HasCause};
ghost use Rattle.edge_disk.specs.State.{disk_of, IsTold, Keeps};

use edge_disk::{DeviceFault, Disk};

/// Writes block `b` and waits until all that was written is on the medium.
pub fn put<D: Disk>(disk: &mut D, b: u32, bytes: &[u8]) -> Result<(), DeviceFault>
    requires in_range { b < (D.origin disk.old).blocks }
    requires whole { length bytes.now ≡ (D.origin disk.old).block_size }
    ensures origin { D.origin disk.new ≡ D.origin disk.old }
    ensures cause { HasCause (D.faults disk.old) (D.faults disk.new) result }
    ensures shown { IsTrue (D.origin disk.old).shows
        → OnOk result (D.shown disk.new b ≡ bytes.now) }
    ensures sure { IsTold (disk_of D.Disk disk.old)
        → OnOk result ((k : ℕ) → D.is_sure disk.new k) }
    ensures adds { (c : List ℕ) → D.may_hold disk.new b c
        → D.may_hold disk.old b c ⊎ (c ≡ bytes.now) }
    ensures kept { Keeps (λ k. k ≢ b) (disk_of D.Disk disk.old) (disk_of D.Disk disk.new) }
{
    disk.write(b, bytes)?;
    disk.flush()?;
    Ok(())
}
