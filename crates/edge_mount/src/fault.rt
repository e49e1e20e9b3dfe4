ghost use Rattle.std.specs.Prelude.{◌≡◌};

use edge_disk::DeviceFault;
use edge_imap::LoadFault;

/// Why an image is not mounted.
#[derive(Clone, Copy, Debug, PartialEq, Eq)]
pub enum MountFault {
    /// A call of the disk failed.
    Device,
    /// It is no volume, for this reason.
    NotVolume(u8),
    /// Memory is wanting.
    Memory,
}

impl From<DeviceFault> for MountFault {
    ghost use Rattle.edge_mount.specs.declared.fault.MountFault.TheVariants.{Device};

    ghost from_gives = { λ _ e. e ≡ Device };

    fn from(_: DeviceFault) -> Self {
        MountFault::Device
    }
}

impl From<LoadFault> for MountFault {
    ghost use Rattle.edge_mount.specs.Faults.{of_load};

    ghost from_gives = { λ fault e. e ≡ of_load fault };

    fn from(fault: LoadFault) -> Self {
        match fault {
            LoadFault::Device => MountFault::Device,
            LoadFault::Node(_) => MountFault::NotVolume(6),
            LoadFault::Memory => MountFault::Memory,
        }
    }
}
