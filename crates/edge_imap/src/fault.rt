ghost use Rattle.std.specs.Prelude.{◌≡◌};

use edge_base::Damage;
use edge_disk::DeviceFault;
use std::alloc::AllocError;

/// Why a call of an `Imap` gives up.
#[derive(Clone, Copy, Debug, PartialEq, Eq)]
pub enum ImapFault {
    /// A call of the disk below failed.
    Device,
    /// A block was read that is no imap node.
    Damaged(Damage),
}

impl From<DeviceFault> for ImapFault {
    ghost use Rattle.edge_imap.specs.declared.fault.ImapFault.TheVariants.{Device};

    ghost from_gives = { λ _ e. e ≡ Device };

    fn from(_: DeviceFault) -> Self {
        ImapFault::Device
    }
}

/// Why an `Imap` is not loaded.
#[derive(Clone, Copy, Debug, PartialEq, Eq)]
pub enum LoadFault {
    /// A call of the disk below failed.
    Device,
    /// The live node of this pair spells no imap node. It is the first.
    Node(u32),
    /// Memory is wanting.
    Memory,
}

impl From<DeviceFault> for LoadFault {
    ghost use Rattle.edge_imap.specs.declared.fault.LoadFault.TheVariants.{Device};

    ghost from_gives = { λ _ e. e ≡ Device };

    fn from(_: DeviceFault) -> Self {
        LoadFault::Device
    }
}

impl From<AllocError> for LoadFault {
    ghost use Rattle.edge_imap.specs.declared.fault.LoadFault.TheVariants.{Memory};

    ghost from_gives = { λ _ e. e ≡ Memory };

    fn from(_: AllocError) -> Self {
        LoadFault::Memory
    }
}

/// The state of a block, by the last point and the working list.
#[derive(Clone, Copy, Debug, PartialEq, Eq)]
pub enum BlockState {
    /// Neither uses it.
    Free,
    /// Both use it.
    Used,
    /// The working list alone uses it.
    New,
    /// The last point alone uses it. It is free for the next one.
    AlmostFree,
}
