ghost use Rattle.std.specs.Prelude.{◌≡◌, ◌<◌, ◌≤◌, ◌^◌, IsTrue, IfOk};
ghost use Rattle.std.specs.Option.{ForNone};
ghost use Rattle.edge_base.specs.layout.Sizes.{is_block_size};

use crate::faults::or_fault;
use edge_disk::{DeviceFault, Disk};
use std::fs::{File, OpenOptions};
use std::io;
use std::io::{ErrorKind, Seek, SeekFrom};
use std::os::fd::AsRawFd;
use std::os::unix::fs::FileExt;
use std::rt::Files;

/// The whole blocks of a file of the host. Nothing is buffered between the disk and the file.
#[derive(Drop)]
pub struct HostDisk {
    file: Option<File>,
    blocks: u32,
    block_size: u32,
    faults: u64,
    // A sync that failed may have lost what was written, and no later one makes up for it.
    sync_failed: bool,
    ghost known_size: { IsTrue (is_block_size block_size) },
    ghost few: { blocks < 2 ^ 32 },
    ghost no_file: { ForNone file (blocks ≡ 0) },
}

// Opens a file for reading and writing, and measures it. One that is made is made where it is
// missing, and lengthened to `least` bytes. A device has its length at its end alone.
fn open_file(
    files: &impl Files<File = File>,
    path: &str,
    made: bool,
    least: u64,
) -> io::Result<(File, u64)>
    ensures { IfOk result (λ opened. least ≤ opened.1) }
{
    let mut file = OpenOptions::new()
        .read(true)
        .write(true)
        .create(made)
        .open(files, path)?;
    // What is meant for a standard stream that is closed must not land in the file.
    if file.as_raw_fd() <= 2 {
        file = file.try_clone()?;
    }
    let length = file.seek(SeekFrom::End(0))?;
    if length < least {
        file.set_len(least)?;
        return Ok((file, least));
    }
    Ok((file, length))
}

impl HostDisk {
    ghost use Rattle.std.specs.Prelude.{◌*◌, ◌⊎◌, IfSome, IsNone};
    ghost use Rattle.edge_host.specs.HostDisk.{origin_of, faults_of};

    /// The disk over the file at `path`, which is opened once, or over no file. A file that cannot
    /// be opened for both reading and writing, as one that may only be read, or that has no length,
    /// counts as no file. Over no file the disk has 0 blocks.
    ///
    /// With `make_blocks` the file is made where it is missing, and lengthened with zeros to so
    /// many blocks where it has fewer. A file that cannot be made or lengthened counts as no file.
    ///
    /// A rest of the file that is no whole block, or stands behind block 2^32 - 2, is not part of
    /// the disk. What others wrote to the file is synced first. Where that fails, each flush fails.
    pub fn open(
        files: &impl Files<File = File>,
        path: Option<&str>,
        block_size: u32,
        make_blocks: Option<u32>,
    ) -> HostDisk
        requires { IsTrue (is_block_size block_size) }
        ensures block_size { (origin_of result).block_size ≡ block_size }
        ensures no_file { IsNone path.entry → (origin_of result).blocks ≡ 0 }
        ensures made { IfSome make_blocks (λ n. ((origin_of result).blocks ≡ 0)
            ⊎ (n ≤ (origin_of result).blocks)) }
        ensures faults { faults_of result ≡ 0 }
    {
        let least = u64::from(make_blocks.unwrap_or(0)) * u64::from(block_size);
        let opened = path.and_then(|path| open_file(
            files,
            path,
            make_blocks.is_some(),
            least,
        ).ok());
        let (file, length) = match opened {
            Some((file, length)) => (Some(file), length),
            None => (None, 0),
        };
        let mut disk = HostDisk {
            file,
            blocks: (length / u64::from(block_size)).min(u64::from(u32::MAX)) as u32,
            block_size,
            faults: 0,
            sync_failed: false,
        };
        disk.sync_failed = disk.sync().is_err();
        disk
    }

    // The place of a block in the file.
    fn place(&self, b: u32) -> u64
        ensures { result ≡ b * (origin_of self.now).block_size }
    {
        u64::from(b) * u64::from(self.block_size)
    }

    // Waits until what was written to the file is on its device.
    fn sync(&self) -> io::Result<()> {
        match &self.file {
            Some(file) => file.sync_all(),
            None => Ok(()),
        }
    }
}

impl Disk for HostDisk {
    ghost use Rattle.std.specs.Prelude.{[], ◌+◌, ◌-◌, length, min, IsErr, OnErr};
    ghost use Rattle.edge_base.specs.outside.Faults.{HasCause};
    ghost use Rattle.edge_host.specs.HostDisk.{origin_of, faults_of, sync_failed_of};

    ghost origin = { origin_of };

    ghost shown = { λ _ _. [] };

    ghost may_hold = { λ _ _ _. ⊥ };

    ghost is_sure = { λ _ _. ⊥ };

    ghost faults = { faults_of };

    ghost few_blocks = { λ d. d.few };

    ghost known_size = { λ d. d.known_size };

    ghost whole_blocks = { λ d b shows. Prim.cc shows };

    ghost whole_candidates = { λ d b c inside may. absurd may };

    ghost shown_bytes = { λ d b shows. Prim.cc shows };

    ghost candidate_bytes = { λ d b c inside may. absurd may };

    ghost shown_is_kept = { λ d b keeps. Prim.cc keeps };

    ghost sure_is_shown = { λ d b c sure may. absurd sure };

    fn blocks(&self) -> u32 {
        self.blocks
    }

    fn block_size(&self) -> u32 {
        self.block_size
    }

    /// An end of the file within the block is a fault.
    fn read(&mut self, b: u32, out: &mut [u8]) -> Result<(), DeviceFault>
        requires in_range { b < (origin_of self.old).blocks }
        requires whole { length out.old ≡ (origin_of self.old).block_size }
        ensures origin { origin_of self.new ≡ origin_of self.old }
        ensures cause { HasCause (faults_of self.old) (faults_of self.new) result }
        ensures counted { OnErr result (faults_of self.new
            ≡ min (faults_of self.old + 1) (2 ^ 64 - 1)) }
        ensures sync_failed { sync_failed_of self.new ≡ sync_failed_of self.old }
    {
        let place = self.place(b);
        let Some(file) = &self.file else {
            unreachable!()
        };
        let answer = file.read_exact_at(out, place);
        or_fault(answer, &mut self.faults, DeviceFault)
    }

    fn write(&mut self, b: u32, bytes: &[u8]) -> Result<(), DeviceFault>
        requires in_range { b < (origin_of self.old).blocks }
        requires whole { length bytes.now ≡ (origin_of self.old).block_size }
        ensures origin { origin_of self.new ≡ origin_of self.old }
        ensures cause { HasCause (faults_of self.old) (faults_of self.new) result }
        ensures counted { OnErr result (faults_of self.new
            ≡ min (faults_of self.old + 1) (2 ^ 64 - 1)) }
        ensures sync_failed { sync_failed_of self.new ≡ sync_failed_of self.old }
    {
        let place = self.place(b);
        let Some(file) = &self.file else {
            unreachable!()
        };
        let answer = file.write_all_at(bytes, place);
        or_fault(answer, &mut self.faults, DeviceFault)
    }

    /// Once a flush has failed, each later one fails.
    fn flush(&mut self) -> Result<(), DeviceFault>
        ensures origin { origin_of self.new ≡ origin_of self.old }
        ensures cause { HasCause (faults_of self.old) (faults_of self.new) result }
        ensures counted { OnErr result (faults_of self.new
            ≡ min (faults_of self.old + 1) (2 ^ 64 - 1)) }
        ensures failed { IsErr result → IsTrue (sync_failed_of self.new) }
        ensures stays { IsTrue (sync_failed_of self.old) → IsErr result }
    {
        let answer = if self.sync_failed {
            Err(ErrorKind::Other.into())
        } else {
            self.sync()
        };
        self.sync_failed = answer.is_err();
        or_fault(answer, &mut self.faults, DeviceFault)
    }
}
