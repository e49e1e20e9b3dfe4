ghost use Rattle.std.specs.Prelude.{◌≡◌, ◌≤◌, ◌↔◌, length, Some, IfOk, IfSome};
ghost use Rattle.std.specs.Fs.{IsDir, IsFile};
ghost use Rattle.edge_io.specs.declared.folder.ItemKind.TheVariants.{File as FileKind, Directory};

use crate::faults::or_fault;
use crate::transfer::read_some;
use edge_io::{Folder, FolderFault, Item, ItemKind};
use std::alloc::AllocError;
use std::collections::BTreeMap;
use std::fs::{File, FileType};
use std::io::ErrorKind;
use std::path::{Path, PathBuf};
use std::rt::Files;
use std::{fs, io};

// What a file of the host is given as, none where it is passed over.
fn kind_of(file_type: FileType) -> Option<ItemKind>
    ensures file { (result ≡ Some FileKind) ↔ IsFile file_type }
    ensures directory { (result ≡ Some Directory) ↔ IsDir file_type }
{
    if file_type.is_file() {
        Some(ItemKind::File)
    } else if file_type.is_dir() {
        Some(ItemKind::Directory)
    } else {
        None
    }
}

// A folder of the host, which is asked by paths below it.
#[derive(Drop)]
struct Root<R> {
    rt: R,
    path: PathBuf,
}

impl<R: Files<File = File> + AllocGlobal + Clone + Drop> Root<R> {
    fn place(&self, path: Path<'_>) -> Result<PathBuf, AllocError> {
        self.path.join(self.rt.alloc(), path)
    }

    // What is in a directory. A name that is not UTF-8 is an error of std.
    fn inside(&self, directory: Path<'_>) -> io::Result<BTreeMap<PathBuf, ItemKind>> {
        let mut inside = BTreeMap::new(self.rt.alloc());
        for entry in fs::read_dir(&self.rt, self.place(directory)?)? {
            let entry = entry?;
            if let Some(kind) = kind_of(entry.file_type()?) {
                let path = directory.join(self.rt.alloc(), entry.file_name())?;
                inside.insert(path, kind)?;
            }
        }
        Ok(inside)
    }

    // Opens a file, and finds what is in a directory.
    fn open(
        &self,
        path: Path<'_>,
        kind: ItemKind,
    ) -> io::Result<(Option<File>, BTreeMap<PathBuf, ItemKind>)> {
        match kind {
            ItemKind::File => {
                let file = fs::open(&self.rt, self.place(path)?)?;
                Ok((Some(file), BTreeMap::new(self.rt.alloc())))
            }
            ItemKind::Directory => Ok((None, self.inside(path)?)),
        }
    }
}

/// The regular files and the directories below a folder of the host, at any depth. A directory
/// comes before what is in it, and the names in a directory come by their bytes. Anything else is
/// passed over, as a link.
///
/// Where the folder cannot be opened, each call fails until it can. Before `next` gives a file it
/// opens it, and before it gives a directory it reads its names. It fails where the host or memory
/// fails, where one of the names is not UTF-8, or where the path has more than 4,096 bytes; the
/// item stays the next.
#[derive(Drop)]
pub struct HostFolder<R> {
    root: Root<R>,
    is_open: bool,
    // What was found and is not given yet, by its path below the root. Paths are ordered name by
    // name, so what is in a directory follows it at once.
    found: BTreeMap<PathBuf, ItemKind>,
    // The last item given, if it is a file.
    file: Option<File>,
    faults: u64,
}

impl<R: Files<File = File> + AllocGlobal + Clone + Drop> HostFolder<R> {
    ghost use Rattle.edge_host.specs.HostFolder.{path_of, folder_faults};

    /// The folder at `path`, which is opened at the first call. `rt` may be a reference to a
    /// runtime.
    pub fn new(rt: R, path: &str) -> Result<HostFolder<R>, AllocError>
        ensures path { IfOk result (λ f. path_of f ≡ path.now) }
        ensures faults { IfOk result (λ f. folder_faults f ≡ 0) }
    {
        let alloc = rt.alloc();
        let path = PathBuf::from_str(alloc, path)?;
        Ok(HostFolder {
            root: Root { rt, path },
            is_open: false,
            found: BTreeMap::new(alloc),
            file: None,
            faults: 0,
        })
    }

    // Finds what is in the folder itself, once.
    fn open(&mut self) -> io::Result<()>
        ensures { self.new.faults ≡ self.old.faults }
    {
        if !self.is_open {
            self.found = self.root.inside(Path::new(""))?;
            self.is_open = true;
        }
        Ok(())
    }

    // Takes the first item that was found, once all that the host does for it has succeeded.
    fn take(&mut self, path: &mut [u8]) -> io::Result<Option<Item>>
        requires { length path.old ≡ 4096 }
        ensures fits { IfOk result (λ given. IfSome given (λ item. item.path_len ≤ 4096)) }
        ensures faults { self.new.faults ≡ self.old.faults }
    {
        self.open()?;
        let Some((first, kind)) = self.found.first_key_value() else {
            return Ok(None);
        };
        let kind = *kind;
        let name = first.as_str().as_bytes();
        let path_len = name.len();
        if path_len > path.len() {
            return Err(ErrorKind::InvalidFilename.into());
        }
        let (file, mut inside) = self.root.open(first.as_path(), kind)?;
        path[..path_len].copy_from_slice(name);
        self.found.append(&mut inside)?;
        self.found.pop_first();
        self.file = file;
        Ok(Some(Item { kind, path_len }))
    }

    // Reads from the last item given.
    fn read(&mut self, out: &mut [u8]) -> io::Result<usize>
        ensures fits { IfOk result (λ n. n ≤ length out.old) }
        ensures faults { self.new.faults ≡ self.old.faults }
    {
        self.open()?;
        match &mut self.file {
            Some(file) => read_some(file, out),
            None => Ok(0),
        }
    }
}

impl<R: Files<File = File> + AllocGlobal + Clone + Drop> Folder for HostFolder<R> {
    ghost use Rattle.std.specs.Prelude.{[], false};
    ghost use Rattle.edge_host.specs.HostFolder.{folder_faults};

    ghost tells = { λ _. false };

    ghost items = { λ _. [] };

    ghost left = { λ _. [] };

    ghost faults = { folder_faults };

    fn next(&mut self, path: &mut [u8]) -> Result<Option<Item>, FolderFault> {
        let answer = self.take(path);
        or_fault(answer, &mut self.faults, FolderFault)
    }

    fn bytes(&mut self, out: &mut [u8]) -> Result<usize, FolderFault> {
        let answer = self.read(out);
        or_fault(answer, &mut self.faults, FolderFault)
    }
}
