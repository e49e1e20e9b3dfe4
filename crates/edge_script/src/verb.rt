ghost use Rattle.std.specs.Prelude.{◌≡◌};
ghost use Rattle.edge_script.specs.Verbs.{verb_among, file_verbs, other_verbs};
ghost use Rattle.edge_script.specs.Reading.{verb_in};

/// What a command does, as its first word names it.
#[derive(Clone, Copy, Debug, PartialEq, Eq)]
pub enum Verb {
    Open,
    Close,
    Read,
    Write,
    Fill,
    Seek,
    Truncate,
    Fsync,
    Link,
    Unlink,
    Rename,
    MakeDir,
    RemoveDir,
    OpenDir,
    ReadDir,
    Rewind,
    Stat,
    Fstat,
    Space,
    Mask,
    SetMask,
    Transact,
}

/// The verb that a word names.
pub fn verb_of(word: &[u8]) -> Option<Verb>
    ensures { result ≡ verb_in word.now }
{
    match file_verb(word) {
        Some(verb) => Some(verb),
        None => other_verb(word),
    }
}

fn file_verb(word: &[u8]) -> Option<Verb>
    ensures { result ≡ verb_among file_verbs word.now }
{
    match word {
        b"open" => Some(Verb::Open),
        b"close" => Some(Verb::Close),
        b"read" => Some(Verb::Read),
        b"write" => Some(Verb::Write),
        b"fill" => Some(Verb::Fill),
        b"seek" => Some(Verb::Seek),
        b"truncate" => Some(Verb::Truncate),
        b"fsync" => Some(Verb::Fsync),
        b"stat" => Some(Verb::Stat),
        b"fstat" => Some(Verb::Fstat),
        b"unlink" => Some(Verb::Unlink),
        _ => None,
    }
}

fn other_verb(word: &[u8]) -> Option<Verb>
    ensures { result ≡ verb_among other_verbs word.now }
{
    match word {
        b"link" => Some(Verb::Link),
        b"rename" => Some(Verb::Rename),
        b"mkdir" => Some(Verb::MakeDir),
        b"rmdir" => Some(Verb::RemoveDir),
        b"opendir" => Some(Verb::OpenDir),
        b"readdir" => Some(Verb::ReadDir),
        b"rewind" => Some(Verb::Rewind),
        b"space" => Some(Verb::Space),
        b"mask" => Some(Verb::Mask),
        b"setmask" => Some(Verb::SetMask),
        b"transact" => Some(Verb::Transact),
        _ => None,
    }
}
