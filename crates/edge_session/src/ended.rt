use edge_model::AskFault;

/// How many lines a session answers at most, and how many bytes of a script it takes up.
#[derive(Clone, Copy, Debug)]
pub struct Limit {
    pub lines: u32,
    pub bytes: u64,
}

/// Why a session has ended.
#[derive(Clone, Copy, Debug, PartialEq, Eq)]
pub enum How {
    /// The script was read to its end.
    End,
    /// The source failed.
    Source,
    /// The sink failed.
    Sink,
    /// A limit was reached, and the source gives a further byte.
    Limit,
    /// The disk failed, or damage was met.
    Fault(AskFault),
}

/// How a session has ended, how many lines were answered, and how many bytes of the script are in
/// them and in a line that was taken up and not answered.
#[derive(Clone, Copy, Debug)]
pub struct Ended {
    pub how: How,
    pub commands: u32,
    pub taken: u64,
}
