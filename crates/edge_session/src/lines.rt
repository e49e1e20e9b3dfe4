ghost use Rattle.std.specs.Prelude.{◌≡◌, ◌+◌, ◌-◌, ◌<◌, ◌≤◌, ◌++◌, ◌^◌, [], length, take, vec_len, IsTrue, IfOk, OnOk, OnErr, true, false, Ok, drop, position};
ghost use Rattle.edge_session.specs.Feeds.{is_line_feed};
ghost use Rattle.edge_base.specs.outside.Faults.{HasCause};

use edge_io::{Source, SourceFault};
use std::alloc::{AllocError, Global};

/// How many bytes are read from a source at once.
const INPUT: usize = 65_536;

/// The most bytes of a line that spells a command.
pub const LONGEST_LINE: usize = 8209;

// One byte more is kept of a line.
const KEPT: usize = LONGEST_LINE + 1;

/// What the next bytes of a script are.
#[derive(Clone, Copy, PartialEq, Eq)]
pub enum Next {
    /// A line, which was taken up whole.
    Line,
    /// Nothing: the script has ended.
    End,
    /// More than may be taken up.
    Limit,
}

/// Takes a script up line by line, in constant memory.
#[derive(Drop)]
pub struct LineReader {
    input: Vec<u8>,
    at: usize,
    end: usize,
    line: Vec<u8>,
    kept: usize,
    used: u64,
    ended: bool,
    ghost at_in: { at ≤ end },
    ghost end_in: { end ≤ vec_len input },
    ghost room: { 0 < vec_len input },
    ghost line_room: { vec_len line ≡ 8210 },
    ghost kept_in: { kept ≤ 8210 },
}

// Appends to the bytes kept as many of these as there is room for, and answers how many are kept
// then.
fn append(line: &mut [u8], kept: usize, bytes: &[u8]) -> usize
    requires { kept ≤ length line.old }
    ensures in_line { result ≤ length line.new }
    ensures kept { take result line.new ≡ take (length line.old) (take kept line.old ++ bytes.now) }
{
    let n = bytes.len().min(line.len() - kept);
    line[kept..kept + n].copy_from_slice(&bytes[..n]);
    kept + n
}

impl LineReader {
    ghost use Rattle.edge_session.specs.Feeds.{GoesOn, TakesLine, HasBegun, SeesEnd, kept_part};
    ghost use Rattle.edge_session.specs.Stream.{pending, stream_of, kept_of, used_of, ended_of};

    /// A reader that has taken nothing up, with all the memory that it needs.
    pub fn new(alloc: Global) -> Result<LineReader, AllocError>
        ensures unused { IfOk result (λ r. used_of r ≡ 0) }
        ensures nothing_pending { IfOk result (λ r. pending r ≡ []) }
        ensures not_ended { IfOk result (λ r. ended_of r ≡ false) }
    {
        Ok(LineReader {
            input: vec![in alloc; 0u8; INPUT]?,
            at: 0,
            end: 0,
            line: vec![in alloc; 0u8; KEPT]?,
            kept: 0,
            used: 0,
            ended: false,
        })
    }

    /// Begins a further script: nothing is taken up yet.
    pub fn begin(&mut self)
        ensures unused { used_of self.new ≡ 0 }
        ensures nothing_pending { pending self.new ≡ [] }
        ensures not_ended { ended_of self.new ≡ false }
    {
        self.at = 0;
        self.end = 0;
        self.used = 0;
        self.ended = false;
    }

    // Reads more, where nothing is pending, and answers whether there is more.
    fn refill<S: Source>(&mut self, src: &mut S) -> Result<bool, SourceFault>
        requires { self.old.at ≡ self.old.end }
        ensures tells { S.tells src.new ≡ S.tells src.old }
        ensures cause { HasCause (S.faults src.old) (S.faults src.new) result }
        ensures more { result ≡ Ok true → self.new.at < self.new.end }
        ensures given { IsTrue (S.tells src.old)
            → OnOk result (S.left src.old ≡ pending self.new ++ S.left src.new) }
        ensures end { IsTrue (S.tells src.old) → result ≡ Ok false
            → (pending self.new ≡ []) × (S.left src.new ≡ []) }
        ensures ended { result ≡ Ok false → ended_of self.new ≡ true }
        ensures goes_on { (result ≡ Ok false → ⊥) → ended_of self.new ≡ ended_of self.old }
        ensures failed { OnErr result
            ((S.left src.new ≡ S.left src.old) × (pending self.new ≡ [])) }
        ensures kept { kept_of self.new ≡ kept_of self.old }
        ensures used { used_of self.new ≡ used_of self.old }
    {
        self.at = 0;
        self.end = 0;
        let n = src.read(&mut self.input)?;
        self.end = n;
        if n == 0 {
            self.ended = true;
            return Ok(false);
        }
        Ok(true)
    }

    /// Whether the source gives a further byte, which stays to be taken up. Once the source has
    /// ended it is not asked again.
    pub fn has_more<S: Source>(&mut self, src: &mut S) -> Result<bool, SourceFault>
        requires { SeesEnd (S.tells src.old) (ended_of self.old) (S.left src.old) }
        ensures tells { S.tells src.new ≡ S.tells src.old }
        ensures cause { HasCause (S.faults src.old) (S.faults src.new) result }
        ensures more { result ≡ Ok true → self.new.at < self.new.end }
        ensures same { IsTrue (S.tells src.old)
            → OnOk result (stream_of self.new (S.left src.new)
            ≡ stream_of self.old (S.left src.old)) }
        ensures end { IsTrue (S.tells src.old) → result ≡ Ok false
            → (stream_of self.new (S.left src.new) ≡ []) × (S.left src.new ≡ []) }
        ensures ended { result ≡ Ok false → ended_of self.new ≡ true }
        ensures seen { SeesEnd (S.tells src.new) (ended_of self.new) (S.left src.new) }
        ensures failed { OnErr result (stream_of self.old (S.left src.old) ≡ S.left src.new) }
        ensures not_ended { OnErr result (ended_of self.old ≡ false) }
        ensures goes_on { (result ≡ Ok false → ⊥) → ended_of self.new ≡ ended_of self.old }
        ensures kept { kept_of self.new ≡ kept_of self.old }
        ensures used { used_of self.new ≡ used_of self.old }
    {
        if self.at < self.end {
            return Ok(true);
        }
        if self.ended {
            return Ok(false);
        }
        self.refill(src)
    }

    // Keeps of the line that has begun the first bytes that are pending, as far as there is room.
    fn keep(&mut self, len: usize)
        requires { len ≤ self.old.end - self.old.at }
        ensures kept { kept_of self.new
            ≡ kept_part (kept_of self.old ++ take len (pending self.old)) }
        ensures pending { pending self.new ≡ pending self.old }
        ensures place { self.new.at ≡ self.old.at }
        ensures end { self.new.end ≡ self.old.end }
        ensures used { used_of self.new ≡ used_of self.old }
        ensures ended { ended_of self.new ≡ ended_of self.old }
    {
        let piece = &self.input[self.at..self.at + len];
        self.kept = append(&mut self.line, self.kept, piece);
    }

    // Takes up what is pending of the line that has begun, at most so many bytes, and answers
    // whether the line has ended.
    fn take_up(&mut self, most: u64) -> bool
        requires some { self.old.at < self.old.end }
        requires room { 0 < most }
        requires fits { used_of self.old + most < 2 ^ 64 }
        ensures taken { GoesOn result (pending self.old) (pending self.new) (kept_of self.old)
            (kept_of self.new) (used_of self.old) (used_of self.new) }
        ensures ended { ended_of self.new ≡ ended_of self.old }
        ensures more { used_of self.old < used_of self.new }
        ensures most { used_of self.new ≤ used_of self.old + most }
    {
        let n = most.min((self.end - self.at) as u64) as usize;
        match line_feed_in(&self.input[self.at..self.at + n]) {
            Some(len) => {
                self.keep(len);
                self.skip(len + 1);
                true
            }
            None => {
                self.keep(n);
                self.skip(n);
                false
            }
        }
    }
    // Counts the first bytes that are pending as used.
    fn skip(&mut self, n: usize)
        requires pending { n ≤ self.old.end - self.old.at }
        requires fits { used_of self.old + n < 2 ^ 64 }
        ensures pending { pending self.new ≡ drop n (pending self.old) }
        ensures kept { kept_of self.new ≡ kept_of self.old }
        ensures used { used_of self.new ≡ used_of self.old + n }
        ensures ended { ended_of self.new ≡ ended_of self.old }
    {
        self.at += n;
        self.used += n as u64;
    }

    /// Takes up the next line. It ends where `limit` bytes were taken up and the source gives a
    /// further one.
    pub fn next<S: Source>(&mut self, src: &mut S, limit: u64) -> Result<Next, SourceFault>
        requires limit { used_of self.old ≤ limit }
        requires seen { SeesEnd (S.tells src.old) (ended_of self.old) (S.left src.old) }
        ensures tells { S.tells src.new ≡ S.tells src.old }
        ensures cause { HasCause (S.faults src.old) (S.faults src.new) result }
        ensures used { used_of self.new ≤ limit }
        ensures seen { SeesEnd (S.tells src.new) (ended_of self.new) (S.left src.new) }
        ensures line { IsTrue (S.tells src.old) → result ≡ Ok Next.Line
            → TakesLine (stream_of self.old (S.left src.old)) (stream_of self.new (S.left src.new))
            (kept_of self.new) (ended_of self.new) (used_of self.old) (used_of self.new) }
        ensures end { IsTrue (S.tells src.old) → result ≡ Ok Next.End
            → (stream_of self.old (S.left src.old) ≡ []) × (stream_of self.new (S.left src.new)
            ≡ [])
            × (S.left src.new ≡ []) × (used_of self.new ≡ used_of self.old) }
        ensures limit { result ≡ Ok Next.Limit
            → (used_of self.new ≡ limit) × (self.new.at < self.new.end) }
        ensures begun { IsTrue (S.tells src.old) → result ≡ Ok Next.Limit
            → HasBegun (stream_of self.old (S.left src.old)) (stream_of self.new (S.left src.new))
            (kept_of self.new) (used_of self.old) (used_of self.new) }
        ensures failed { IsTrue (S.tells src.old) → OnErr result
            (HasBegun (stream_of self.old (S.left src.old)) (S.left src.new) (kept_of self.new)
            (used_of self.old) (used_of self.new)) }
        ensures not_ended { OnErr result (ended_of self.old ≡ false) }
    {
        self.kept = 0;
        let start = self.used;
        loop {
            if !self.has_more(src)? {
                if self.used > start {
                    return Ok(Next::Line);
                }
                return Ok(Next::End);
            }
            if self.used == limit {
                return Ok(Next::Limit);
            }
            if self.take_up(limit - self.used) {
                return Ok(Next::Line);
            }
        }
    }

    /// The line that was taken up last, or the first bytes of one that is too long to be a command.
    pub fn line(&self) -> &[u8]
        ensures { result.now ≡ kept_of self.now }
    {
        &self.line[..self.kept]
    }

    /// The number of bytes taken up.
    pub fn used(&self) -> u64
        ensures { result ≡ used_of self.now }
    {
        self.used
    }
}

// The place of the first line feed.
fn line_feed_in(bytes: &[u8]) -> Option<usize>
    ensures { result ≡ position is_line_feed bytes.now }
{
    bytes.iter().position(|byte| *byte == b'\n')
}
