/// Why a command is refused. `refusal as u8` is the number that a reply prints, Linux's number of
/// the error of that name.
#[derive(Clone, Copy, Debug, PartialEq, Eq)]
pub enum Refusal {
    NoEntry = 2,
    BadDescriptor = 9,
    Busy = 16,
    Exists = 17,
    CrossVolume = 18,
    NotDir = 20,
    IsDir = 21,
    Invalid = 22,
    NoInodes = 23,
    TooManyOpen = 24,
    TooBig = 27,
    NoSpace = 28,
    TooManyLinks = 31,
    NameTooLong = 36,
    NotEmpty = 39,
}
