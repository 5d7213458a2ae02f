//! The plain data that the calls and their definitions share. What the calls do with it stands in specs/.
#![tactic(auto)]

ghost use Rattle.std.specs.Prelude.{◌≡◌, None, Err};
ghost use Rattle.model.specs.Store.{ptr, header};
ghost use Rattle.model.specs.Answers.{refusal_number, completed, checked, verdict_number};
ghost use Rattle.model.specs.Codes.{code_number, Names};
ghost use Rattle.model.specs.Listing.{listing};
ghost use Rattle.model.specs.Worked.{worked_file, worked_listing};

/// The most places of a store, and the most commands of a sequence.
pub const MAX_PLACES: usize = 1024;

pub const MAX_COMMANDS: usize = 4095;

/// A message's handle. Index 0 names no place and generation 0 no message.
#[repr(C)]
#[derive(Clone, Copy, PartialEq, Eq)]
pub struct Ptr {
    pub index: u16,
    pub generation: u32,
}

impl Ptr {
    pub const MAX_INDEX: u16 = u16::MAX;

    /// What stands where there is no handle to show.
    pub const NONE: Ptr = Ptr {
        index: 0,
        generation: 0,
    };

    pub fn new(index: u16, generation: u32) -> Ptr
        ensures { result ≡ ptr index generation }
    {
        Ptr { index, generation }
    }
}

/// The store's numbers: live messages, stack length, root of the free chain (0 is none), current generation.
#[repr(C)]
#[derive(Clone, Copy)]
pub struct Header {
    pub len: u16,
    pub m: u16,
    pub root: u16,
    pub generation: u32,
}

impl Header {
    /// With n messages, on the first n places.
    pub fn of(n: u16, generation: u32) -> Header
        ensures { result ≡ header n n 0 generation }
    {
        Header {
            len: n,
            m: n,
            root: 0,
            generation,
        }
    }
}

/// The next index to look at (0 is spent), and whether it counts down.
#[derive(Clone, Copy)]
pub struct Cursor {
    pub index: u16,
    pub rev: bool,
}

/// One record of the journal: a moved message's old and new handle, and whether its removal overflowed, each a field
/// that document 01 names.
#[repr(C)]
#[derive(Clone, Copy, PartialEq, Eq)]
pub struct Row {
    pub old: Ptr,
    pub new: Ptr,
    pub overflow: bool,
}

/// A sequence run's state: the next command's number, from 1, and the header.
#[repr(C)]
#[derive(Clone, Copy)]
pub struct State {
    pub next: u16,
    pub header: Header,
}

/// The generation after a step, and whether the step overflowed.
#[derive(Clone, Copy)]
pub struct GenerationStep {
    pub generation: u32,
    pub overflow: bool,
}

/// Why a call, or a sequence's step or run, is turned down, in the order of document 01's numbers.
#[derive(Clone, Copy, PartialEq, Eq)]
pub enum Refusal {
    TablesUnfit = 1,
    HeaderUnfit = 2,
    Zero = 3,
    Unsound = 4,
    JournalShort = 5,
    InvalidPtr = 6,
    NotWithinCapacity = 7,
    AllocError = 8,
    BeyondMaxCapacity = 9,
    WrongLength = 10,
    WrongMark = 11,
    WrongPlaces = 12,
    BadCommand = 13,
}

// The number of a refusal.
impl From<Refusal> for u8 {
    fn from(refusal: Refusal) -> u8
        ensures { result ≡ refusal_number refusal }
    {
        refusal as u8
    }
}

/// A message taken or shown: its handle and its value. Zeros where an answer shows none, as in a listing and in C.
#[derive(Clone, Copy)]
pub struct Message {
    pub ptr: Ptr,
    pub value: u64,
}

/// What a call that steps the generation has done. In `Overflow` the step went past the largest generation.
#[derive(Clone, Copy)]
pub enum Completed<T> {
    Done(T),
    Overflow(T),
}

impl<T> Completed<T> {
    /// By whether the generation step overflowed.
    pub fn by(overflow: bool, done: T) -> Completed<T>
        ensures { result ≡ completed overflow done }
    {
        if overflow {
            Completed::Overflow(done)
        } else {
            Completed::Done(done)
        }
    }
}

/// The answer of a removal, and of each command of a sequence: the message that it shows.
pub type Answer = Result<Completed<Message>, Refusal>;

/// What the audit finds wrong with a store: its verdicts from 1 to 9, in order.
#[derive(Clone, Copy, PartialEq, Eq)]
pub enum Unsound {
    Generation = 1,
    TooLong = 2,
    Count = 3,
    Root = 4,
    LinkZero = 5,
    LinkBeyond = 6,
    LivePlace = 7,
    Endless = 8,
    Discontinuous = 9,
}

// The number of a verdict other than sound.
impl From<Unsound> for u8 {
    fn from(unsound: Unsound) -> u8
        ensures { result ≡ verdict_number (Err unsound) }
    {
        unsound as u8
    }
}

/// The answer of audit: whether the store is sound, and the number of chain places looked at.
#[derive(Clone, Copy)]
pub struct Audit {
    pub verdict: Result<(), Unsound>,
    pub looks: u16,
}

/// Why a sequence's step or run is turned down, and the command at fault where one is. No enum with the command beside
/// `BadCommand` alone: document 01 numbers the refusals in one list, which is `Refusal`.
#[derive(Clone, Copy)]
pub struct StepRefusal {
    pub refusal: Refusal,
    pub fault: Option<u16>,
}

// A refusal that finds no command at fault.
impl From<Refusal> for StepRefusal {
    ghost from_gives = { λ refusal r. (r.refusal ≡ refusal) × (r.fault ≡ None) };

    fn from(refusal: Refusal) -> StepRefusal {
        StepRefusal {
            refusal,
            fault: None,
        }
    }
}

/// The commands of a sequence, in the order of their codes.
#[derive(Clone, Copy, PartialEq, Eq)]
pub enum Code {
    Insert = 1,
    Remove = 2,
    Invalidate = 3,
    Get = 4,
    Clear = 5,
    Order = 6,
    Compress = 7,
    Audit = 8,
    SetGeneration = 9,
    RemoveIndex = 10,
}

/// A code that no command has.
#[derive(Clone, Copy, PartialEq, Eq)]
pub struct UnknownCode(pub u8);

impl TryFrom<u8> for Code {
    type Error = UnknownCode;

    ghost try_from_gives = { Names };

    fn try_from(code: u8) -> Result<Code, UnknownCode> {
        match code {
            1 => Ok(Code::Insert),
            2 => Ok(Code::Remove),
            3 => Ok(Code::Invalidate),
            4 => Ok(Code::Get),
            5 => Ok(Code::Clear),
            6 => Ok(Code::Order),
            7 => Ok(Code::Compress),
            8 => Ok(Code::Audit),
            9 => Ok(Code::SetGeneration),
            10 => Ok(Code::RemoveIndex),
            _ => Err(UnknownCode(code)),
        }
    }
}

// The code of a command.
impl From<Code> for u8 {
    fn from(code: Code) -> u8
        ensures { result ≡ code_number code }
    {
        code as u8
    }
}

/// One command of a sequence. Its code is a number: it is the file's field, and may be one that no command has. A row
/// of the table of commands has the same fields: the code, and the largest number that each other may hold.
#[derive(Clone, Copy)]
pub struct Command {
    pub code: u8,
    pub flag: u8,
    pub index: u16,
    pub generation: u32,
    pub value: u64,
}

impl Command {
    /// 0 in every field: what the commands and the rows of their table fill in.
    pub const NO_FIELDS: Command = Command {
        code: 0,
        flag: 0,
        index: 0,
        generation: 0,
        value: 0,
    };
}

/// What the check of a sequence file gives, as C takes it: the refusal that turns it down (0 is none) and the command
/// at fault (0 where none is).
#[repr(C)]
#[derive(Clone, Copy)]
pub struct Checked {
    pub refusal: u8,
    pub fault: u16,
}

impl From<StepRefusal> for Checked {
    fn from(r: StepRefusal) -> Checked
        ensures { result ≡ checked (Err r) }
    {
        Checked {
            refusal: u8::from(r.refusal),
            fault: r.fault.unwrap_or(0),
        }
    }
}

impl From<Result<(), StepRefusal>> for Checked {
    fn from(found: Result<(), StepRefusal>) -> Checked
        ensures { result ≡ checked found }
    {
        match found {
            Ok(()) => Checked {
                refusal: 0,
                fault: 0,
            },
            Err(r) => Checked::from(r),
        }
    }
}

/// The worked listing: what the definitions print for a sequence file of fourteen commands, byte for byte. The function
/// does nothing; its contract is this theorem.
#[tactic(auto, using(crate::proofs::Worked::worked))]
pub fn worked_file_is_listed()
    ensures { listing worked_file ≡ worked_listing }
{}
