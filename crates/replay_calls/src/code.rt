//! The codes of the script's lines.

// The calls on one message.
#[derive(Clone, Copy, PartialEq, Eq)]
pub enum OnMessage {
    InsertWithinCapacity,
    InsertReallocating,
    Remove,
    RemoveInx,
    Invalidate,
    Get,
    Put,
}

// The calls on the whole store.
#[derive(Clone, Copy, PartialEq, Eq)]
pub enum OnStore {
    Clear,
    CanonicalizeFreelist,
    ReallocateMinCapacity,
    FindFirstInxPtr,
    FindLastInxPtr,
    SetGeneration,
    IncGeneration,
    CheckInvariants,
    New,
}

#[derive(Clone, Copy, PartialEq, Eq)]
pub enum WithCursor {
    Advance,
    Drain,
}

// The calls that move or copy messages.
#[derive(Clone, Copy, PartialEq, Eq)]
pub enum Moving {
    CompressWith,
    TransferReallocating,
    CloneFromWith,
}

#[derive(Clone, Copy, PartialEq, Eq)]
pub enum Code {
    Store,
    Fill,
    Journal,
    OnMessage(OnMessage),
    OnStore(OnStore),
    WithCursor(WithCursor),
    Moving(Moving),
}

// A number that is no code.
#[derive(Clone, Copy)]
pub struct NoCode;

impl TryFrom<u64> for Code {
    type Error = NoCode;

    fn try_from(code: u64) -> Result<Code, NoCode> {
        let code = match code {
            0 => Code::Store,
            1 => Code::OnMessage(OnMessage::InsertWithinCapacity),
            2 => Code::OnMessage(OnMessage::InsertReallocating),
            3 => Code::OnMessage(OnMessage::Remove),
            4 => Code::OnMessage(OnMessage::RemoveInx),
            5 => Code::OnMessage(OnMessage::Invalidate),
            6 => Code::OnMessage(OnMessage::Get),
            7 => Code::OnMessage(OnMessage::Put),
            8 => Code::OnStore(OnStore::Clear),
            9 => Code::OnStore(OnStore::CanonicalizeFreelist),
            10 => Code::OnStore(OnStore::ReallocateMinCapacity),
            11 => Code::OnStore(OnStore::FindFirstInxPtr),
            12 => Code::OnStore(OnStore::FindLastInxPtr),
            13 => Code::OnStore(OnStore::SetGeneration),
            14 => Code::OnStore(OnStore::IncGeneration),
            15 => Code::OnStore(OnStore::CheckInvariants),
            16 => Code::Fill,
            17 => Code::WithCursor(WithCursor::Advance),
            18 => Code::WithCursor(WithCursor::Drain),
            19 => Code::Moving(Moving::CompressWith),
            20 => Code::Moving(Moving::TransferReallocating),
            21 => Code::Moving(Moving::CloneFromWith),
            24 => Code::Journal,
            25 => Code::OnStore(OnStore::New),
            _ => return Err(NoCode),
        };
        Ok(code)
    }
}

impl Code {
    // The name of a call, as its line is answered.
    pub fn name(self) -> &'static str {
        match self {
            Code::Store => "store",
            Code::Fill => "fill",
            Code::Journal => "journal",
            Code::OnMessage(OnMessage::InsertWithinCapacity) => "insert_within_capacity",
            Code::OnMessage(OnMessage::InsertReallocating) => "insert_reallocating",
            Code::OnMessage(OnMessage::Remove) => "remove",
            Code::OnMessage(OnMessage::RemoveInx) => "remove_inx",
            Code::OnMessage(OnMessage::Invalidate) => "invalidate",
            Code::OnMessage(OnMessage::Get) => "get",
            Code::OnMessage(OnMessage::Put) => "put",
            Code::OnStore(OnStore::Clear) => "clear",
            Code::OnStore(OnStore::CanonicalizeFreelist) => "canonicalize_freelist",
            Code::OnStore(OnStore::ReallocateMinCapacity) => "reallocate_min_capacity",
            Code::OnStore(OnStore::FindFirstInxPtr) => "find_first_inx_ptr",
            Code::OnStore(OnStore::FindLastInxPtr) => "find_last_inx_ptr",
            Code::OnStore(OnStore::SetGeneration) => "set_generation",
            Code::OnStore(OnStore::IncGeneration) => "inc_generation",
            Code::OnStore(OnStore::CheckInvariants) => "check_invariants",
            Code::OnStore(OnStore::New) => "new",
            Code::WithCursor(WithCursor::Advance) => "advance",
            Code::WithCursor(WithCursor::Drain) => "drain",
            Code::Moving(Moving::CompressWith) => "compress_with",
            Code::Moving(Moving::TransferReallocating) => "transfer_reallocating",
            Code::Moving(Moving::CloneFromWith) => "clone_from_with",
        }
    }

    // How many numbers follow the code; a store may have more.
    pub fn numbers(self) -> usize {
        match self {
            Code::Store | Code::Journal => 7,
            Code::Fill => 3,
            Code::OnMessage(OnMessage::Put) => 3,
            Code::OnMessage(OnMessage::Remove | OnMessage::Invalidate | OnMessage::Get) => 2,
            Code::OnMessage(_) => 1,
            Code::OnStore(OnStore::ReallocateMinCapacity | OnStore::SetGeneration | OnStore::New) =>
                1,
            Code::OnStore(_) => 0,
            Code::WithCursor(_) => 2,
            Code::Moving(Moving::CloneFromWith) => 0,
            Code::Moving(_) => 1,
        }
    }
}
