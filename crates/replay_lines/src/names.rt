// The names of calls and operations.
use crate::tokens::Tokens;

// A call of the kinds that the programs answer, but of `loader`.
#[derive(Clone, Copy, PartialEq, Eq)]
pub enum Call {
    // numbers
    Direction,
    Code,
    Status,
    // a number's call, as an operation of the same name
    Reset,
    Index,
    // blocks
    ReadCommand,
    WriteCommand,
    ConvertCommand,
    ReadStatus,
    WriteStatus,
    MapStatus,
    // replies
    ChipInfo,
    FlashId,
    FlashInfo,
    Capability,
    Storage,
    Sectors,
    // operations
    Open,
    Step,
    Give,
    // the device
    StartDefault,
    StartConfigured,
    StartNor,
    WriteBulk,
    ReadBulk,
    WriteControl,
    Area,
    LastReset,
    // runs
    RunOperation,
    RunUpload,
    // uploads
    Upload,
    UploadStep,
    WholeList,
    CutList,
    // decks
    FreshDeck,
    Block,
    DeckDevice,
}

#[derive(Clone, Copy, PartialEq, Eq)]
pub enum OperationName {
    ChipInfo,
    FlashId,
    FlashInfo,
    Capability,
    Storage,
    EraseLba,
    EraseForce,
    ReadLba,
    WriteLba,
    ResetDevice,
    SwitchStorage,
}

impl Call {
    // On a number, a block or a reply, or of those on a thing that stays.
    // Stays `of`: the error of a `TryFrom` would say no more than `None`.
    fn of(letters: &[u8; 3]) -> Option<Call> {
        match letters {
            b"dir" => Some(Call::Direction),
            b"cod" => Some(Call::Code),
            b"sta" => Some(Call::Status),
            b"rst" => Some(Call::Reset),
            b"idx" => Some(Call::Index),
            b"crd" => Some(Call::ReadCommand),
            b"cwr" => Some(Call::WriteCommand),
            b"cnv" => Some(Call::ConvertCommand),
            b"srd" => Some(Call::ReadStatus),
            b"swr" => Some(Call::WriteStatus),
            b"smp" => Some(Call::MapStatus),
            b"chp" => Some(Call::ChipInfo),
            b"fid" => Some(Call::FlashId),
            b"fin" => Some(Call::FlashInfo),
            b"cap" => Some(Call::Capability),
            b"sto" => Some(Call::Storage),
            b"sec" => Some(Call::Sectors),
            _ => Call::of_thing(letters),
        }
    }

    fn of_thing(letters: &[u8; 3]) -> Option<Call> {
        match letters {
            b"opn" => Some(Call::Open),
            b"stp" => Some(Call::Step),
            b"giv" => Some(Call::Give),
            b"dvd" => Some(Call::StartDefault),
            b"dvc" => Some(Call::StartConfigured),
            b"dvn" => Some(Call::StartNor),
            b"bwr" => Some(Call::WriteBulk),
            b"brd" => Some(Call::ReadBulk),
            b"ctl" => Some(Call::WriteControl),
            b"are" => Some(Call::Area),
            b"lst" => Some(Call::LastReset),
            b"run" => Some(Call::RunOperation),
            b"urn" => Some(Call::RunUpload),
            b"upl" => Some(Call::Upload),
            b"ust" => Some(Call::UploadStep),
            b"all" => Some(Call::WholeList),
            b"cut" => Some(Call::CutList),
            b"dck" => Some(Call::FreshDeck),
            b"blk" => Some(Call::Block),
            b"dev" => Some(Call::DeckDevice),
            _ => None,
        }
    }
}

impl OperationName {
    // Stays `of`, as that of calls.
    fn of(letters: &[u8; 3]) -> Option<OperationName> {
        match letters {
            b"chp" => Some(OperationName::ChipInfo),
            b"fid" => Some(OperationName::FlashId),
            b"fin" => Some(OperationName::FlashInfo),
            b"cap" => Some(OperationName::Capability),
            b"sto" => Some(OperationName::Storage),
            b"era" => Some(OperationName::EraseLba),
            b"erf" => Some(OperationName::EraseForce),
            b"rdl" => Some(OperationName::ReadLba),
            b"wrl" => Some(OperationName::WriteLba),
            b"rst" => Some(OperationName::ResetDevice),
            b"swi" => Some(OperationName::SwitchStorage),
            _ => None,
        }
    }
}

impl Tokens<'_> {
    // The call that the line begins with.
    pub fn call(&mut self) -> Option<Call> {
        Call::of(&self.name()?)
    }

    pub fn operation(&mut self) -> Option<OperationName> {
        self.gap()?;
        OperationName::of(&self.name()?)
    }
}
