// Received bytes, for the read that the last step asked for.
ghost use Rattle.std.specs.Prelude.{◌≡◌, List, ℕ, length};
ghost use Rattle.operation.specs.Record.{with_inband};
ghost use Rattle.operation.specs.Code.{gave};
ghost use Rattle.operation.specs.Give.{giving_error_number, GiveMeets, give_of, usb_give};

use crate::steps::{Asked, INBAND, STATUS, UsbOperation};
use rule_number::RuleNumber;

// Why received bytes are not taken.
#[derive(Clone, Copy, Debug, PartialEq, Eq)]
pub enum GivingError {
    // 22
    NotAsked,
    // 21
    TooMany,
    // 27
    DataDiffers,
}

impl RuleNumber for GivingError {
    ghost rule_number = { giving_error_number };

    fn number(self) -> u8 {
        match self {
            GivingError::NotAsked => 22,
            GivingError::TooMany => 21,
            GivingError::DataDiffers => 27,
        }
    }
}

// Stays a pair: document 01 has the record handed back beside the answer.
#[derive(Clone, Copy)]
pub struct UsbGiven {
    pub answer: Result<(), GivingError>,
    pub next: UsbOperation,
}

impl UsbOperation {
    // A reply is given.
    fn with_inband(mut self, data: [u8; 16]) -> UsbOperation
        ensures { result ≡ with_inband self «data» }
    {
        self.data = data;
        self.asked = Asked::Nothing;
        self
    }

    fn gives(self, answer: Result<(), GivingError>) -> UsbGiven
        ensures { result ≡ gave answer self }
    {
        UsbGiven { answer, next: self }
    }

    #[tactic(auto, unfolding(crate::specs::Give::give_of, crate::specs::Give::nothing_asked, crate::specs::Give::asks_for, crate::specs::Give::owed, crate::specs::Give::received, crate::specs::Give::giving_told, promise::specs::Rules::or_refuse))]
    fn give_inband(self, bytes: &[u8]) -> UsbGiven
        ensures { (lent : List ℕ) → GiveMeets result lent lent (give_of Asked.Inband self bytes.now (length lent)) }
    {
        if (self.command.transfer_length as usize).min(INBAND) < bytes.len() {
            return self.gives(Err(GivingError::TooMany));
        }
        let mut data = self.data;
        data[..bytes.len()].copy_from_slice(bytes);
        self.with_inband(data).gives(Ok(()))
    }

    #[tactic(auto, unfolding(crate::specs::Give::give_of, crate::specs::Give::nothing_asked, crate::specs::Give::asks_for, crate::specs::Give::owed, crate::specs::Give::received, crate::specs::Give::giving_told, promise::specs::Rules::or_refuse))]
    fn give_sectors(self, bytes: &[u8], data: &mut [u8]) -> UsbGiven
        ensures { GiveMeets result «data».old «data».new (give_of Asked.Sectors self bytes.now (length «data».old)) }
    {
        let length = self.command.transfer_length as usize;
        if length < bytes.len() {
            return self.gives(Err(GivingError::TooMany));
        }
        if data.len() < length {
            return self.gives(Err(GivingError::DataDiffers));
        }
        data[..bytes.len()].copy_from_slice(bytes);
        let next = self.next;
        self.turned_to(next, Asked::Nothing).gives(Ok(()))
    }

    #[tactic(auto, unfolding(crate::specs::Give::give_of, crate::specs::Give::nothing_asked, crate::specs::Give::asks_for, crate::specs::Give::owed, crate::specs::Give::received, crate::specs::Give::giving_told, promise::specs::Rules::or_refuse))]
    fn give_status(self, bytes: &[u8]) -> UsbGiven
        ensures { (lent : List ℕ) → GiveMeets result lent lent (give_of Asked.Status self bytes.now (length lent)) }
    {
        if STATUS < bytes.len() {
            return self.gives(Err(GivingError::TooMany));
        }
        let mut command_bytes = self.command_bytes;
        command_bytes[..bytes.len()].copy_from_slice(bytes);
        self.with_status(command_bytes).gives(Ok(()))
    }

    // Received bytes, for the read that the last step asked for. A sector read's go into the caller's data.
    #[tactic(auto, unfolding(crate::specs::Give::give_of, crate::specs::Give::nothing_asked, crate::specs::Give::asks_for, crate::specs::Give::owed, crate::specs::Give::received, crate::specs::Give::giving_told, promise::specs::Rules::or_refuse))]
    pub fn give(self, bytes: &[u8], data: &mut [u8]) -> UsbGiven
        ensures { GiveMeets result «data».old «data».new (usb_give self bytes.now (length «data».old)) }
    {
        // Stays a `match`, as that of `step`.
        match self.asked {
            Asked::Nothing => self.gives(Err(GivingError::NotAsked)),
            Asked::Inband => self.give_inband(bytes),
            Asked::Sectors => self.give_sectors(bytes, data),
            Asked::Status => self.give_status(bytes),
        }
    }
}
