// What a block of a deck comes to: 0 with its value, or the number of a refusal.
ghost use Rattle.std.specs.Prelude.{◌≡◌};
ghost use Rattle.promise.specs.Run.{end_told};
ghost use Rattle.operation_finish.specs.declared.Beside.{Beside};
ghost use Rattle.run_upload.specs.Answers as load;
ghost use Rattle.deck.specs.Verdict.{refusal_number, by_number, load_told, verdict_told, kept};
ghost use Rattle.deck.specs.Deal.{turned_away, OperatedMeets, LoadedMeets};

use mock::device::MockState;
use operation_finish::{Beside, UsbReply};
use rule_number::RuleNumber;
use run_operation::UsbRun;
use run_upload::{LoadError, LoadRun};

// A refusal, whichever it is, by its number in the rules.
// Stays a number: a verdict holds refusals of three enums, and a line prints the number alone.
#[derive(Clone, Copy, Debug, PartialEq, Eq)]
pub struct RefusalNumber(pub u8);

impl RuleNumber for RefusalNumber {
    ghost rule_number = { refusal_number };

    fn number(self) -> u8 {
        self.0
    }
}

// The value, or the number of a refusal; `beside` has a reply's bytes, and zeros where there is none.
#[derive(Clone, Copy)]
pub struct Dealt {
    pub verdict: Result<UsbReply, RefusalNumber>,
    pub beside: Beside,
    pub device: MockState,
}

// The value of an answer, or its refusal by the number alone.
fn by_number<T: Drop, E: RuleNumber>(answer: Result<T, E>) -> Result<T, RefusalNumber>
    ensures { result ≡ by_number E.rule_number answer }
{
    answer.map_err(|error| RefusalNumber(error.number()))
}

// An upload has no value.
fn of_load(answer: Result<(), LoadError>) -> Result<UsbReply, RefusalNumber>
    ensures { (b : Beside) → verdict_told result b ≡ load_told (end_told (load.answer_end answer)) }
{
    by_number(answer)?;
    Ok(UsbReply::Nothing)
}

// A reply's bytes stay beside it; beside a refusal stand zeros.
fn kept_beside(verdict: Result<UsbReply, RefusalNumber>, beside: Beside) -> Beside
    ensures { result ≡ kept verdict beside }
{
    match verdict {
        Ok(_) => beside,
        Err(_) => Beside::blank([0, 0, 0, 0]),
    }
}

// What an operation's run comes to.
pub fn operated(ran: UsbRun) -> Dealt
    ensures { OperatedMeets result ran }
{
    let verdict = by_number(ran.answer);
    Dealt {
        verdict,
        beside: kept_beside(verdict, ran.beside),
        device: ran.device,
    }
}

// What an upload's run comes to.
pub fn loaded(ran: LoadRun) -> Dealt
    ensures { LoadedMeets result ran }
{
    Dealt {
        verdict: of_load(ran.answer),
        beside: Beside::blank([0, 0, 0, 0]),
        device: ran.device,
    }
}

// A block that asks for nothing that can be done.
pub fn turned_away(number: u8, device: MockState) -> Dealt
    ensures { result ≡ turned_away number device }
{
    Dealt {
        verdict: Err(RefusalNumber(number)),
        beside: Beside::blank([0, 0, 0, 0]),
        device,
    }
}
