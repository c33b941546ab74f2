// The number that the rules have for an answer, and the refusals that answers of several kinds share.

#![tactic(auto)]

ghost use Rattle.std.specs.Prelude.{◌≡◌, ℕ};
ghost use Rattle.rule_number.specs.Number.{number_of, output_too_short_number, out_of_steps_number};

// What has a number in the rules.
pub trait RuleNumber {
    ghost rule_number: { Self → ℕ };

    fn number(self) -> u8
        ensures { result ≡ rule_number self };
}

// 0 for what is given, and a refusal's own.
impl<T: Drop, E: RuleNumber> RuleNumber for Result<T, E> {
    ghost rule_number = { number_of E.rule_number };

    fn number(self) -> u8 {
        match self {
            Ok(_) => 0,
            Err(error) => error.number(),
        }
    }
}

// 20: the output is too short.
#[derive(Clone, Copy, Debug, PartialEq, Eq)]
pub struct OutputTooShort;

impl RuleNumber for OutputTooShort {
    ghost rule_number = { output_too_short_number };

    fn number(self) -> u8 {
        20
    }
}

// 28: the budget was used before a finish or a refusal.
#[derive(Clone, Copy, Debug, PartialEq, Eq)]
pub struct OutOfSteps;

impl RuleNumber for OutOfSteps {
    ghost rule_number = { out_of_steps_number };

    fn number(self) -> u8 {
        28
    }
}
