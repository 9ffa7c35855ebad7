// Why rules were not read.
use rad_base::NoMemory;

/// What is wrong with a rules file: the first that applies.
#[derive(Clone, Copy, Debug, PartialEq, Eq)]
pub enum Reason {
    /// It has more than 16,777,216 bytes.
    TooLong,
    /// It is no JSON as serde_json reads it, or its value is no object.
    NotJson,
    /// `default` is there and neither `"allow"` nor `"block"`.
    BadDefault,
    /// `scope` is there and neither `"all"` nor `"followed"`.
    BadScope,
    /// `repos` is there and no object, or one of its members has a name that is not 40 lower case
    /// hexadecimal digits, or is no object, or has a `policy` or a `scope` of another word.
    BadRepos,
    /// `follow` is there and no array of texts of 64 lower case hexadecimal digits.
    BadFollow,
}

/// Why no rules were read.
#[derive(Clone, Copy, Debug, PartialEq, Eq)]
pub enum RulesFault {
    /// The file is wrong.
    BadRules(Reason),
    /// Memory was refused.
    NoMemory,
}

impl From<NoMemory> for RulesFault {
    ghost use Rattle.std.specs.Prelude.{◌≡◌};
    ghost use Rattle.routing.specs.declared.rules_fault.RulesFault.TheVariants.{NoMemory};

    ghost from_gives = { λ _ fault. fault ≡ NoMemory };

    fn from(_: rad_base::NoMemory) -> Self {
        RulesFault::NoMemory
    }
}
