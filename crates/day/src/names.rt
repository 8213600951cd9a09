// The names of records.
ghost use Rattle.std.specs.Prelude.{◌≡◌};
ghost use Rattle.text.specs.declared.fields.Fault.TheVariants.{Malformed};
ghost use Rattle.day.specs.Names.{word_of, field_count, Named};

use text::fields::Fault;

// The rows come first, since most records of a day are rows.
#[derive(Clone, Copy, PartialEq, Eq, Debug)]
pub enum Name {
    Listed,
    Emergency,
    Loss,
    Unit,
    Bus,
    Entry,
    Balance,
    Settle,
    Restate,
    Void,
    Energy,
    Adders,
    Site,
    Curve,
    Quarter,
    Clear,
    Deny,
    Undeny,
    Adjust,
    Unadjust,
    Period,
    Party,
    Intervals,
}

// A word that names no record.
#[derive(Clone, Copy, PartialEq, Eq, Debug)]
pub struct UnknownName;

impl TryFrom<&[u8]> for Name {
    type Error = UnknownName;

    ghost try_from_gives = { λ word. Named word.now };

    // The record that a word names.
    fn try_from(word: &[u8]) -> Result<Name, UnknownName> {
        match word {
            b"listed" => Ok(Name::Listed),
            b"emr" => Ok(Name::Emergency),
            b"opl" => Ok(Name::Loss),
            b"unit" => Ok(Name::Unit),
            b"bus" => Ok(Name::Bus),
            b"entry" => Ok(Name::Entry),
            b"balance" => Ok(Name::Balance),
            b"settle" => Ok(Name::Settle),
            b"restate" => Ok(Name::Restate),
            b"void" => Ok(Name::Void),
            b"energy" => Ok(Name::Energy),
            b"adders" => Ok(Name::Adders),
            b"site" => Ok(Name::Site),
            b"curve" => Ok(Name::Curve),
            b"quarter" => Ok(Name::Quarter),
            b"clear" => Ok(Name::Clear),
            b"deny" => Ok(Name::Deny),
            b"undeny" => Ok(Name::Undeny),
            b"adjust" => Ok(Name::Adjust),
            b"unadjust" => Ok(Name::Unadjust),
            b"period" => Ok(Name::Period),
            b"party" => Ok(Name::Party),
            b"intervals" => Ok(Name::Intervals),
            _ => Err(UnknownName),
        }
    }
}

impl Name {
    // The word that names the record.
    pub fn word(self) -> &'static str
        ensures { result.now ≡ word_of self }
    {
        match self {
            Name::Listed => "listed",
            Name::Emergency => "emr",
            Name::Loss => "opl",
            Name::Unit => "unit",
            Name::Bus => "bus",
            Name::Entry => "entry",
            Name::Balance => "balance",
            Name::Settle => "settle",
            Name::Restate => "restate",
            Name::Void => "void",
            Name::Energy => "energy",
            Name::Adders => "adders",
            Name::Site => "site",
            Name::Curve => "curve",
            Name::Quarter => "quarter",
            Name::Clear => "clear",
            Name::Deny => "deny",
            Name::Undeny => "undeny",
            Name::Adjust => "adjust",
            Name::Unadjust => "unadjust",
            Name::Period => "period",
            Name::Party => "party",
            Name::Intervals => "intervals",
        }
    }

    // How many fields follow the name.
    pub fn field_count(self) -> usize
        ensures { result ≡ field_count self }
    {
        match self {
            Name::Listed => 3,
            Name::Emergency => 8,
            Name::Loss => 14,
            Name::Unit => 3,
            Name::Bus => 2,
            Name::Entry => 3,
            Name::Balance => 1,
            Name::Settle => 5,
            Name::Restate => 5,
            Name::Void => 2,
            Name::Energy => 1,
            Name::Adders => 2,
            Name::Site => 1,
            Name::Curve => 5,
            Name::Quarter => 1,
            Name::Clear => 1,
            Name::Deny => 1,
            Name::Undeny => 1,
            Name::Adjust => 2,
            Name::Unadjust => 1,
            Name::Period => 1,
            Name::Party => 1,
            Name::Intervals => 1,
        }
    }
}

// It is told as the record as a whole.
impl From<UnknownName> for Fault {
    ghost from_gives = { λ _ f. f ≡ Malformed 0 };

    fn from(_unknown: UnknownName) -> Fault {
        Fault::Malformed(0)
    }
}
