// What a refusal means, in a sentence for the reader.
use charges::fault::{Cause, Fault};
use day::records::SourceName;
use daybook::notdone::Refused;
use emergency::row::Field as EmergencyField;
use losses::row::Field as LossField;
use std::fmt;

// What the last line of a day's answers tells.
pub const TALLY_MEANING: &str =
    "records of the text; one that is refused or malformed changes nothing";

// What the balances add up to.
pub const TOTAL_MEANING: &str = "what the parties receive is what they are charged, to the cent";

// A field of a row, as it is told.
#[derive(Clone, Copy, PartialEq, Eq, Debug)]
pub enum FieldName {
    Emergency(EmergencyField),
    Loss(LossField),
    ListedResource,
    ListedAmount,
}

impl fmt::Display for FieldName {
    fn fmt<W: fmt::Write>(&self, f: &mut fmt::Formatter<W>) -> fmt::Result {
        match self {
            FieldName::Emergency(field) => write!(f, "{field}"),
            FieldName::Loss(field) => write!(f, "{field}"),
            FieldName::ListedResource => f.write_str("the resource"),
            FieldName::ListedAmount => f.write_str("the amount"),
        }
    }
}

// The field that a fault tells of a row of that source.
pub fn field_name(refused: Refused, source: Option<SourceName>) -> Option<FieldName> {
    let field = refused.fault?.field;
    match source? {
        SourceName::Emergency => EmergencyField::numbered(field).map(FieldName::Emergency),
        SourceName::Loss => LossField::numbered(field).map(FieldName::Loss),
        SourceName::Listed => match field {
            1 => Some(FieldName::ListedResource),
            2 => Some(FieldName::ListedAmount),
            _ => None,
        },
    }
}

fn fault_meaning(fault: Fault) -> &'static str {
    match fault.cause {
        Cause::NoCurve => {
            "that line's resource has no offer curve in that hour, or one that its checks refuse"
        }
        Cause::FieldOutside => "that field of that row is outside its limits",
        Cause::NoLine => "the source has no such line",
        Cause::AmountBeyond => "the amount of that line is beyond what a line may hold",
        Cause::AdjustedBeyond =>
            "the amount of that line, adjusted, is beyond what a line may hold",
        Cause::Own(_) => "the source tells a fault of its own",
    }
}

// What it means that a record is refused.
pub fn meaning(refused: Refused) -> &'static str {
    if let Some(fault) = refused.fault {
        return fault_meaning(fault);
    }
    match refused.number {
        11 => "a party's code, or a curve's resource or hour, is ill-formed",
        12 => "a party's code, or a curve's resource and hour, is not above the one before",
        13 => "there are no parties, or too many parties or curves",
        25 => "these slices are no quarter hour of 1 to 15 slices that last 900 seconds together",
        31 => "there is no such charge type or interval",
        32 => "there is not one load for each party, or the load told is outside its limits",
        33 => "the slot stands already, or it does not stand",
        34 => "a source has at most 256 lines",
        36 =>
            "that line's party is none of the book's, or its resource is not above the line before",
        37 => "the amounts add up to more than a settlement may hold",
        38 => "there is an amount to charge and no load to charge it by",
        39 => "there is no such party",
        45 => "the layer holds as many resources as it can",
        46 => "the resource or the figure is outside its limits",
        51 => "a site has 1 to 8 buses and 1 to 8 units",
        52 =>
            "an energy, a price, an adder, a reading or a resource of the site is outside its limits",
        53 => "the readings of the site's units add up to nothing",
        61 => "a book has 1 to 64 parties and 1 to 100 intervals",
        _ => "it is refused",
    }
}

// What it means that a record is malformed at a field.
pub fn malformed_meaning(field: u32) -> &'static str {
    if field == 0 {
        "there is no such record, it has a wrong number of fields, or it comes after the first call"
    } else {
        "that field cannot be read; nothing is changed"
    }
}
