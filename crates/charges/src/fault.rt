// What is wrong with a line.
ghost use Rattle.std.specs.Prelude.{◌≡◌};
ghost use Rattle.charges.specs.Faults.{cause_of, kind_of, fault_of};
ghost use Rattle.charges.specs.declared.fault.Cause.TheVariants as causes;
ghost use Rattle.charges.specs.declared.fault.Layer.TheVariants as layers;

// Why a line has no entry.
#[derive(Clone, Copy, PartialEq, Eq, Debug)]
pub enum Cause {
    // there is no usable curve for the resource
    NoCurve,
    // a field is outside its limits
    FieldOutside,
    // the source has no such line
    NoLine,
    // the amount is beyond what a line may hold
    AmountBeyond,
    // the amount is so once it is adjusted
    AdjustedBeyond,
    // a cause of an outside firm's own, by its number
    Own(u8),
}

impl Cause {
    // The cause's number.
    pub fn number(&self) -> u8
        ensures { result ≡ cause_of self.now }
    {
        match self {
            Cause::NoCurve => 40,
            Cause::FieldOutside => 41,
            Cause::NoLine => 42,
            Cause::AmountBeyond => 43,
            Cause::AdjustedBeyond => 44,
            Cause::Own(number) => *number,
        }
    }
}

// Where a fault arose: in the source itself, or in a layer over it.
#[derive(Clone, Copy, PartialEq, Eq, Debug)]
pub enum Layer {
    Source,
    Period,
    Denial,
    Adjustment,
}

impl Layer {
    // The kind's number.
    pub fn kind(&self) -> u8
        ensures { result ≡ kind_of self.now }
    {
        match self {
            Layer::Source => 0,
            Layer::Period => 1,
            Layer::Denial => 2,
            Layer::Adjustment => 3,
        }
    }
}

// A fault tells its cause and where it arose.
#[derive(Clone, Copy, PartialEq, Eq, Debug)]
pub struct Fault {
    pub cause: Cause,
    pub line: usize,
    // the field at fault, 0 if it is none
    // Kept: faults are told by numbers, and a fault of no field by field 0.
    pub field: u8,
    pub layer: Layer,
}

impl Fault {
    // A fault of the source itself.
    pub fn in_source(cause: Cause, line: usize, field: u8) -> Fault
        ensures { result ≡ fault_of cause line field layers.Source }
    {
        Fault {
            cause,
            line,
            field,
            layer: Layer::Source,
        }
    }

    // The source has no such line.
    pub fn no_line(line: usize) -> Fault
        ensures { result ≡ fault_of causes.NoLine line 0 layers.Source }
    {
        Fault::in_source(Cause::NoLine, line, 0)
    }
}
