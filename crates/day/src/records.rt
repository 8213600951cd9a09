// The records of a day, as read.
use charges::listed::ListedRow;
use charges::period::State;
use curves::points::SubmittedCurve;
use emergency::row::EmergencyRow;
use losses::row::LossRow;
use sharing::choice::RuleChoice;
use sites::site::{Adders, Bus, SiteUnit};
use std::fmt;

// A table of rows, which is a charge source.
#[derive(Clone, Copy, PartialEq, Eq, Debug)]
pub enum SourceName {
    Emergency,
    Loss,
    Listed,
}

impl fmt::Display for SourceName {
    fn fmt<W: fmt::Write>(&self, f: &mut fmt::Formatter<W>) -> fmt::Result {
        f.write_str(match self {
            SourceName::Emergency => "emr",
            SourceName::Loss => "opl",
            SourceName::Listed => "listed",
        })
    }
}

// A slot of the book by its two numbers, which need not name one.
#[derive(Clone, Copy, PartialEq, Eq, Debug)]
pub struct SlotName {
    pub charge_type: u32,
    pub interval: u32,
}

impl SlotName {
    // The name of the charge type, if it is one.
    pub fn type_name(self) -> Option<&'static str> {
        match self.charge_type {
            1 => Some("EMR"),
            2 => Some("OPL"),
            3 => Some("SOG"),
            _ => None,
        }
    }
}

// The type by its name, or as # and its number; then the interval.
impl fmt::Display for SlotName {
    fn fmt<W: fmt::Write>(&self, f: &mut fmt::Formatter<W>) -> fmt::Result {
        match self.type_name() {
            Some(name) => write!(f, "{name} {}", self.interval),
            None => write!(f, "#{} {}", self.charge_type, self.interval),
        }
    }
}

// A party as it was written, and its number, which need not be one's.
#[derive(Clone, Copy)]
pub struct PartyName<'t> {
    pub written: &'t [u8],
    pub number: u32,
}

// What a settlement is made from.
#[derive(Drop)]
pub struct Settlement {
    pub slot: SlotName,
    pub source: SourceName,
    pub rule: RuleChoice,
    pub loads: Vec<u32>,
}

// A change of a layer's settings.
#[derive(Clone, Copy, PartialEq, Eq, Debug)]
pub enum Setting {
    Deny(u32),
    Undeny(u32),
    Adjust(u32, i64),
    Unadjust(u32),
}

// What is gathered before the first call.
#[derive(Drop)]
pub enum Enrolment<'t> {
    Party(&'t [u8]),
    Intervals(u32),
    Curve(SubmittedCurve),
}

// What changes the tables of rows, the parts of the next site and the layers.
#[derive(Drop)]
pub enum Change {
    Quarter(Vec<u16>),
    Emergency(EmergencyRow),
    Loss(LossRow),
    Listed(ListedRow),
    Clear(SourceName),
    Bus(Bus),
    Adders(Adders),
    Unit(SiteUnit),
    // settles the site's parts into listed rows
    Site(RuleChoice),
    Period(State),
    Setting(Setting),
}

// A call of the book, or of a source's energy.
#[derive(Drop)]
pub enum Call<'t> {
    Settle(Settlement),
    Restate(Settlement),
    Void(SlotName),
    Balance(PartyName<'t>),
    Entry(SlotName, PartyName<'t>),
    Energy(SourceName),
}

#[derive(Drop)]
pub enum Record<'t> {
    Enrolment(Enrolment<'t>),
    Change(Change),
    Call(Call<'t>),
}
