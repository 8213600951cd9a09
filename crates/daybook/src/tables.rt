// The tables of rows, the parts of the next site, and the layers.
ghost use Rattle.std.specs.Prelude.{◌≡◌, ◌++◌, length, IfOk, OnOk, OnErr};
ghost use Rattle.charges.specs.Refusals.{number_of, place_of};
ghost use Rattle.day.specs.declared.records.Change.TheVariants as changes;
ghost use Rattle.daybook.specs.Changes.{Makes, Leaves, AnsweredBy, SettingMade, parts_amount, parts_rows, Under, Same, SameQuarter, SameEmergency, SameLosses, SameListed, SameLayers, Dropped};
ghost use Rattle.daybook.specs.Verdicts.{setting_checks, site_checks, change_checks, Grows, Judged};
ghost use Rattle.numbers.specs.Checks.{Answered, Unambiguous};
ghost use Rattle.quarters.specs.Quarters.{slices_of};

use crate::answer::Answer;
use crate::notdone::NotDone;
use charges::adjustment::Adjustment;
use charges::denial::Denial;
use charges::interface::LineSource;
use charges::listed::ListedRow;
use charges::nolines::NoLines;
use charges::period::{Period, State};
use charges::setting::SettingRefusal;
use day::held::Held;
use day::reading::Scene;
use day::records::{Change, Setting, SourceName};
use day::roll::Roll;
use emergency::row::EmergencyRow;
use losses::row::LossRow;
use quarters::quarter::QuarterHour;
use sharing::choice::RuleChoice;
use sites::limits::MOST_UNITS;
use sites::site::{Adders, Bus, Site, SiteUnit};
use std::alloc::{AllocError, Global};

// The settings of the layers.
#[derive(Drop)]
pub struct Layers {
    pub state: State,
    pub denial: Denial<NoLines>,
    pub adjustment: Adjustment<NoLines>,
}

impl Layers {
    fn new() -> Layers {
        Layers {
            state: State::Open,
            denial: Denial::over(NoLines),
            adjustment: Adjustment::over(NoLines),
        }
    }

    // The layers over a source: adjustment first, denial over it, period on top.
    pub fn over<S: LineSource>(&self, source: S) -> Period<Denial<Adjustment<S>>>
        ensures state { result.state ≡ self.now.state }
        ensures denial { result.below.table ≡ self.now.denial.table }
        ensures adjustment { result.below.below.table ≡ self.now.adjustment.table }
        ensures source { result.below.below.below ≡ source }
    {
        let adjusted = self.adjustment.onto(source);
        Period::over(self.denial.onto(adjusted), self.state)
    }

    // Whether the period is closed.
    pub fn is_closed(&self) -> bool {
        self.state == State::Closed
    }

    // Changes a setting.
    fn set(&mut self, setting: Setting) -> Result<(), SettingRefusal>
        ensures made { OnOk result (SettingMade setting self.old self.new) }
        ensures unchanged { OnErr result (self.new ≡ self.old) }
        ensures verdict { Answered (setting_checks setting self.old) number_of place_of (λ _. Unit {0}) result }
    {
        match setting {
            Setting::Deny(resource) => return self.denial.deny(u16::held(resource)),
            Setting::Undeny(resource) => self.denial.undeny(u16::held(resource)),
            Setting::Adjust(resource, figure) => {
                return self.adjustment.set(u16::held(resource), figure);
            }
            Setting::Unadjust(resource) => self.adjustment.remove(u16::held(resource)),
        }
        Ok(())
    }
}

// The parts of the next site. Its buses and adders stand under the same slices.
#[derive(Drop)]
pub struct Parts {
    // the slices, once there is a bus or there are adders
    quarter: Option<QuarterHour>,
    buses: Vec<Bus>,
    adders: Adders,
    units: Vec<SiteUnit>,
}

// No adders are adders of 0.
const NO_ADDERS: Adders = Adders {
    first: [0; 15],
    second: [0; 15],
};

impl Parts {
    fn new(heap: Global) -> Parts {
        Parts {
            quarter: None,
            buses: Vec::new(heap),
            adders: NO_ADDERS,
            units: Vec::new(heap),
        }
    }

    fn clear(&mut self)
        ensures { Dropped self.new }
    {
        self.quarter = None;
        self.buses.clear();
        self.adders = NO_ADDERS;
        self.units.clear();
    }
}

// A site that was settled: its amount, and how many rows it gave.
#[derive(Clone, Copy, PartialEq, Eq, Debug)]
pub struct SettledSite {
    pub amount: i64,
    pub rows: usize,
}

#[derive(Drop)]
pub struct Tables {
    // the slices in force
    pub quarter: QuarterHour,
    // the emergency rows, and the slices that they stand under
    pub emergency: Vec<EmergencyRow>,
    pub emergency_quarter: QuarterHour,
    pub losses: Vec<LossRow>,
    pub listed: Vec<ListedRow>,
    pub parts: Parts,
    pub layers: Layers,
}

impl Tables {
    pub fn new(heap: Global) -> Tables {
        Tables {
            quarter: QuarterHour::undivided(),
            emergency: Vec::new(heap),
            emergency_quarter: QuarterHour::undivided(),
            losses: Vec::new(heap),
            listed: Vec::new(heap),
            parts: Parts::new(heap),
            layers: Layers::new(),
        }
    }

    // What the next record is read under.
    pub fn scene<'d>(&'d self, parties: &'d Roll, gathering: bool) -> Scene<'d>
        ensures under { Under self.now result }
        ensures parties { result.parties.now ≡ parties.now }
        ensures gathering { result.gathering ≡ gathering }
    {
        Scene {
            parties,
            slices: self.quarter.slices(),
            of_rows: if self.emergency.is_empty() {
                None
            } else {
                Some(self.emergency_quarter.slices())
            },
            of_parts: match &self.parts.quarter {
                Some(quarter) => Some(quarter.slices()),
                None => None,
            },
            gathering,
        }
    }

    // Adds an emergency row, which stands under the slices in force.
    fn add_emergency(&mut self, row: EmergencyRow) -> Result<(), AllocError>
        ensures made { OnOk result (Makes (changes.Emergency row) self.old self.new) }
        ensures left { OnErr result (Same self.old self.new) }
    {
        self.emergency.push(row)?;
        self.emergency_quarter = self.quarter;
        Ok(())
    }

    fn clear(&mut self, source: SourceName)
        ensures { Makes (changes.Clear source) self.old self.new }
    {
        match source {
            SourceName::Emergency => self.emergency.clear(),
            SourceName::Loss => self.losses.clear(),
            SourceName::Listed => self.listed.clear(),
        }
    }

    // Adds a bus of the next site.
    fn add_bus(&mut self, bus: Bus) -> Result<(), AllocError>
        ensures made { OnOk result (Makes (changes.Bus bus) self.old self.new) }
        ensures left { OnErr result (Same self.old self.new) }
    {
        self.parts.buses.push(bus)?;
        self.parts.quarter = Some(self.quarter);
        Ok(())
    }

    // Sets the adders of the next site, in place of any before.
    fn set_adders(&mut self, adders: Adders)
        ensures { Makes (changes.Adders adders) self.old self.new }
    {
        self.parts.adders = adders;
        self.parts.quarter = Some(self.quarter);
    }

    // Settles the parts of a site into rows behind the listed ones.
    #[tactic(auto, using(crate::proofs::SiteRows::front))]
    fn list_site(&mut self, rule: RuleChoice) -> Result<SettledSite, NotDone>
        ensures others { SameQuarter self.old self.new × SameEmergency self.old self.new × SameLosses self.old self.new × SameLayers self.old self.new }
        ensures listed { OnOk result (self.new.listed.items ≡ self.old.listed.items ++ parts_rows rule self.old.quarter self.old.parts) }
        ensures told { IfOk result (λ site. (site.amount ≡ parts_amount self.old.quarter self.old.parts) × (site.rows ≡ length self.old.parts.units.items)) }
        ensures unchanged { OnErr result (SameListed self.old self.new) }
        ensures verdict { Judged (site_checks self.old.quarter self.old.parts) (Unit {0}) result }
    {
        let nothing = ListedRow {
            resource: 0,
            party: 0,
            amount: 0,
        };
        let mut rows = [nothing; MOST_UNITS];
        let quarter = self.parts.quarter.unwrap_or(self.quarter);
        let site = Site {
            quarter: &quarter,
            buses: self.parts.buses.as_slice(),
            adders: &self.parts.adders,
            units: self.parts.units.as_slice(),
        };
        let amount = site.settle(&rule, &mut rows)?;
        let count = site.units.len().min(MOST_UNITS);
        self.listed.extend_from_slice(&rows[..count])?;
        Ok(SettledSite {
            amount,
            rows: count,
        })
    }

    // Settles the parts of a site, which are dropped, refused or not.
    fn settle_site(&mut self, rule: RuleChoice) -> Result<SettledSite, NotDone>
        ensures others { SameQuarter self.old self.new × SameEmergency self.old self.new × SameLosses self.old self.new × SameLayers self.old self.new }
        ensures listed { OnOk result (self.new.listed.items ≡ self.old.listed.items ++ parts_rows rule self.old.quarter self.old.parts) }
        ensures told { IfOk result (λ site. (site.amount ≡ parts_amount self.old.quarter self.old.parts) × (site.rows ≡ length self.old.parts.units.items)) }
        ensures unchanged { OnErr result (SameListed self.old self.new) }
        ensures dropped { Dropped self.new.parts }
        ensures verdict { Judged (site_checks self.old.quarter self.old.parts) (Unit {0}) result }
    {
        let settled = self.list_site(rule);
        self.parts.clear();
        settled
    }

    // Makes a change.
    #[tactic(auto, using(numbers::proofs::Checks::one_answer))]
    pub fn make(&mut self, change: Change) -> Result<Answer, NotDone>
        ensures made { OnOk result (Makes change self.old self.new) }
        ensures answer { IfOk result (AnsweredBy change self.old) }
        ensures left { OnErr result (Leaves change self.old self.new) }
        ensures verdict { Judged (change_checks change self.old) (Grows change) result }
        ensures once { Unambiguous (change_checks change self.old) }
    {
        match change {
            Change::Quarter(seconds) => self.quarter = QuarterHour::of(seconds.as_slice())?,
            Change::Emergency(row) => self.add_emergency(row)?,
            Change::Loss(row) => self.losses.push(row)?,
            Change::Listed(row) => self.listed.push(row)?,
            Change::Clear(source) => self.clear(source),
            Change::Bus(bus) => self.add_bus(bus)?,
            Change::Adders(adders) => self.set_adders(adders),
            Change::Unit(unit) => self.parts.units.push(unit)?,
            Change::Period(state) => self.layers.state = state,
            Change::Site(rule) => return Ok(Answer::Site(self.settle_site(rule)?)),
            Change::Setting(setting) => {
                self.layers.set(setting)?;
                return Ok(Answer::Done);
            }
        }
        Ok(Answer::Silent)
    }
}
