// Reads one record. Nothing of the day is altered here: a record is read whole first.
ghost use Rattle.std.specs.Prelude.{◌≡◌, ◌+◌, ◌≤◌, true, [], ◌∷◌, IfOk, Some, option_copied};
ghost use Rattle.text.specs.declared.fields.Fault.TheVariants.{Malformed};
ghost use Rattle.day.specs.declared.names.Name.TheVariants as names;
ghost use Rattle.day.specs.declared.reading.Costing.TheVariants as costings;
ghost use Rattle.day.specs.Names.{field_count, gathers};
ghost use Rattle.day.specs.Texts as texts;
ghost use Rattle.day.specs.Texts.{says, held_at, made_by, point_at};
ghost use Rattle.day.specs.Records.{name_of, setting_name, call_name, after, can, cost_forms, loss_forms, costing_of, first_wrong, malformed_at, Said, SlotSaid, SettlementSaid, PartySaid, CurveSaid, EmergencySaid, CostSaid, EndSaid, LossSaid, ListedSaid, BusSaid, AddersSaid, UnitSaid, SettingSaid, CallSaid};
ghost use Rattle.day.specs.Records as layouts;
ghost use Rattle.day.specs.Steps.{Gives, Takes, Told};
ghost use Rattle.text.specs.Numbers.{number_in, number_or_zero_in};

use crate::held::Held;
use crate::names::Name;
use crate::records::{
    Call, Change, Enrolment, PartyName, Record, Setting, Settlement, SlotName, SourceName,
};
use crate::roll::Roll;
use charges::listed::ListedRow;
use charges::period::State;
use curves::points::{Point, SubmittedCurve};
use emergency::row::EmergencyRow;
use losses::row::{Kind, LossRow};
use sharing::choice::RuleChoice;
use sites::site::{Adders, Bus, SiteUnit};
use std::alloc::Global;
use std::{array, mem};
use text::fields::{Fault, Fields};
use text::numbers::{Number, number_in};

// What a record is read under.
#[derive(Clone, Copy)]
pub struct Scene<'d> {
    // the parties enrolled so far
    pub parties: &'d Roll,
    // the slices in force
    pub slices: &'d [u16],
    // the slices of the emergency rows, and of the site's parts, that are already there
    pub of_rows: Option<&'d [u16]>,
    pub of_parts: Option<&'d [u16]>,
    // whether the first call is still to come
    pub gathering: bool,
}

// The number at a place, 0 behind the last.
fn figure_at(numbers: &[i64], place: usize) -> i32
    ensures { result ≡ held_at numbers.now place }
{
    match numbers.get(place) {
        Some(number) => i32::held(*number),
        None => 0,
    }
}

// The submitted points, as far as there is room.
fn points_of(numbers: &[i64]) -> [Point; 10]
    ensures { result ≡ made_by (point_at numbers.now) 0 10 }
{
    array::from_fn(|place| Point {
        power: figure_at(numbers, 2 * place),
        price: figure_at(numbers, 2 * place + 1),
    })
}

// A figure for each slice, as far as there is room.
fn figures_of(numbers: &[i64]) -> [i32; 15]
    ensures { result ≡ made_by (held_at numbers.now) 0 15 }
{
    array::from_fn(|place| figure_at(numbers, place))
}

// Which mark a word is.
fn mark_in(text: &[u8]) -> Option<bool>
    ensures { result ≡ texts.mark text.now }
{
    match text {
        b"yes" => Some(true),
        b"no" => Some(false),
        _ => None,
    }
}

// Which table of rows a word names.
fn source_in(text: &[u8]) -> Option<SourceName>
    ensures { result ≡ texts.source text.now }
{
    match text {
        b"emr" => Some(SourceName::Emergency),
        b"opl" => Some(SourceName::Loss),
        b"listed" => Some(SourceName::Listed),
        _ => None,
    }
}

// Which rule a word names.
fn rule_in(text: &[u8]) -> Option<RuleChoice>
    ensures { result ≡ texts.rule text.now }
{
    match text {
        b"running" => Some(RuleChoice::Running),
        b"leftover" => Some(RuleChoice::Leftover),
        _ => None,
    }
}

// Which state a word names.
fn state_in(text: &[u8]) -> Option<State>
    ensures { result ≡ texts.state text.now }
{
    match text {
        b"open" => Some(State::Open),
        b"closed" => Some(State::Closed),
        _ => None,
    }
}

// The number of a charge type, by its name or as # and the number.
fn charge_type_in(text: &[u8]) -> Option<u32>
    ensures { result ≡ texts.charge_type text.now }
{
    match text {
        b"EMR" => Some(1),
        b"OPL" => Some(2),
        b"SOG" => Some(3),
        [b'#', digits @ ..] => number_in(digits),
        _ => None,
    }
}

// How the cost of a row is known.
#[derive(Clone, Copy, PartialEq, Eq, Debug)]
enum Costing {
    Verified,
    Proxy,
    Storage,
}

// What the fields of a loss row say from its cost on.
#[derive(Clone, Copy)]
struct LossEnd {
    kind: Kind,
    cap: i32,
    offer_at_cap: bool,
    above_lsl: bool,
}

// How a cost is known, by its word.
fn costing_in(text: &[u8]) -> Option<Costing>
    ensures { result ≡ texts.costing text.now }
{
    match text {
        b"verified" => Some(Costing::Verified),
        b"proxy" => Some(Costing::Proxy),
        b"storage" => Some(Costing::Storage),
        _ => None,
    }
}

// The fields behind a record's name, read one after another, with the number of the one that was read last: what is
// wrong there is told by it.
#[derive(Drop)]
struct RecordReader<'t, 'd> {
    fields: Fields<'t>,
    at: u32,
    heap: Global,
    scene: Scene<'d>,
    // the numbers of the list that was read last
    numbers: Vec<i64>,
}

impl<'t> RecordReader<'t, '_> {
    // The fault of the field that was read last.
    fn wrong(&self) -> Fault
        ensures { result ≡ Malformed self.now.at }
    {
        Fault::Malformed(self.at)
    }

    // Goes on to the next field.
    // Kept: the fields are of several types, so that no loop counts them.
    fn step(&mut self)
        ensures next { self.new.at ≡ after self.old.at }
        ensures fields { self.new.fields ≡ self.old.fields }
        ensures scene { self.new.scene ≡ self.old.scene }
    {
        self.at = self.at.saturating_add(1);
    }

    fn text(&mut self) -> Result<&'t [u8], Fault>
        ensures value { Gives texts.any (λ t. t.now) self.old self.new result }
    {
        self.step();
        self.fields.text().ok_or(self.wrong())
    }

    fn number<T: Number>(&mut self) -> Result<T, Fault>
        ensures value { Gives (number_in T.Number.kind) (λ n. n) self.old self.new result }
    {
        self.step();
        self.fields.number().ok_or(self.wrong())
    }

    // A number as the library holds it.
    fn held<T: Held>(&mut self) -> Result<T, Fault>
        ensures value { Gives (texts.held_in T.Held.held (number_in T.Reading.kind)) (λ n. n) self.old self.new result }
    {
        let reading = self.number::<T::Reading>()?;
        Ok(T::held(reading))
    }

    // A field that the row's kind does not use: it is empty, or a number that does not count.
    fn unused<T: Number>(&mut self) -> Result<(), Fault>
        ensures fields { Takes 1 (can (number_or_zero_in T.Number.kind) ∷ []) self.old self.new result }
    {
        self.step();
        self.fields.number_or_zero::<T>().ok_or(self.wrong())?;
        Ok(())
    }

    // A list of numbers, put in the place of the one before.
    fn list(&mut self) -> Result<(), Fault>
        ensures value { Gives texts.list (λ _. self.new.numbers.items) self.old self.new result }
    {
        self.step();
        self.numbers.clear();
        self.fields.list(self.at, &mut self.numbers)
    }

    // A party: by its code, which is enrolled above, or as # and the number.
    fn party(&mut self) -> Result<PartyName<'t>, Fault>
        ensures value { Gives (texts.party self.old.scene.parties.now) (λ p. p.number) self.old self.new result }
        ensures written { IfOk result (λ p. says texts.any self.old.fields.rest.now ≡ Some p.written.now) }
    {
        let written = self.text()?;
        let number = self.scene.parties.named(written);
        Ok(PartyName {
            written,
            number: number.ok_or(self.wrong())?,
        })
    }

    // A party's number as a row holds it.
    fn party_number(&mut self) -> Result<u8, Fault>
        ensures value { Gives (texts.party_byte self.old.scene.parties.now) (λ n. n) self.old self.new result }
    {
        let party = self.party()?;
        Ok(u8::held(party.number))
    }

    // The submitted points, and how many.
    // Kept: a submitted curve is a row of fixed size, whose count is told also where there is no room for the points.
    fn points(&mut self) -> Result<(usize, [Point; 10]), Fault>
        ensures value { Gives texts.points (λ p. p) self.old self.new result }
    {
        self.list()?;
        let count = self.numbers.len();
        if count % 2 != 0 {
            return Err(self.wrong());
        }
        Ok((count / 2, points_of(self.numbers.as_slice())))
    }

    // A figure for each slice in force, where these are the slices of what is already there.
    // Kept: a row of fixed size, as the row that they are read for.
    fn figures(&mut self, others: Option<&[u16]>) -> Result<[i32; 15], Fault>
        ensures value { Gives (texts.figures self.old.scene.slices.now (option_copied others.entry)) (λ xs. xs) self.old self.new result }
    {
        self.list()?;
        let agree = others.is_none_or(|others| others == self.scene.slices);
        if self.numbers.len() != self.scene.slices.len() || !agree {
            return Err(self.wrong());
        }
        Ok(figures_of(self.numbers.as_slice()))
    }

    fn mark(&mut self) -> Result<bool, Fault>
        ensures value { Gives texts.mark (λ m. m) self.old self.new result }
    {
        let text = self.text()?;
        mark_in(text).ok_or(self.wrong())
    }

    fn source(&mut self) -> Result<SourceName, Fault>
        ensures value { Gives texts.source (λ x. x) self.old self.new result }
    {
        let text = self.text()?;
        source_in(text).ok_or(self.wrong())
    }

    fn rule(&mut self) -> Result<RuleChoice, Fault>
        ensures value { Gives texts.rule (λ x. x) self.old self.new result }
    {
        let text = self.text()?;
        rule_in(text).ok_or(self.wrong())
    }

    fn state(&mut self) -> Result<State, Fault>
        ensures value { Gives texts.state (λ x. x) self.old self.new result }
    {
        let text = self.text()?;
        state_in(text).ok_or(self.wrong())
    }

    // A charge type: by its name, or as # and the number.
    fn charge_type(&mut self) -> Result<u32, Fault>
        ensures value { Gives texts.charge_type (λ x. x) self.old self.new result }
    {
        let text = self.text()?;
        charge_type_in(text).ok_or(self.wrong())
    }

    fn slot(&mut self) -> Result<SlotName, Fault>
        ensures fields { Takes 2 (can texts.charge_type ∷ can texts.natural ∷ []) self.old self.new result }
        ensures said { IfOk result (SlotSaid self.old.fields.rest.now) }
    {
        Ok(SlotName {
            charge_type: self.charge_type()?,
            interval: self.number()?,
        })
    }

    fn loads(&mut self) -> Result<Vec<u32>, Fault>
        ensures value { Gives texts.loads (λ v. v.items) self.old self.new result }
    {
        self.list()?;
        Ok(
            self.numbers
                .iter()
                .map(|number| u32::held(*number))
                .collect(self.heap)?,
        )
    }

    fn settlement(&mut self) -> Result<Settlement, Fault>
        ensures fields { Takes 5 (layouts.forms self.old.scene names.Settle self.old.fields.rest.now) self.old self.new result }
        ensures said { IfOk result (SettlementSaid self.old.fields.rest.now) }
    {
        Ok(Settlement {
            slot: self.slot()?,
            source: self.source()?,
            rule: self.rule()?,
            loads: self.loads()?,
        })
    }

    fn entry(&mut self) -> Result<Call<'t>, Fault>
        ensures fields { Takes 3 (layouts.forms self.old.scene names.Entry self.old.fields.rest.now) self.old self.new result }
        ensures said { IfOk result (CallSaid self.old.scene self.old.fields.rest.now) }
        ensures named { IfOk result (λ call. call_name call ≡ names.Entry) }
    {
        let slot = self.slot()?;
        let party = self.party()?;
        Ok(Call::Entry(slot, party))
    }

    fn curve(&mut self) -> Result<SubmittedCurve, Fault>
        ensures fields { Takes 5 (layouts.forms self.old.scene names.Curve self.old.fields.rest.now) self.old self.new result }
        ensures said { IfOk result (CurveSaid self.old.fields.rest.now) }
    {
        let resource = self.held()?;
        let hour = self.held()?;
        let lsl = self.held()?;
        let hsl = self.held()?;
        let (count, points) = self.points()?;
        Ok(SubmittedCurve {
            resource,
            hour,
            lsl,
            hsl,
            count,
            points,
        })
    }

    fn quarter(&mut self) -> Result<Vec<u16>, Fault>
        ensures value { Gives texts.seconds (λ v. v.items) self.old self.new result }
    {
        self.step();
        let mut numbers: Vec<u32> = Vec::new(self.heap);
        self.fields.list(self.at, &mut numbers)?;
        Ok(
            numbers
                .iter()
                .map(|number| u16::held(*number))
                .collect(self.heap)?,
        )
    }

    fn emergency(&mut self) -> Result<EmergencyRow, Fault>
        ensures fields { Takes 8 (layouts.forms self.old.scene names.Emergency self.old.fields.rest.now) self.old self.new result }
        ensures said { IfOk result (EmergencySaid self.old.scene self.old.fields.rest.now) }
    {
        Ok(EmergencyRow {
            party: self.party_number()?,
            resource: self.held()?,
            spp: self.held()?,
            generation: self.held()?,
            charging: self.held()?,
            bases: self.figures(self.scene.of_rows)?,
            hour: self.held()?,
            cap: self.held()?,
        })
    }

    // What a verified cost is made from: six fields.
    fn verified(&mut self) -> Result<Kind, Fault>
        ensures fields { Takes 6 (cost_forms costings.Verified) self.old self.new result }
        ensures said { IfOk result (λ kind. CostSaid self.old.fields.rest.now kind × (costing_of kind ≡ costings.Verified)) }
    {
        let heat_rate = self.held()?;
        let fuel_price = self.held()?;
        self.unused::<i64>()?;
        let own_cost = self.held()?;
        self.unused::<u32>()?;
        let burned = self.held()?;
        Ok(Kind::Verified {
            heat_rate,
            fuel_price,
            own_cost,
            burned,
        })
    }

    // What a cost by category is made from: the same six fields.
    fn proxy(&mut self) -> Result<Kind, Fault>
        ensures fields { Takes 6 (cost_forms costings.Proxy) self.old self.new result }
        ensures said { IfOk result (λ kind. CostSaid self.old.fields.rest.now kind × (costing_of kind ≡ costings.Proxy)) }
    {
        let heat_rate = self.held()?;
        let fuel_price = self.held()?;
        self.unused::<i64>()?;
        self.unused::<i64>()?;
        let category = self.held()?;
        let burned = self.held()?;
        Ok(Kind::Proxy {
            heat_rate,
            fuel_price,
            category,
            burned,
        })
    }

    // What a storage's cost is made from: the same six fields.
    fn storage(&mut self) -> Result<Kind, Fault>
        ensures fields { Takes 6 (cost_forms costings.Storage) self.old self.new result }
        ensures said { IfOk result (λ kind. CostSaid self.old.fields.rest.now kind × (costing_of kind ≡ costings.Storage)) }
    {
        self.unused::<i64>()?;
        self.unused::<i64>()?;
        let charging_cost = self.held()?;
        self.unused::<i64>()?;
        let category = self.held()?;
        self.unused::<i64>()?;
        Ok(Kind::Storage {
            charging_cost,
            category,
        })
    }

    // The word that says how the cost of a row is known.
    fn costing(&mut self) -> Result<Costing, Fault>
        ensures value { Gives texts.costing (λ x. x) self.old self.new result }
    {
        let text = self.text()?;
        costing_in(text).ok_or(self.wrong())
    }

    fn kind(&mut self, costing: Costing) -> Result<Kind, Fault>
        ensures fields { Takes 6 (cost_forms costing) self.old self.new result }
        ensures said { IfOk result (λ kind. CostSaid self.old.fields.rest.now kind × (costing_of kind ≡ costing)) }
    {
        match costing {
            Costing::Verified => self.verified(),
            Costing::Proxy => self.proxy(),
            Costing::Storage => self.storage(),
        }
    }

    // The nine fields from the cost on.
    #[tactic(auto, using(crate::proofs::Wrong::cost_told, crate::proofs::Wrong::cost_passed))]
    fn loss_end(&mut self, costing: Costing) -> Result<LossEnd, Fault>
        ensures fields { Takes 9 (loss_forms (Some costing)) self.old self.new result }
        ensures said { IfOk result (λ end. EndSaid self.old.fields.rest.now end × (costing_of end.kind ≡ costing)) }
    {
        Ok(LossEnd {
            kind: self.kind(costing)?,
            cap: self.held()?,
            offer_at_cap: self.mark()?,
            above_lsl: self.mark()?,
        })
    }

    fn loss(&mut self) -> Result<LossRow, Fault>
        ensures fields { Takes 14 (layouts.forms self.old.scene names.Loss self.old.fields.rest.now) self.old self.new result }
        ensures said { IfOk result (LossSaid self.old.scene self.old.fields.rest.now) }
    {
        let party = self.party_number()?;
        let costing = self.costing()?;
        let resource = self.held()?;
        let spp = self.held()?;
        let generation = self.held()?;
        let end = self.loss_end(costing)?;
        Ok(LossRow {
            party,
            resource,
            spp,
            generation,
            kind: end.kind,
            cap: end.cap,
            offer_at_cap: end.offer_at_cap,
            above_lsl: end.above_lsl,
        })
    }

    fn listed(&mut self) -> Result<ListedRow, Fault>
        ensures fields { Takes 3 (layouts.forms self.old.scene names.Listed self.old.fields.rest.now) self.old self.new result }
        ensures said { IfOk result (ListedSaid self.old.scene self.old.fields.rest.now) }
    {
        Ok(ListedRow {
            party: self.party_number()?,
            resource: self.held()?,
            amount: self.number()?,
        })
    }

    fn bus(&mut self) -> Result<Bus, Fault>
        ensures fields { Takes 2 (layouts.forms self.old.scene names.Bus self.old.fields.rest.now) self.old self.new result }
        ensures said { IfOk result (BusSaid self.old.scene self.old.fields.rest.now) }
    {
        Ok(Bus {
            energy: self.held()?,
            prices: self.figures(self.scene.of_parts)?,
        })
    }

    fn adders(&mut self) -> Result<Adders, Fault>
        ensures fields { Takes 2 (layouts.forms self.old.scene names.Adders self.old.fields.rest.now) self.old self.new result }
        ensures said { IfOk result (AddersSaid self.old.scene self.old.fields.rest.now) }
    {
        Ok(Adders {
            first: self.figures(self.scene.of_parts)?,
            second: self.figures(None)?,
        })
    }

    fn unit(&mut self) -> Result<SiteUnit, Fault>
        ensures fields { Takes 3 (layouts.forms self.old.scene names.Unit self.old.fields.rest.now) self.old self.new result }
        ensures said { IfOk result (UnitSaid self.old.scene self.old.fields.rest.now) }
    {
        Ok(SiteUnit {
            party: self.party_number()?,
            resource: self.held()?,
            reading: self.held()?,
        })
    }

    fn adjust(&mut self) -> Result<Setting, Fault>
        ensures fields { Takes 2 (layouts.forms self.old.scene names.Adjust self.old.fields.rest.now) self.old self.new result }
        ensures said { IfOk result (SettingSaid self.old.fields.rest.now) }
        ensures named { IfOk result (λ setting. setting_name setting ≡ names.Adjust) }
    {
        let resource = self.number()?;
        let figure = self.number()?;
        Ok(Setting::Adjust(resource, figure))
    }

    fn record(&mut self, name: Name) -> Result<Record<'t>, Fault>
        ensures named { IfOk result (λ r. name_of r ≡ name) }
        ensures fields { Takes (field_count name) (layouts.forms self.old.scene name self.old.fields.rest.now) self.old self.new result }
        ensures said { IfOk result (Said self.old.scene self.old.fields.rest.now) }
    {
        Ok(match name {
            Name::Party => Record::Enrolment(Enrolment::Party(self.text()?)),
            Name::Intervals => Record::Enrolment(Enrolment::Intervals(self.number()?)),
            Name::Curve => Record::Enrolment(Enrolment::Curve(self.curve()?)),
            Name::Quarter => Record::Change(Change::Quarter(self.quarter()?)),
            Name::Emergency => Record::Change(Change::Emergency(self.emergency()?)),
            Name::Loss => Record::Change(Change::Loss(self.loss()?)),
            Name::Listed => Record::Change(Change::Listed(self.listed()?)),
            Name::Clear => Record::Change(Change::Clear(self.source()?)),
            Name::Bus => Record::Change(Change::Bus(self.bus()?)),
            Name::Adders => Record::Change(Change::Adders(self.adders()?)),
            Name::Unit => Record::Change(Change::Unit(self.unit()?)),
            Name::Site => Record::Change(Change::Site(self.rule()?)),
            Name::Period => Record::Change(Change::Period(self.state()?)),
            Name::Deny => Record::Change(Change::Setting(Setting::Deny(self.number()?))),
            Name::Undeny => Record::Change(Change::Setting(Setting::Undeny(self.number()?))),
            Name::Adjust => Record::Change(Change::Setting(self.adjust()?)),
            Name::Unadjust => Record::Change(Change::Setting(Setting::Unadjust(self.number()?))),
            Name::Settle => Record::Call(Call::Settle(self.settlement()?)),
            Name::Restate => Record::Call(Call::Restate(self.settlement()?)),
            Name::Void => Record::Call(Call::Void(self.slot()?)),
            Name::Balance => Record::Call(Call::Balance(self.party()?)),
            Name::Entry => Record::Call(self.entry()?),
            Name::Energy => Record::Call(Call::Energy(self.source()?)),
        })
    }
}

// Whether a record of that name stands only before the first call.
fn comes_first(name: Name) -> bool
    ensures { result ≡ gathers name }
{
    matches!(name, Name::Party | Name::Intervals | Name::Curve)
}

// The record of that name in the fields that follow it. A record that comes too late, or with a wrong number of fields, is told as
// field 0, whatever else is wrong with it.
// `numbers` serves for its lists, so that no list needs memory of its own.
// Kept: the fields are counted only where one is wrong or left over, since most records are whole. The reader takes the numbers and
// gives them back, since a reader with a `&mut` beside the scene's `&` gets no proof.
pub fn read<'t>(
    heap: Global,
    name: Name,
    fields: Fields<'t>,
    scene: &Scene<'_>,
    numbers: &mut Vec<i64>,
) -> Result<Record<'t>, Fault>
    ensures told { Told (malformed_at scene.now name fields.entry.rest.now) result }
    ensures named { IfOk result (λ r. name_of r ≡ name) }
    ensures said { IfOk result (Said scene.now fields.entry.rest.now) }
{
    if comes_first(name) && !scene.gathering {
        return Err(Fault::Malformed(0));
    }
    let mut reader = RecordReader {
        fields,
        at: 0,
        heap,
        scene: *scene,
        numbers: mem::replace(numbers, Vec::new(heap)),
    };
    let read = reader.record(name);
    let whole = match read {
        Ok(_) => reader.fields.is_done(),
        Err(_) => fields.count() == name.field_count(),
    };
    *numbers = reader.numbers;
    if whole {
        read
    } else {
        Err(Fault::Malformed(0))
    }
}
