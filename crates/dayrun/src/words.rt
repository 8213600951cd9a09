// The words by which a record is answered.
use day::records::{Call, Change, PartyName, Setting, SlotName, SourceName};
use sharing::choice::RuleChoice;

#[derive(Clone, Copy)]
pub enum Words<'t> {
    None,
    Rule(RuleChoice),
    Resource(u32),
    Settlement(SlotName, SourceName, RuleChoice),
    Slot(SlotName),
    Party(PartyName<'t>),
    Entry(SlotName, PartyName<'t>),
    Source(SourceName),
}

impl<'t> Words<'t> {
    // The source that is settled.
    pub fn source(self) -> Option<SourceName> {
        match self {
            Words::Settlement(_, source, _) => Some(source),
            _ => None,
        }
    }

    // The words of a change.
    pub fn of_change(change: &Change) -> Words<'t> {
        match change {
            Change::Site(rule) => Words::Rule(*rule),
            Change::Setting(
                Setting::Deny(resource)
                | Setting::Undeny(resource)
                | Setting::Adjust(resource, _)
                | Setting::Unadjust(resource),
            ) => Words::Resource(*resource),
            _ => Words::None,
        }
    }

    // The words of a call.
    pub fn of_call(call: &Call<'t>) -> Words<'t> {
        match call {
            Call::Settle(settlement) | Call::Restate(settlement) => {
                Words::Settlement(settlement.slot, settlement.source, settlement.rule)
            }
            Call::Void(slot) => Words::Slot(*slot),
            Call::Balance(party) => Words::Party(*party),
            Call::Entry(slot, party) => Words::Entry(*slot, *party),
            Call::Energy(source) => Words::Source(*source),
        }
    }
}
