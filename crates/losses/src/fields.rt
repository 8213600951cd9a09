// Whether a row's fields are in their limits.
ghost use Rattle.losses.specs.Fields.{first_fields, fields_of_kind, outside_in, bad_field, Checked};

use crate::limits::{
    LAST_CATEGORY, LEAST_HEAT_RATE, LEAST_PRICE, MOST_BURNED, MOST_CAP, MOST_CHARGING_COST,
    MOST_FUEL_PRICE, MOST_GENERATION, MOST_HEAT_RATE, MOST_OWN_COST, MOST_PRICE,
};
use crate::row::{Field, Kind, LossRow};
use charges::limits::LAST_RESOURCE;

impl Kind {
    // That each field that only this kind uses is in its limits, or the first one that is not.
    // Kept: the checks of a kind stand together, so those of a field that two kinds use stand twice.
    fn check_fields(&self) -> Result<(), Field>
        ensures { Checked (outside_in (fields_of_kind self.now)) result }
    {
        match *self {
            Kind::Verified {
                heat_rate,
                fuel_price,
                own_cost,
                burned,
            } => {
                if !(LEAST_HEAT_RATE..=MOST_HEAT_RATE).contains(&heat_rate) {
                    return Err(Field::HeatRate);
                }
                if !(0..=MOST_FUEL_PRICE).contains(&fuel_price) {
                    return Err(Field::FuelPrice);
                }
                if !(0..=MOST_OWN_COST).contains(&own_cost) {
                    return Err(Field::OwnCost);
                }
                if burned > MOST_BURNED {
                    return Err(Field::FuelBurned);
                }
            }
            Kind::Proxy {
                heat_rate,
                fuel_price,
                category,
                burned,
            } => {
                if !(LEAST_HEAT_RATE..=MOST_HEAT_RATE).contains(&heat_rate) {
                    return Err(Field::HeatRate);
                }
                if !(0..=MOST_FUEL_PRICE).contains(&fuel_price) {
                    return Err(Field::FuelPrice);
                }
                if !(1..=LAST_CATEGORY).contains(&category) {
                    return Err(Field::Category);
                }
                if burned > MOST_BURNED {
                    return Err(Field::FuelBurned);
                }
            }
            Kind::Storage {
                charging_cost,
                category,
            } => {
                if !(0..=MOST_CHARGING_COST).contains(&charging_cost) {
                    return Err(Field::ChargingCost);
                }
                if !(1..=LAST_CATEGORY).contains(&category) {
                    return Err(Field::Category);
                }
            }
        }
        Ok(())
    }
}

impl LossRow {
    // That each of the first fields, which a row of any kind uses, is in its limits, or the first one that is not.
    fn check_first_fields(&self) -> Result<(), Field>
        ensures { Checked (outside_in (first_fields self.now)) result }
    {
        if !(1..=LAST_RESOURCE).contains(&self.resource) {
            return Err(Field::Resource);
        }
        if !(LEAST_PRICE..=MOST_PRICE).contains(&self.spp) {
            return Err(Field::SettlementPointPrice);
        }
        if self.generation > MOST_GENERATION {
            return Err(Field::Generation);
        }
        Ok(())
    }

    // That each field that the row uses is in its limits, or the first one that is not.
    #[tactic(auto, using(crate::proofs::Checks::outside_in_both), unfolding(crate::specs::Fields::bad_field))]
    pub(crate) fn check_fields(&self) -> Result<(), Field>
        ensures { Checked (bad_field self.now) result }
    {
        self.check_first_fields()?;
        self.kind.check_fields()?;
        if !(0..=MOST_CAP).contains(&self.cap) {
            return Err(Field::Cap);
        }
        Ok(())
    }
}
