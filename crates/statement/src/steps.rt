// The steps from a row to its amount, told so that a bookkeeper can follow them.
use charges::listed::{Listed, ListedRow};
use charges::reader::Reader;
use curves::curve::Curve;
use curves::points::{Point, SubmittedCurve};
use daybook::tables::Layers;
use emergency::payment::Payment;
use emergency::row::EmergencyRow;
use losses::loss::Loss;
use losses::reader::LossReader;
use losses::row::{Kind, LossRow};
use quarters::quarter::QuarterHour;
use readers::emergency_rows::EmergencyReader;
use std::alloc::AllocError;
use text::answers::Answers;

fn tell_points(out: &mut Answers, points: &[Point]) -> Result<(), AllocError> {
    for Point { power, price } in points {
        write!(out, "{power} kW at {price}; ")?;
    }
    Ok(())
}

// The curve as it was submitted, and as it was completed.
fn tell_curve(
    out: &mut Answers,
    submitted: &SubmittedCurve,
    curve: &Curve,
) -> Result<(), AllocError> {
    write!(out, "      curve submitted: ")?;
    tell_points(out, submitted.listed())?;
    writeln!(out, "LSL {} kW, HSL {} kW", submitted.lsl, submitted.hsl)?;
    write!(out, "      curve completed: ")?;
    tell_points(out, curve.points())?;
    writeln!(out, "prices in cents per MWh")
}

// Each slice with its base point: its reading, and its price under the cap.
fn tell_slices(
    out: &mut Answers,
    curve: &Curve,
    quarter: &QuarterHour,
    row: &EmergencyRow,
) -> Result<(), AllocError> {
    let cap = row.cap;
    for (slice, (seconds, base)) in (1u64..).zip(quarter.slices().iter().zip(&row.bases)) {
        writeln!(
            out,
            "      slice {slice}: {seconds} s at {base} kW: the curve reads {}, priced at {} under the cap of {cap}",
            curve.reading(*base),
            curve.price_at(*base, cap)
        )?;
    }
    Ok(())
}

// The weighted prices, the energies and the amount.
fn tell_payment(
    out: &mut Answers,
    payment: &Payment,
    row: &EmergencyRow,
) -> Result<(), AllocError> {
    let Payment {
        discharging,
        charging,
        amount,
        ..
    } = payment;
    writeln!(
        out,
        "      W = {} cents per MWh, E = {} kWh, at most the {} generated",
        discharging.price, discharging.energy, row.generation
    )?;
    writeln!(
        out,
        "      V = {} cents per MWh, D = {} kWh, at least the {} charged",
        charging.price, charging.energy, row.charging
    )?;
    writeln!(
        out,
        "      amount {amount} = nearest of min(0, {} x ({} + {}) - {} x {} - {} x {}) / 1000",
        row.spp,
        discharging.energy,
        charging.energy,
        discharging.price,
        discharging.energy,
        charging.price,
        charging.energy
    )
}

// A reader that can tell the steps from a row to its amount.
pub trait Steps<R>: Reader<R> {
    fn tell(&self, out: &mut Answers, row: &R) -> Result<(), AllocError>;
}

impl Steps<EmergencyRow> for EmergencyReader<'_> {
    fn tell(&self, out: &mut Answers, row: &EmergencyRow) -> Result<(), AllocError> {
        let submitted = self.submitted(row.resource, row.hour);
        let curve = self.curve(row.resource, row.hour);
        if let (Some(submitted), Some(curve), Ok(payment)) = (submitted, curve, self.payment(row)) {
            tell_curve(out, submitted, &curve)?;
            tell_slices(out, &curve, &self.quarter, row)?;
            tell_payment(out, &payment, row)?;
        }
        Ok(())
    }
}

impl Steps<ListedRow> for Listed {
    fn tell(&self, out: &mut Answers, row: &ListedRow) -> Result<(), AllocError> {
        writeln!(out, "      amount {} as listed", row.amount)
    }
}

impl Steps<LossRow> for LossReader {
    fn tell(&self, out: &mut Answers, row: &LossRow) -> Result<(), AllocError> {
        match row.loss() {
            Ok(loss) => tell_loss(out, &loss, row),
            Err(_) => Ok(()),
        }
    }
}

// How the marginal cost and the quantity come about.
fn tell_kind(out: &mut Answers, kind: &Kind, generation: u32) -> Result<(), AllocError> {
    match kind {
        Kind::Verified {
            heat_rate,
            fuel_price,
            own_cost,
            burned,
        } => {
            writeln!(
                out,
                "      verified: cost = nearest of {heat_rate} x {fuel_price} / 1000 + {own_cost} of its own O&M"
            )?;
            tell_fuelled(out, *heat_rate, *burned, generation)
        }
        Kind::Proxy {
            heat_rate,
            fuel_price,
            category,
            burned,
        } => {
            writeln!(
                out,
                "      proxy: cost = nearest of {heat_rate} x {fuel_price} / 1000 + the O&M of category {category}"
            )?;
            tell_fuelled(out, *heat_rate, *burned, generation)
        }
        Kind::Storage {
            charging_cost,
            category,
        } => {
            writeln!(
                out,
                "      storage: cost = {charging_cost} of charging + the O&M of category {category}"
            )?;
            writeln!(out, "      Q = the {generation} kWh generated")
        }
    }
}

fn tell_fuelled(
    out: &mut Answers,
    heat_rate: u32,
    burned: u32,
    generation: u32,
) -> Result<(), AllocError> {
    writeln!(
        out,
        "      Q = the lesser of the {generation} kWh generated and nearest of 1000 x {burned} / {heat_rate}"
    )
}

fn yes_or_no(mark: bool) -> &'static str {
    if mark { "yes" } else { "no" }
}

// The cost, the quantity and the amount of a loss.
fn tell_loss(out: &mut Answers, loss: &Loss, row: &LossRow) -> Result<(), AllocError> {
    let Loss {
        cost,
        quantity,
        amount,
        ..
    } = loss;
    let LossRow {
        spp,
        cap,
        generation,
        ..
    } = row;
    tell_kind(out, &row.kind, *generation)?;
    writeln!(out, "      cost {cost} cents per MWh, Q {quantity} kWh")?;
    writeln!(
        out,
        "      SPP {spp} and cap {cap}; offer at the cap: {}; base point above LSL: {}",
        yes_or_no(row.offer_at_cap),
        yes_or_no(row.above_lsl)
    )?;
    if row.qualifies() {
        writeln!(
            out,
            "      amount {amount} = -nearest of max(0, ({cost} - max({cap}, {spp})) x {quantity}) / 1000"
        )
    } else {
        writeln!(
            out,
            "      amount 0, since SPP is below the cap or a mark is not set"
        )
    }
}

// What the layers make of a line's amount, where they change it.
pub fn tell_layers(
    out: &mut Answers,
    layers: &Layers,
    resource: u16,
    before: i64,
    after: i64,
) -> Result<(), AllocError> {
    if before == after {
        return Ok(());
    }
    let figure = layers.adjustment.figure(resource);
    if figure != 0 {
        writeln!(
            out,
            "      adjusted by a figure of {figure}, which is subtracted"
        )?;
    }
    if layers.denial.denies(resource) {
        writeln!(out, "      the resource is denied")?;
    }
    if layers.is_closed() {
        writeln!(out, "      the period is closed")?;
    }
    writeln!(out, "      under the layers: {after}")
}
