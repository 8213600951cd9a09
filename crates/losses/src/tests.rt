// The edges of each field's limits, losses at them, and rows as lines of a source.
use crate::loss::Loss;
use crate::reader::LossReader;
use crate::row::{Field, Kind, LossRow};
use charges::adjustment::Adjustment;
use charges::denial::Denial;
use charges::energy::energy;
use charges::fault::{Cause, Fault};
use charges::interface::{BasisSource, LineSource};
use charges::period::{Period, State};
use charges::rowsource::RowSource;

// A row of a kind, with both marks set.
fn row_of(kind: Kind) -> LossRow {
    LossRow {
        resource: 7,
        party: 2,
        spp: 210_000,
        generation: 25_000,
        kind,
        cap: 200_000,
        offer_at_cap: true,
        above_lsl: true,
    }
}

fn verified(heat_rate: u32, fuel_price: i32, own_cost: i32, burned: u32) -> Kind {
    Kind::Verified {
        heat_rate,
        fuel_price,
        own_cost,
        burned,
    }
}

fn proxy(heat_rate: u32, fuel_price: i32, category: u8, burned: u32) -> Kind {
    Kind::Proxy {
        heat_rate,
        fuel_price,
        category,
        burned,
    }
}

fn storage(charging_cost: i32, category: u8) -> Kind {
    Kind::Storage {
        charging_cost,
        category,
    }
}

#[test]
fn fields_of_any_row(rt: HostRuntime) {
    let row = row_of(storage(250_000, 1));
    let told = Some(Field::Resource);
    for (resource, wanted) in [(0, told), (1, None), (9_999, None), (10_000, told)] {
        assert_eq!(rt; LossRow { resource, ..row }.loss().err(), wanted);
    }
    let told = Some(Field::SettlementPointPrice);
    for (spp, wanted) in [
        (-100_001, told),
        (-100_000, None),
        (1_000_000, None),
        (1_000_001, told),
    ] {
        assert_eq!(rt; LossRow { spp, ..row }.loss().err(), wanted);
    }
    let told = Some(Field::Generation);
    for (generation, wanted) in [(0, None), (500_000, None), (500_001, told)] {
        assert_eq!(rt; LossRow { generation, ..row }.loss().err(), wanted);
    }
    let told = Some(Field::Cap);
    for (cap, wanted) in [(-1, told), (0, None), (1_000_000, None), (1_000_001, told)] {
        assert_eq!(rt; LossRow { cap, ..row }.loss().err(), wanted);
    }
}

#[test]
fn fields_of_each_kind(rt: HostRuntime) {
    for (kind, told) in [
        (verified(999, 30_000, 500, 190_000), Some(Field::HeatRate)),
        (verified(1_000, 30_000, 500, 190_000), None),
        (verified(50_000, 30_000, 500, 190_000), None),
        (
            verified(50_001, 30_000, 500, 190_000),
            Some(Field::HeatRate),
        ),
        (verified(9_500, -1, 500, 190_000), Some(Field::FuelPrice)),
        (verified(9_500, 0, 500, 190_000), None),
        (verified(9_500, 100_000, 500, 190_000), None),
        (
            verified(9_500, 100_001, 500, 190_000),
            Some(Field::FuelPrice),
        ),
        (verified(9_500, 30_000, -1, 190_000), Some(Field::OwnCost)),
        (verified(9_500, 30_000, 0, 190_000), None),
        (verified(9_500, 30_000, 10_000, 190_000), None),
        (
            verified(9_500, 30_000, 10_001, 190_000),
            Some(Field::OwnCost),
        ),
        (verified(9_500, 30_000, 500, 0), None),
        (verified(9_500, 30_000, 500, 1_000_000_000), None),
        (
            verified(9_500, 30_000, 500, 1_000_000_001),
            Some(Field::FuelBurned),
        ),
        (
            proxy(999, 100_001, 13, 1_000_000_001),
            Some(Field::HeatRate),
        ),
        (proxy(50_001, 30_000, 1, 190_000), Some(Field::HeatRate)),
        (proxy(1_000, -1, 13, 1_000_000_001), Some(Field::FuelPrice)),
        (proxy(1_000, 100_001, 1, 190_000), Some(Field::FuelPrice)),
        (proxy(50_000, 0, 0, 190_000), Some(Field::Category)),
        (
            proxy(50_000, 100_000, 13, 1_000_000_001),
            Some(Field::Category),
        ),
        (
            proxy(50_000, 100_000, 1, 1_000_000_001),
            Some(Field::FuelBurned),
        ),
        (proxy(50_000, 100_000, 12, 1_000_000_000), None),
        (storage(-1, 13), Some(Field::ChargingCost)),
        (storage(1_000_001, 1), Some(Field::ChargingCost)),
        (storage(0, 0), Some(Field::Category)),
        (storage(0, 1), None),
        (storage(1_000_000, 12), None),
        (storage(1_000_000, 13), Some(Field::Category)),
    ] {
        assert_eq!(rt; row_of(kind).loss().err(), told);
    }
}

#[test]
fn losses_at_the_edges(rt: HostRuntime) {
    let plant = row_of(verified(9_500, 30_000, 500, 190_000));
    for (spp, amount, basis) in [
        (199_999, 0, 0),
        (200_000, -1_710_000, 20_000),
        (285_499, -20, 20_000),
        (285_500, 0, 20_000),
    ] {
        let loss = Loss {
            cost: 285_500,
            quantity: 20_000,
            amount,
            basis,
        };
        assert_eq!(rt; LossRow { spp, ..plant }.loss(), Ok(loss));
    }
    let dearest = LossRow {
        spp: 0,
        generation: 500_000,
        cap: 0,
        ..row_of(verified(50_000, 100_000, 10_000, 25_000_000))
    };
    let loss = Loss {
        cost: 5_010_000,
        quantity: 500_000,
        amount: -2_505_000_000,
        basis: 500_000,
    };
    assert_eq!(rt; dearest.loss(), Ok(loss));
}

#[test]
fn rows_as_lines(rt: HostRuntime) {
    let rows = [
        row_of(verified(9_500, 30_000, 500, 190_000)),
        row_of(storage(250_000, 13)),
    ];
    let source = RowSource {
        rows: &rows,
        reader: LossReader,
    };
    let pile = Period::over(Adjustment::over(Denial::over(source)), State::Open);
    assert_eq!(rt; pile.count(), 2);
    assert_eq!(rt; pile.line(1), Ok((7, 2, -1_510_000)));
    assert_eq!(rt;
        pile.line(2),
        Err(Fault::in_source(Cause::FieldOutside, 2, 8))
    );
    assert_eq!(rt; pile.line(3), Err(Fault::no_line(3)));
    assert_eq!(rt; pile.basis(1), 20_000);
    assert_eq!(rt; pile.basis(2), 0);
    assert_eq!(rt; energy(&pile), Ok(20_000));
}
