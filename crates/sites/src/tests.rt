// Sites at the edges of their limits.
use crate::refusal::SiteRefusal;
use crate::site::{Adders, Bus, Site, SiteUnit};
use charges::listed::ListedRow;
use numbers::numbered::Numbered;
use quarters::quarter::QuarterHour;
use sharing::leftover::Leftover;
use sharing::rule::SharingRule;
use sharing::running::Running;
use std::process::Abort;

const BUS: Bus = Bus {
    energy: 2_000,
    prices: [-30_000; 15],
};

const ADDERS: Adders = Adders {
    first: [0; 15],
    second: [0; 15],
};

const UNIT: SiteUnit = SiteUnit {
    resource: 4,
    party: 1,
    reading: 1,
};

const ROW: ListedRow = ListedRow {
    resource: 9,
    party: 9,
    amount: 9,
};

// Settles a site over one slice by a rule.
fn settle<R: SharingRule>(
    rule: &R,
    buses: &[Bus],
    adders: &Adders,
    units: &[SiteUnit],
    rows: &mut [ListedRow],
) -> Result<i64, SiteRefusal> {
    let quarter = QuarterHour::undivided();
    let site = Site {
        quarter: &quarter,
        buses,
        adders,
        units,
    };
    site.settle(rule, rows)
}

// The site's amount, by the running rule into a list of eight rows.
fn amount(buses: &[Bus], adders: &Adders, units: &[SiteUnit]) -> Result<i64, SiteRefusal> {
    settle(&Running, buses, adders, units, &mut [ROW; 8])
}

// The number that the site is refused with, or 0, in a list of so many rows; a list that is refused stays as it was.
fn number(
    rt: &impl Abort,
    buses: &[Bus],
    adders: &Adders,
    units: &[SiteUnit],
    rows: &mut [ListedRow],
) -> u8 {
    match settle(&Running, buses, adders, units, rows) {
        Ok(_) => 0,
        Err(refusal) => {
            assert_eq!(rt; refusal.place(), 0);
            for row in rows {
                assert_eq!(rt; *row, ROW);
            }
            refusal.number()
        }
    }
}

// The number for a site with a second bus, with these adders, or with these units.
fn with_bus(rt: &impl Abort, bus: Bus) -> u8 {
    number(rt, &[BUS, bus], &ADDERS, &[UNIT], &mut [ROW; 8])
}

fn with_adders(rt: &impl Abort, first: i32, second: i32) -> u8 {
    number(rt, &[BUS], &adders(first, second), &[UNIT], &mut [ROW; 8])
}

fn with_units(rt: &impl Abort, units: &[SiteUnit]) -> u8 {
    number(rt, &[BUS], &ADDERS, units, &mut [ROW; 8])
}

fn bus(energy: i32, price: i32) -> Bus {
    Bus {
        energy,
        prices: [price; 15],
    }
}

fn unit(resource: u16, reading: u32) -> SiteUnit {
    SiteUnit {
        resource,
        party: 1,
        reading,
    }
}

fn row(resource: u16, amount: i64) -> ListedRow {
    ListedRow {
        resource,
        party: 1,
        amount,
    }
}

// The first slice has these adders, and the others have none.
fn adders(first: i32, second: i32) -> Adders {
    let mut adders = ADDERS;
    adders.first[0] = first;
    adders.second[0] = second;
    adders
}

#[test]
fn counts(rt: HostRuntime) {
    assert_eq!(rt; amount(&[BUS], &ADDERS, &[UNIT]), Ok(50_200));
    assert_eq!(rt; amount(&[BUS; 8], &ADDERS, &[UNIT; 8]), Ok(401_600));
    assert_eq!(rt; number(&rt, &[], &ADDERS, &[UNIT], &mut [ROW; 8]), 51);
    assert_eq!(rt; number(&rt, &[BUS; 9], &ADDERS, &[UNIT], &mut [ROW; 8]), 51);
    assert_eq!(rt; with_units(&rt, &[]), 51);
    assert_eq!(rt; with_units(&rt, &[UNIT; 9]), 51);
}

#[test]
fn values_of_buses(rt: HostRuntime) {
    assert_eq!(rt; with_bus(&rt, bus(10_000, 1_000_000)), 0);
    assert_eq!(rt; with_bus(&rt, bus(-10_000, -100_000)), 0);
    assert_eq!(rt; with_bus(&rt, bus(10_001, 0)), 52);
    assert_eq!(rt; with_bus(&rt, bus(-10_001, 0)), 52);
    assert_eq!(rt; with_bus(&rt, bus(0, 1_000_001)), 52);
    assert_eq!(rt; with_bus(&rt, bus(0, -100_001)), 52);
}

#[test]
fn values_of_adders(rt: HostRuntime) {
    assert_eq!(rt; with_adders(&rt, 1_000_000, 1_000_000), 0);
    assert_eq!(rt; with_adders(&rt, 1_000_001, 0), 52);
    assert_eq!(rt; with_adders(&rt, 0, 1_000_001), 52);
    assert_eq!(rt; with_adders(&rt, -1, 0), 52);
    assert_eq!(rt; with_adders(&rt, 0, -1), 52);
}

#[test]
fn values_of_units(rt: HostRuntime) {
    assert_eq!(rt; with_units(&rt, &[unit(1, 0), unit(9_999, 500_000)]), 0);
    assert_eq!(rt; with_units(&rt, &[UNIT, unit(0, 1)]), 52);
    assert_eq!(rt; with_units(&rt, &[UNIT, unit(10_000, 1)]), 52);
    assert_eq!(rt; with_units(&rt, &[UNIT, unit(4, 500_001)]), 52);
    assert_eq!(rt; with_units(&rt, &[unit(4, 0), unit(5, 0)]), 53);
}

// What lies past the only slice is neither checked nor counted.
#[test]
fn past_the_slices(rt: HostRuntime) {
    let mut bus = BUS;
    bus.prices[1] = 1_000_001;
    let mut adders = ADDERS;
    adders.first[1] = -1;
    adders.second[14] = 1_000_001;
    assert_eq!(rt; amount(&[bus], &adders, &[UNIT]), Ok(50_200));
}

#[test]
fn rows_for_the_units(rt: HostRuntime) {
    let units = [UNIT, unit(5, 0)];
    assert_eq!(rt; number(&rt, &[BUS], &ADDERS, &units, &mut [ROW; 2]), 0);
    assert_eq!(rt; number(&rt, &[BUS], &ADDERS, &units, &mut [ROW; 1]), 54);
    assert_eq!(rt; number(&rt, &[BUS], &ADDERS, &units, &mut []), 54);
}

// A check comes before those that follow it, whatever else is wrong.
#[test]
fn order_of_checks(rt: HostRuntime) {
    assert_eq!(rt;
        number(&rt, &[], &adders(-1, 0), &[unit(0, 0)], &mut []),
        51
    );
    assert_eq!(rt;
        number(&rt, &[BUS], &adders(-1, 0), &[unit(4, 0)], &mut []),
        52
    );
    assert_eq!(rt; number(&rt, &[BUS], &ADDERS, &[unit(4, 0)], &mut []), 53);
}

#[test]
fn amounts(rt: HostRuntime) {
    let most = adders(1_000_000, 1_000_000);
    assert_eq!(rt;
        amount(&[bus(10_000, 1_000_000); 8], &most, &[UNIT]),
        Ok(-240_000_000)
    );
    assert_eq!(rt;
        amount(&[bus(10_000, -100_000); 8], &ADDERS, &[UNIT]),
        Ok(2_008_000)
    );
    // the energies add up to 0, to less, and to one more
    assert_eq!(rt;
        amount(&[bus(500, 4_000), bus(-500, 1_000)], &ADDERS, &[UNIT]),
        Ok(0)
    );
    assert_eq!(rt;
        amount(&[bus(500, 4_000), bus(-501, 1_000)], &ADDERS, &[UNIT]),
        Ok(0)
    );
    assert_eq!(rt;
        amount(&[bus(501, 4_000), bus(-500, 1_000)], &ADDERS, &[UNIT]),
        Ok(-1_504)
    );
}

// A third of 5,746 is 1,915 and a third of a cent.
#[test]
fn shares_by_either_rule(rt: HostRuntime) {
    let units = [unit(4, 7), unit(5, 7), unit(6, 7)];
    let mut rows = [ROW; 5];
    assert_eq!(rt;
        settle(&Running, &[bus(1_000, 5_746)], &ADDERS, &units, &mut rows),
        Ok(-5_746)
    );
    assert_eq!(rt;
        rows,
        [row(4, -1_915), row(5, -1_915), row(6, -1_916), ROW, ROW]
    );
    assert_eq!(rt;
        settle(&Leftover, &[bus(1_000, 5_746)], &ADDERS, &units, &mut rows),
        Ok(-5_746)
    );
    assert_eq!(rt;
        rows,
        [row(4, -1_916), row(5, -1_915), row(6, -1_915), ROW, ROW]
    );
}

// Where nothing is paid the rows are written all the same.
#[test]
fn rows_of_no_amount(rt: HostRuntime) {
    let mut rows = [ROW; 3];
    assert_eq!(rt;
        settle(
            &Leftover,
            &[bus(0, 5_746)],
            &ADDERS,
            &[unit(4, 1), unit(5, 0)],
            &mut rows
        ),
        Ok(0)
    );
    assert_eq!(rt; rows, [row(4, 0), row(5, 0), ROW]);
}
