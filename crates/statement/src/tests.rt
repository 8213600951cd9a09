// Statements and the journal of a small day. The figures are worked figures of the rules: a payment of two slices and an operating
// loss, the first adjusted by 500 and shared over loads of 1 to 3.
use crate::journal::Journal;
use crate::statement::Statement;
use dayrun::report::Report;
use dayrun::run::run;
use dayrun::teller::Outlet;
use std::alloc::Global;
use std::io;
use std::test::Fail;

// Keeps what is told.
#[derive(Drop)]
struct Kept {
    text: Vec<u8>,
}

impl Outlet for Kept {
    fn put(&mut self, text: &[u8]) -> io::Result<()> {
        Ok(self.text.extend_from_slice(text)?)
    }

    fn reached(&mut self, _line: u64) -> io::Result<()> {
        Ok(())
    }
}

const DAY: &[u8] = b"party,ALPHA
party,BETA
intervals,2
curve,7,9,50000,150000,50000;2000;150000;4000
quarter,600;300
emr,ALPHA,7,3000,30000,0,100000;150000,9,900000
opl,BETA,verified,20,210000,25000,9500,30000,,500,,190000,200000,yes,yes
listed,ALPHA,30,-100
adjust,7,500
settle,EMR,1,emr,running,1000;3000
settle,OPL,2,opl,leftover,0;5
deny,30
settle,SOG,1,listed,running,1;1
void,SOG,1
balance,ALPHA
";

const OF_ALPHA: &[u8] = b"statement of ALPHA, in cents; negative where it receives
  EMR 1, emergency energy: load 1000 kWh, paid -13013, charged 3253
    line 1: resource 7
      curve submitted: 50000 kW at 2000; 150000 kW at 4000; LSL 50000 kW, HSL 150000 kW
      curve completed: 50000 kW at 2000; 150000 kW at 4000; prices in cents per MWh
      slice 1: 600 s at 100000 kW: the curve reads 3000, priced at 3000 under the cap of 900000
      slice 2: 300 s at 150000 kW: the curve reads 4000, priced at 4000 under the cap of 900000
      W = 3429 cents per MWh, E = 29167 kWh, at most the 30000 generated
      V = 0 cents per MWh, D = 0 kWh, at least the 0 charged
      amount -12513 = nearest of min(0, 3000 x (29167 + 0) - 3429 x 29167 - 0 x 0) / 1000
      adjusted by a figure of 500, which is subtracted
      under the layers: -13013
    charged by running: the share of load 1000 of 4000 in -(-13013)
  OPL 2, operating losses: load 0 kWh, paid 0, charged 0
    charged by leftover: the share of load 0 of 5 in -(-1510000)
  balance -9760
";

const OF_BETA: &[u8] = b"statement of BETA, in cents; negative where it receives
  EMR 1, emergency energy: load 3000 kWh, paid 0, charged 9760
    charged by running: the share of load 3000 of 4000 in -(-13013)
  OPL 2, operating losses: load 5 kWh, paid -1510000, charged 1510000
    line 1: resource 20
      verified: cost = nearest of 9500 x 30000 / 1000 + 500 of its own O&M
      Q = the lesser of the 25000 kWh generated and nearest of 1000 x 190000 / 9500
      cost 285500 cents per MWh, Q 20000 kWh
      SPP 210000 and cap 200000; offer at the cap: yes; base point above LSL: yes
      amount -1510000 = -nearest of max(0, (285500 - max(200000, 210000)) x 20000) / 1000
    charged by leftover: the share of load 5 of 5 in -(-1510000)
  balance 9760
";

const JOURNAL: &[u8] =
    b"; The uplift of one day in dollars; negative where a party receives. All transactions bear one date.
commodity $
    format $1000.00

account parties:ALPHA
account parties:BETA

2026-02-03 * (EMR 1) emergency energy, interval 1
    parties:ALPHA  $-130.13  ; paid
    parties:ALPHA  $32.53  ; charged
    parties:BETA  $97.60  ; charged

2026-02-03 * (OPL 2) operating losses, interval 2
    parties:BETA  $-15100.00  ; paid
    parties:BETA  $15100.00  ; charged

2026-02-03 * balances
    parties:ALPHA  $0.00 = $-97.60
    parties:BETA  $0.00 = $97.60
";

// What a report tells of the day.
fn told<R: Report>(heap: Global, report: &mut R) -> io::Result<Vec<u8>> {
    let mut kept = Kept {
        text: Vec::new(heap),
    };
    let mut day = DAY;
    run(heap, &mut day, report, &mut kept)?;
    Ok(kept.text)
}

#[test]
fn each_party_is_told_every_step(rt: HostRuntime) -> Result<(), Fail> {
    let of_all = told(rt.alloc(), &mut Statement::new(rt.alloc(), None))?;
    assert!(rt; of_all.as_slice().strip_prefix(OF_ALPHA) == Some(OF_BETA));
    Ok(())
}

#[test]
fn one_party_by_its_number_is_told_alone(rt: HostRuntime) -> Result<(), Fail> {
    let of_beta = told(rt.alloc(), &mut Statement::new(rt.alloc(), Some(b"#2")))?;
    assert!(rt; of_beta.as_slice() == OF_BETA);
    Ok(())
}

#[test]
fn what_stands_is_told_as_a_journal(rt: HostRuntime) -> Result<(), Fail> {
    let journal = told(rt.alloc(), &mut Journal { date: "2026-02-03" })?;
    assert!(rt; journal.as_slice() == JOURNAL);
    Ok(())
}
