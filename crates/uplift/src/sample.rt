// The sample day.
pub const SAMPLE: &str =
    "# An emergency day, as a day file. Money is in cents and negative when a party receives it, prices are in cents per MWh, energy in
# kWh, power in kW and time in seconds.

# Three parties, in the order of their codes, and the 96 quarter hours of an ordinary day.
party,ALPHA
party,BETA
party,GAMMA
intervals,96

# What was offered for the hour that ends at 15:00. Resource 21 is a battery: it charges below 0 kW and discharges above.
curve,21,15,-40000,50000,-40000;1200;-10000;2000;10000;4000;50000;8000
# Resource 34 is a generator. Its curve is completed to its limits: 20,000 and 49,000 kW below, 120,000 kW above.
curve,34,15,20000,120000,50000;2500;100000;3500

# Quarter hour 57 begins at 14:00. The dispatch gave one base point for 600 seconds and another for 300.
quarter,600;300

# The battery was told to charge and then to discharge; the generator to stay at 110,000 kW, and its offer is capped at 3,200.
# The battery's charging reading came in with the wrong sign.
emr,ALPHA,21,2500,3300,3400,-20000;40000,15,500000
emr,BETA,34,3000,27000,0,110000;110000,15,3200
# So the first line of the table is refused, for field 4, and nothing is settled.
settle,EMR,57,emr,running,10000;20500;31000
entry,EMR,57,ALPHA

# The reading corrected: the quarter hour settles, and what was paid is charged by load.
clear,emr
emr,ALPHA,21,2500,3300,-3400,-20000;40000,15,500000
emr,BETA,34,3000,27000,0,110000;110000,15,3200
energy,emr
settle,EMR,57,emr,running,10000;20500;31000
entry,EMR,57,ALPHA
balance,ALPHA

# An operating loss: GAMMA's resource 45 ran at a price of 205,000 and at a cost of 240,400. It is settled for quarter hour 58 by
# mistake, voided there, and settled for quarter hour 57. One cent is left over and goes to ALPHA.
opl,GAMMA,verified,45,205000,16000,10000,24000,,400,,150000,200000,yes,yes
energy,opl
settle,OPL,58,opl,leftover,10000;20500;31000
entry,OPL,58,GAMMA
void,OPL,58
entry,OPL,58,GAMMA
settle,OPL,57,opl,leftover,10000;20500;31000
entry,OPL,57,ALPHA

# A small site with two buses, one of which took energy; two units of two parties share its payment by their readings.
bus,1200,3000;3600
bus,-200,2900;2950
adders,50;0,10;20
unit,ALPHA,301,700
unit,GAMMA,302,300
site,running
settle,SOG,57,listed,running,10000;20500;31000
entry,SOG,57,GAMMA

# Later readings: the battery's second base point was 55,000 kW, above the last point of its curve, where the last price holds.
# The emergency energy of the quarter hour is restated.
clear,emr
emr,ALPHA,21,2500,4500,-3400,-20000;55000,15,500000
emr,BETA,34,3000,27000,0,110000;110000,15,3200
energy,emr
restate,EMR,57,emr,running,10000;20500;31000
entry,EMR,57,ALPHA
entry,EMR,57,BETA
entry,EMR,57,GAMMA

# What the day comes to for each party.
balance,ALPHA
balance,BETA
balance,GAMMA
";
