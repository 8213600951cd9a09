// Days whose answers were worked out from the rules, line by line: every refusal that a text can raise.

// A text, and what it is answered.
pub struct Case {
    pub text: &'static str,
    pub answers: &'static str,
}

pub const REFUSALS: Case = Case {
    text: "# Every refusal that a call on an open book can meet. The line above a record says what is wrong with it. A refused opening shuts
# all the calls after it, so the four numbers of an opening stand in texts of their own.

party,ALPHA
party,BETA
party,GAMMA
intervals,4

# One good curve, and four that are looked into only when a row of theirs is settled: without points (21), with a power that does
# not rise (22), with a price that falls (23), with LSL above HSL (24).
curve,7,9,50000,150000,50000;2000;150000;4000
curve,21,9,0,90000,
curve,22,9,0,90000,40000;2500;40000;2600
curve,23,9,0,90000,40000;2500;50000;2400
curve,24,9,90000,0,40000;2500

# 25: the slices add up to 901 seconds.
quarter,600;301
# 25: a slice of 0 seconds.
quarter,900;0

# 51: a site without a bus.
unit,ALPHA,1,40
site,running
# 52: an energy of 10,001 kWh.
bus,10001,3000
unit,ALPHA,1,40
site,running
# 52: an adder below 0.
bus,500,3000
adders,-1,0
unit,ALPHA,1,40
site,leftover
# 53: the readings add up to 0.
bus,500,3000
unit,ALPHA,1,0
unit,BETA,2,0
site,leftover

# 46: no resource has the number 10,000.
deny,10000
# 46: a figure of one cent too much.
adjust,7,-1000000001

# 31: there is no charge type 4.
settle,#4,1,listed,running,1;2;3
# 31: the book has four quarter hours.
void,EMR,5
# 32: two loads for three parties.
settle,EMR,1,listed,running,1;2
# 32: the second load is one too large.
settle,EMR,1,listed,running,1;20000001;3
# 33: nothing stands in this slot, to be voided or to be restated.
void,SOG,1
restate,SOG,1,listed,running,1;2;3
# 33: no lines and no load settle, but not twice.
settle,SOG,1,listed,running,0;0;0
settle,SOG,1,listed,running,0;0;0
# 39: there is no fourth party.
balance,#4
# 39: nor one of number 0.
entry,SOG,1,#0
# 31: an entry of quarter hour 0; it comes before the party, which is wrong too.
entry,SOG,0,#0

# 35, a fault 41 of line 2 in field 3: more was generated than 500,000 kWh.
emr,ALPHA,7,3000,30000,0,100000,9,900000
emr,ALPHA,8,3000,500001,0,100000,9,900000
settle,EMR,1,emr,running,1;2;3
# A fault has a basis of 0, so that the energy is that of line 1.
energy,emr
# 35, a fault 40: resource 7 has no curve for hour 10.
clear,emr
emr,ALPHA,7,3000,30000,0,100000,10,900000
settle,EMR,1,emr,running,1;2;3
# 35, a fault 40 for 21: the curve of resource 21 has no points.
clear,emr
emr,ALPHA,21,3000,30000,0,100000,9,900000
settle,EMR,1,emr,running,1;2;3
# 35, a fault 40 for 22: the second power of resource 22 does not rise.
clear,emr
emr,ALPHA,22,3000,30000,0,100000,9,900000
settle,EMR,1,emr,running,1;2;3
# 35, a fault 40 for 23: the second price of resource 23 falls.
clear,emr
emr,ALPHA,23,3000,30000,0,100000,9,900000
settle,EMR,1,emr,running,1;2;3
# 35, a fault 40 for 24: LSL of resource 24 is above HSL.
clear,emr
emr,ALPHA,24,3000,30000,0,100000,9,900000
settle,EMR,1,emr,running,1;2;3
# 35, a fault 41 in field 8: there is no thirteenth category.
opl,BETA,proxy,5,210000,25000,9500,30000,,,13,190000,200000,yes,yes
settle,OPL,1,opl,running,1;2;3
# 35, a fault 41 in field 1: no resource has the number 0.
listed,ALPHA,0,-50
settle,EMR,1,listed,running,1;2;3
# 35, a fault 43 in field 2: a listed amount of one cent too much.
clear,listed
listed,ALPHA,4,3000000001
settle,EMR,1,listed,running,1;2;3
# 35, a fault 44 of the adjustment layer, whose kind is 3: the amount less the figure is one cent too low.
clear,listed
listed,ALPHA,4,-3000000000
adjust,4,1
settle,EMR,1,listed,running,1;2;3
unadjust,4
# 36: the third line's party is no party of the book.
clear,listed
listed,ALPHA,4,-50
listed,BETA,5,-50
listed,#4,6,-50
settle,EMR,1,listed,running,1;2;3
# 36: the second line's resource is not above the first's.
clear,listed
listed,ALPHA,4,-50
listed,BETA,4,-50
settle,EMR,1,listed,running,1;2;3
# 37: a total of 5,000,000,001 cents.
clear,listed
listed,ALPHA,4,3000000000
listed,BETA,5,2000000001
settle,EMR,1,listed,running,1;2;3
# 38: the total is not 0, and there is no load to charge.
clear,listed
listed,ALPHA,4,-50
settle,EMR,1,listed,running,0;0;0
# With a load it settles.
settle,EMR,1,listed,running,1;2;3

# 45: the denial layer holds 32 resources, and resource 133 is a new one.
deny,101
deny,102
deny,103
deny,104
deny,105
deny,106
deny,107
deny,108
deny,109
deny,110
deny,111
deny,112
deny,113
deny,114
deny,115
deny,116
deny,117
deny,118
deny,119
deny,120
deny,121
deny,122
deny,123
deny,124
deny,125
deny,126
deny,127
deny,128
deny,129
deny,130
deny,131
deny,132
deny,133
# 46 comes before it.
deny,10000
# A resource that it holds may be denied again, and one that is taken out leaves its place to another.
deny,101
undeny,102
deny,133

# 34: 257 lines, to settle and to add up.
clear,listed
listed,GAMMA,1,-1
listed,GAMMA,2,-1
listed,GAMMA,3,-1
listed,GAMMA,4,-1
listed,GAMMA,5,-1
listed,GAMMA,6,-1
listed,GAMMA,7,-1
listed,GAMMA,8,-1
listed,GAMMA,9,-1
listed,GAMMA,10,-1
listed,GAMMA,11,-1
listed,GAMMA,12,-1
listed,GAMMA,13,-1
listed,GAMMA,14,-1
listed,GAMMA,15,-1
listed,GAMMA,16,-1
listed,GAMMA,17,-1
listed,GAMMA,18,-1
listed,GAMMA,19,-1
listed,GAMMA,20,-1
listed,GAMMA,21,-1
listed,GAMMA,22,-1
listed,GAMMA,23,-1
listed,GAMMA,24,-1
listed,GAMMA,25,-1
listed,GAMMA,26,-1
listed,GAMMA,27,-1
listed,GAMMA,28,-1
listed,GAMMA,29,-1
listed,GAMMA,30,-1
listed,GAMMA,31,-1
listed,GAMMA,32,-1
listed,GAMMA,33,-1
listed,GAMMA,34,-1
listed,GAMMA,35,-1
listed,GAMMA,36,-1
listed,GAMMA,37,-1
listed,GAMMA,38,-1
listed,GAMMA,39,-1
listed,GAMMA,40,-1
listed,GAMMA,41,-1
listed,GAMMA,42,-1
listed,GAMMA,43,-1
listed,GAMMA,44,-1
listed,GAMMA,45,-1
listed,GAMMA,46,-1
listed,GAMMA,47,-1
listed,GAMMA,48,-1
listed,GAMMA,49,-1
listed,GAMMA,50,-1
listed,GAMMA,51,-1
listed,GAMMA,52,-1
listed,GAMMA,53,-1
listed,GAMMA,54,-1
listed,GAMMA,55,-1
listed,GAMMA,56,-1
listed,GAMMA,57,-1
listed,GAMMA,58,-1
listed,GAMMA,59,-1
listed,GAMMA,60,-1
listed,GAMMA,61,-1
listed,GAMMA,62,-1
listed,GAMMA,63,-1
listed,GAMMA,64,-1
listed,GAMMA,65,-1
listed,GAMMA,66,-1
listed,GAMMA,67,-1
listed,GAMMA,68,-1
listed,GAMMA,69,-1
listed,GAMMA,70,-1
listed,GAMMA,71,-1
listed,GAMMA,72,-1
listed,GAMMA,73,-1
listed,GAMMA,74,-1
listed,GAMMA,75,-1
listed,GAMMA,76,-1
listed,GAMMA,77,-1
listed,GAMMA,78,-1
listed,GAMMA,79,-1
listed,GAMMA,80,-1
listed,GAMMA,81,-1
listed,GAMMA,82,-1
listed,GAMMA,83,-1
listed,GAMMA,84,-1
listed,GAMMA,85,-1
listed,GAMMA,86,-1
listed,GAMMA,87,-1
listed,GAMMA,88,-1
listed,GAMMA,89,-1
listed,GAMMA,90,-1
listed,GAMMA,91,-1
listed,GAMMA,92,-1
listed,GAMMA,93,-1
listed,GAMMA,94,-1
listed,GAMMA,95,-1
listed,GAMMA,96,-1
listed,GAMMA,97,-1
listed,GAMMA,98,-1
listed,GAMMA,99,-1
listed,GAMMA,100,-1
listed,GAMMA,101,-1
listed,GAMMA,102,-1
listed,GAMMA,103,-1
listed,GAMMA,104,-1
listed,GAMMA,105,-1
listed,GAMMA,106,-1
listed,GAMMA,107,-1
listed,GAMMA,108,-1
listed,GAMMA,109,-1
listed,GAMMA,110,-1
listed,GAMMA,111,-1
listed,GAMMA,112,-1
listed,GAMMA,113,-1
listed,GAMMA,114,-1
listed,GAMMA,115,-1
listed,GAMMA,116,-1
listed,GAMMA,117,-1
listed,GAMMA,118,-1
listed,GAMMA,119,-1
listed,GAMMA,120,-1
listed,GAMMA,121,-1
listed,GAMMA,122,-1
listed,GAMMA,123,-1
listed,GAMMA,124,-1
listed,GAMMA,125,-1
listed,GAMMA,126,-1
listed,GAMMA,127,-1
listed,GAMMA,128,-1
listed,GAMMA,129,-1
listed,GAMMA,130,-1
listed,GAMMA,131,-1
listed,GAMMA,132,-1
listed,GAMMA,133,-1
listed,GAMMA,134,-1
listed,GAMMA,135,-1
listed,GAMMA,136,-1
listed,GAMMA,137,-1
listed,GAMMA,138,-1
listed,GAMMA,139,-1
listed,GAMMA,140,-1
listed,GAMMA,141,-1
listed,GAMMA,142,-1
listed,GAMMA,143,-1
listed,GAMMA,144,-1
listed,GAMMA,145,-1
listed,GAMMA,146,-1
listed,GAMMA,147,-1
listed,GAMMA,148,-1
listed,GAMMA,149,-1
listed,GAMMA,150,-1
listed,GAMMA,151,-1
listed,GAMMA,152,-1
listed,GAMMA,153,-1
listed,GAMMA,154,-1
listed,GAMMA,155,-1
listed,GAMMA,156,-1
listed,GAMMA,157,-1
listed,GAMMA,158,-1
listed,GAMMA,159,-1
listed,GAMMA,160,-1
listed,GAMMA,161,-1
listed,GAMMA,162,-1
listed,GAMMA,163,-1
listed,GAMMA,164,-1
listed,GAMMA,165,-1
listed,GAMMA,166,-1
listed,GAMMA,167,-1
listed,GAMMA,168,-1
listed,GAMMA,169,-1
listed,GAMMA,170,-1
listed,GAMMA,171,-1
listed,GAMMA,172,-1
listed,GAMMA,173,-1
listed,GAMMA,174,-1
listed,GAMMA,175,-1
listed,GAMMA,176,-1
listed,GAMMA,177,-1
listed,GAMMA,178,-1
listed,GAMMA,179,-1
listed,GAMMA,180,-1
listed,GAMMA,181,-1
listed,GAMMA,182,-1
listed,GAMMA,183,-1
listed,GAMMA,184,-1
listed,GAMMA,185,-1
listed,GAMMA,186,-1
listed,GAMMA,187,-1
listed,GAMMA,188,-1
listed,GAMMA,189,-1
listed,GAMMA,190,-1
listed,GAMMA,191,-1
listed,GAMMA,192,-1
listed,GAMMA,193,-1
listed,GAMMA,194,-1
listed,GAMMA,195,-1
listed,GAMMA,196,-1
listed,GAMMA,197,-1
listed,GAMMA,198,-1
listed,GAMMA,199,-1
listed,GAMMA,200,-1
listed,GAMMA,201,-1
listed,GAMMA,202,-1
listed,GAMMA,203,-1
listed,GAMMA,204,-1
listed,GAMMA,205,-1
listed,GAMMA,206,-1
listed,GAMMA,207,-1
listed,GAMMA,208,-1
listed,GAMMA,209,-1
listed,GAMMA,210,-1
listed,GAMMA,211,-1
listed,GAMMA,212,-1
listed,GAMMA,213,-1
listed,GAMMA,214,-1
listed,GAMMA,215,-1
listed,GAMMA,216,-1
listed,GAMMA,217,-1
listed,GAMMA,218,-1
listed,GAMMA,219,-1
listed,GAMMA,220,-1
listed,GAMMA,221,-1
listed,GAMMA,222,-1
listed,GAMMA,223,-1
listed,GAMMA,224,-1
listed,GAMMA,225,-1
listed,GAMMA,226,-1
listed,GAMMA,227,-1
listed,GAMMA,228,-1
listed,GAMMA,229,-1
listed,GAMMA,230,-1
listed,GAMMA,231,-1
listed,GAMMA,232,-1
listed,GAMMA,233,-1
listed,GAMMA,234,-1
listed,GAMMA,235,-1
listed,GAMMA,236,-1
listed,GAMMA,237,-1
listed,GAMMA,238,-1
listed,GAMMA,239,-1
listed,GAMMA,240,-1
listed,GAMMA,241,-1
listed,GAMMA,242,-1
listed,GAMMA,243,-1
listed,GAMMA,244,-1
listed,GAMMA,245,-1
listed,GAMMA,246,-1
listed,GAMMA,247,-1
listed,GAMMA,248,-1
listed,GAMMA,249,-1
listed,GAMMA,250,-1
listed,GAMMA,251,-1
listed,GAMMA,252,-1
listed,GAMMA,253,-1
listed,GAMMA,254,-1
listed,GAMMA,255,-1
listed,GAMMA,256,-1
listed,GAMMA,257,-1
settle,OPL,2,listed,running,1;2;3
energy,listed
",
    answers: "18: quarter: refused 25 at 0
20: quarter: refused 25 at 0
24: site running: refused 51 at 0
28: site running: refused 52 at 0
33: site leftover: refused 52 at 0
38: site leftover: refused 53 at 0
41: deny 10000: refused 46 at 0
43: adjust 7: refused 46 at 0
46: open: ok parties=3 intervals=4
46: settle #4 1 running: refused 31 at 0
48: void EMR 5: refused 31 at 0
50: settle EMR 1 running: refused 32 at 0
52: settle EMR 1 running: refused 32 at 2
54: void SOG 1: refused 33 at 0
55: restate SOG 1 running: refused 33 at 0
57: settle SOG 1 running: ok lines=0 paid=0 load=0
58: settle SOG 1 running: refused 33 at 0
60: balance #4: refused 39 at 0
62: entry SOG 1 #0: refused 39 at 0
64: entry SOG 0 #0: refused 31 at 0
69: settle EMR 1 running: refused 35 at 2, fault 41 line 2 field 3 layer 0
71: energy emr: ok 25000
75: settle EMR 1 running: refused 35 at 1, fault 40 line 1 field 0 layer 0
79: settle EMR 1 running: refused 35 at 1, fault 40 line 1 field 0 layer 0
83: settle EMR 1 running: refused 35 at 1, fault 40 line 1 field 0 layer 0
87: settle EMR 1 running: refused 35 at 1, fault 40 line 1 field 0 layer 0
91: settle EMR 1 running: refused 35 at 1, fault 40 line 1 field 0 layer 0
94: settle OPL 1 running: refused 35 at 1, fault 41 line 1 field 8 layer 0
97: settle EMR 1 running: refused 35 at 1, fault 41 line 1 field 1 layer 0
101: settle EMR 1 running: refused 35 at 1, fault 43 line 1 field 2 layer 0
105: adjust 4: ok
106: settle EMR 1 running: refused 35 at 1, fault 44 line 1 field 0 layer 3
107: unadjust 4: ok
113: settle EMR 1 running: refused 36 at 3
118: settle EMR 1 running: refused 36 at 2
123: settle EMR 1 running: refused 37 at 0
127: settle EMR 1 running: refused 38 at 0
129: settle EMR 1 running: ok lines=1 paid=-50 load=6
132: deny 101: ok
133: deny 102: ok
134: deny 103: ok
135: deny 104: ok
136: deny 105: ok
137: deny 106: ok
138: deny 107: ok
139: deny 108: ok
140: deny 109: ok
141: deny 110: ok
142: deny 111: ok
143: deny 112: ok
144: deny 113: ok
145: deny 114: ok
146: deny 115: ok
147: deny 116: ok
148: deny 117: ok
149: deny 118: ok
150: deny 119: ok
151: deny 120: ok
152: deny 121: ok
153: deny 122: ok
154: deny 123: ok
155: deny 124: ok
156: deny 125: ok
157: deny 126: ok
158: deny 127: ok
159: deny 128: ok
160: deny 129: ok
161: deny 130: ok
162: deny 131: ok
163: deny 132: ok
164: deny 133: refused 45 at 0
166: deny 10000: refused 46 at 0
168: deny 101: ok
169: undeny 102: ok
170: deny 133: ok
431: settle OPL 2 running: refused 34 at 0
432: energy listed: refused 34 at 0
balances
ALPHA -42
BETA 17
GAMMA 25
total 0
346 done, 36 refused, 0 malformed
",
};

pub const OPENING_11: Case = Case {
    text: "# 11: the second party's code is not of capitals and digits. It comes before 12: the codes do not rise either.
party,BETA
party,alpha
party,ALPHA
intervals,4
balance,alpha
settle,EMR,1,emr,running,1;2;3
",
    answers: "6: open: refused 11 at 2
6: balance alpha: refused 11 at 2
7: settle EMR 1 running: refused 11 at 2
4 done, 3 refused, 0 malformed
",
};

pub const OPENING_11_CURVE: Case = Case {
    text: "# 11: the second curve is one of hour 26.
party,ALPHA
intervals,4
curve,7,9,50000,150000,50000;2000;150000;4000
curve,7,26,50000,150000,50000;2000;150000;4000
energy,emr
void,EMR,1
",
    answers: "6: open: refused 11 at 2
6: energy emr: refused 11 at 2
7: void EMR 1: refused 11 at 2
4 done, 3 refused, 0 malformed
",
};

pub const OPENING_12: Case = Case {
    text: "# 12: the third party's code is not above the second's.
party,ALPHA
party,GAMMA
party,BETA
intervals,4
entry,EMR,1,BETA
balance,GAMMA
",
    answers: "6: open: refused 12 at 3
6: entry EMR 1 BETA: refused 12 at 3
7: balance GAMMA: refused 12 at 3
4 done, 3 refused, 0 malformed
",
};

pub const OPENING_12_CURVE: Case = Case {
    text: "# 12: the third curve is one of the same resource and hour as the second.
party,ALPHA
intervals,4
curve,7,9,50000,150000,50000;2000;150000;4000
curve,8,9,50000,150000,50000;2000;150000;4000
curve,8,9,0,150000,50000;2500
settle,EMR,1,emr,running,1
restate,EMR,1,emr,running,1
",
    answers: "7: open: refused 12 at 3
7: settle EMR 1 running: refused 12 at 3
8: restate EMR 1 running: refused 12 at 3
5 done, 3 refused, 0 malformed
",
};

pub const OPENING_13: Case = Case {
    text: "# 13: there is no party. The opening is told at the first call, and every call after it is refused alike.
intervals,4
balance,#1
energy,emr
",
    answers: "3: open: refused 13 at 0
3: balance #1: refused 13 at 0
4: energy emr: refused 13 at 0
1 done, 3 refused, 0 malformed
",
};

pub const OPENING_61: Case = Case {
    text: "# 61: a book has at most 100 quarter hours.
party,ALPHA
intervals,101
settle,EMR,1,emr,running,1
balance,ALPHA
",
    answers: "4: open: refused 61 at 0
4: settle EMR 1 running: refused 61 at 0
5: balance ALPHA: refused 61 at 0
2 done, 3 refused, 0 malformed
",
};

pub const CASES: [Case; 7] = [
    REFUSALS,
    OPENING_11,
    OPENING_11_CURVE,
    OPENING_12,
    OPENING_12_CURVE,
    OPENING_13,
    OPENING_61,
];
