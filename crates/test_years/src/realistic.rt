//! A small whole economy, in millions: ten products, eight industries, five final uses, two margins, three taxes. Its files
//! are those of the folder `examples/realistic`.

use sut_outside::FileName;

const SETTINGS: &str = "scheme = \"flat\"
[grades]
A = 100
B = 1
";

const CLASSES: &str = "axis,code,kind
margin,TR,
margin,TP,
tax,VAT,
tax,DUT,
tax,SUB,
product,AGR,plain
product,MIN,plain
product,FOD,plain
product,MAN,plain
product,ENE,plain
product,CON,plain
product,TRD,TR
product,TRA,TP
product,SRV,plain
product,PUB,plain
industry,A,
industry,B,
industry,C,
industry,D,
industry,F,
industry,G,
industry,H,
industry,S,
final,HH,
final,GOV,
final,INV,
final,STK,
final,EXP,
item,D1,
item,D29,
item,B2,
";

const SOURCE: &str = "kind,a,b,c,target,grade,lower,upper
make,AGR,A,,400,B,,
make,MIN,B,,150,B,,
make,FOD,C,,520,B,,
make,MAN,C,,900,B,,
make,MAN,S,,20,B,,
make,ENE,D,,210,B,,
make,CON,F,,480,B,,
make,TRD,G,,426,B,,
make,TRA,H,,299,B,,
make,SRV,S,,1100,B,,
make,SRV,G,,30,B,,
make,PUB,S,,650,B,,
import,AGR,,,60,A,60,60
import,MIN,,,120,A,120,120
import,FOD,,,80,A,80,80
import,MAN,,,500,A,500,500
import,ENE,,,20,A,20,20
import,SRV,,,90,A,90,90
basic,AGR,A,,40,B,,
basic,AGR,C,,260,B,,
basic,AGR,HH,,110,B,,
basic,AGR,STK,,10,B,,
basic,AGR,EXP,,35,A,35,35
basic,MIN,C,,150,B,,
basic,MIN,D,,90,B,,
basic,MIN,EXP,,24,A,24,24
basic,FOD,C,,80,B,,
basic,FOD,S,,40,B,,
basic,FOD,HH,,380,B,,
basic,FOD,EXP,,100,A,100,100
basic,MAN,A,,60,B,,
basic,MAN,B,,30,B,,
basic,MAN,C,,420,B,,
basic,MAN,D,,20,B,,
basic,MAN,F,,180,B,,
basic,MAN,S,,90,B,,
basic,MAN,HH,,300,B,,
basic,MAN,INV,,150,B,,
basic,MAN,EXP,,180,A,180,180
basic,ENE,A,,10,B,,
basic,ENE,B,,20,B,,
basic,ENE,C,,70,B,,
basic,ENE,H,,20,B,,
basic,ENE,S,,30,B,,
basic,ENE,HH,,80,B,,
basic,CON,F,,60,B,,
basic,CON,INV,,411,B,,
basic,TRD,HH,,20,B,,
basic,TRA,C,,60,B,,
basic,TRA,G,,40,B,,
basic,TRA,S,,30,B,,
basic,TRA,HH,,50,B,,
basic,TRA,EXP,,40,A,40,40
basic,SRV,A,,20,B,,
basic,SRV,B,,15,B,,
basic,SRV,C,,160,B,,
basic,SRV,D,,25,B,,
basic,SRV,F,,70,B,,
basic,SRV,G,,110,B,,
basic,SRV,H,,60,B,,
basic,SRV,S,,260,B,,
basic,SRV,HH,,330,B,,
basic,SRV,INV,,60,B,,
basic,SRV,EXP,,122,A,122,122
basic,PUB,HH,,40,B,,
basic,PUB,GOV,,610,B,,
margin,TR,AGR,HH,30,B,,
margin,TR,FOD,HH,110,B,,
margin,TR,MAN,C,40,B,,
margin,TR,MAN,F,30,B,,
margin,TR,MAN,HH,140,B,,
margin,TR,MAN,INV,40,B,,
margin,TP,AGR,C,10,B,,
margin,TP,MIN,C,20,B,,
margin,TP,FOD,HH,15,B,,
margin,TP,MAN,HH,25,B,,
tax,VAT,FOD,HH,30,B,,
tax,VAT,MAN,HH,60,B,,
tax,VAT,TRA,HH,5,B,,
tax,VAT,SRV,HH,33,B,,
tax,DUT,MAN,C,8,B,,
tax,DUT,MAN,HH,12,B,,
tax,SUB,AGR,HH,-10,B,,
tax,SUB,TRA,HH,-6,B,,
service,TRD,TR,,,,0,1000000
service,TRA,TP,,,,0,1000000
added,D1,A,,90,B,,
added,D1,B,,30,B,,
added,D1,C,,300,B,,
added,D1,D,,40,B,,
added,D1,F,,150,B,,
added,D1,G,,180,B,,
added,D1,H,,90,B,,
added,D1,S,,900,B,,
added,D29,A,,-5,B,,
added,D29,C,,10,B,,
added,D29,S,,15,B,,
added,B2,A,,,,-1000000,1000000
added,B2,B,,,,-1000000,1000000
added,B2,C,,,,-1000000,1000000
added,B2,D,,,,-1000000,1000000
added,B2,F,,,,-1000000,1000000
added,B2,G,,,,-1000000,1000000
added,B2,H,,,,-1000000,1000000
added,B2,S,,,,-1000000,1000000
";

/// Its files, in the order of reading.
pub const FILES: [(FileName, &'static str); 3] = [
    (FileName::SettingsToml, SETTINGS),
    (FileName::ClassesCsv, CLASSES),
    (FileName::SourceCsv, SOURCE),
];
