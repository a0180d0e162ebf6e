//! A year of a farm and a bakery under edits. Its files are those of the folder `examples/edits`.

use crate::reviewed::ends_before_two;
use crate::years::is_accepted;
use std::test::Fail;
use sut_outside::{FileName, MemorySink};
use test_years::{FLAT, first_other, steady};

const CLASSES: &str = "axis,code,kind
product,GRAIN,plain
product,BREAD,plain
industry,FARM,
industry,BAKERY,
final,HOUSEHOLDS,
final,EXPORTS,
item,WAGES,
item,SURPLUS,
";

const SOURCE: &str = "kind,a,b,c,target,grade,lower,upper
make,GRAIN,FARM,,117,,,
make,BREAD,BAKERY,,200,,,
import,GRAIN,,,30,,0,30
basic,GRAIN,BAKERY,,112,,,
basic,GRAIN,EXPORTS,,38,,,
basic,BREAD,HOUSEHOLDS,,196,,,
basic,BREAD,EXPORTS,,10,,,
added,WAGES,FARM,,60,,,
added,WAGES,BAKERY,,50,,,
added,SURPLUS,FARM,,,,-1000,1000
added,SURPLUS,BAKERY,,,,-1000,1000
";

const EDITS: &str = "edit,kind,a,b,c,target,grade,lower,upper
balance,,,,,,,,
dismiss,,at_bound,,,,,,
set,make,BREAD,BAKERY,,206,,,
set,added,WAGES,BAKERY,,52,,,
balance,,,,,,,,
add,basic,GRAIN,HOUSEHOLDS,,5,,,
balance,,,,,,,,
set,import,GRAIN,,,38,,,38
drop,basic,BREAD,EXPORTS,,,,,
";

const FILES: [(FileName, &'static str); 4] = [
    (FileName::SettingsToml, FLAT),
    (FileName::ClassesCsv, CLASSES),
    (FileName::SourceCsv, SOURCE),
    (FileName::EditsCsv, EDITS),
];

const EDITED: &str = "kind,a,b,c,target,grade,lower,upper
make,GRAIN,FARM,,117,,0,1000000000000
make,BREAD,BAKERY,,206,,0,1000000000000
import,GRAIN,,,38,,0,38
basic,GRAIN,BAKERY,,112,,0,1000000000000
basic,GRAIN,HOUSEHOLDS,,5,,0,1000000000000
basic,GRAIN,EXPORTS,,38,,0,1000000000000
basic,BREAD,HOUSEHOLDS,,196,,0,1000000000000
added,WAGES,FARM,,60,,0,1000000000000
added,WAGES,BAKERY,,52,,0,1000000000000
added,SURPLUS,FARM,,,,-1000,1000
added,SURPLUS,BAKERY,,,,-1000,1000
";

const TRAIL: &str = "balance,kind,a,b,c,value
1,make,GRAIN,FARM,,118
1,make,BREAD,BAKERY,,202
1,import,GRAIN,,,30
1,basic,GRAIN,BAKERY,,111
1,basic,GRAIN,EXPORTS,,37
1,basic,BREAD,HOUSEHOLDS,,194
1,basic,BREAD,EXPORTS,,8
1,added,WAGES,FARM,,60
1,added,WAGES,BAKERY,,50
1,added,SURPLUS,FARM,,58
1,added,SURPLUS,BAKERY,,41
2,make,GRAIN,FARM,,118
2,make,BREAD,BAKERY,,206
2,import,GRAIN,,,30
2,basic,GRAIN,BAKERY,,111
2,basic,GRAIN,EXPORTS,,37
2,basic,BREAD,HOUSEHOLDS,,196
2,basic,BREAD,EXPORTS,,10
2,added,WAGES,FARM,,60
2,added,WAGES,BAKERY,,52
2,added,SURPLUS,FARM,,58
2,added,SURPLUS,BAKERY,,43
3,make,GRAIN,FARM,,119
3,make,BREAD,BAKERY,,206
3,import,GRAIN,,,30
3,basic,GRAIN,BAKERY,,110
3,basic,GRAIN,HOUSEHOLDS,,3
3,basic,GRAIN,EXPORTS,,36
3,basic,BREAD,HOUSEHOLDS,,196
3,basic,BREAD,EXPORTS,,10
3,added,WAGES,FARM,,60
3,added,WAGES,BAKERY,,52
3,added,SURPLUS,FARM,,59
3,added,SURPLUS,BAKERY,,44
4,make,GRAIN,FARM,,117
4,make,BREAD,BAKERY,,201
4,import,GRAIN,,,38
4,basic,GRAIN,BAKERY,,112
4,basic,GRAIN,HOUSEHOLDS,,5
4,basic,GRAIN,EXPORTS,,38
4,basic,BREAD,HOUSEHOLDS,,201
4,added,WAGES,FARM,,60
4,added,WAGES,BAKERY,,52
4,added,SURPLUS,FARM,,57
4,added,SURPLUS,BAKERY,,37
";

const REVIEW: &str = "label,seen,tally,standing
at_bound,1,1,no
far_from,4,2,yes
";

const PRINTED: &str = "line 2 balanced 15
line 6 balanced 3
line 8 balanced 16
end balanced 50
balanced
cost 50
gdp 206 206 206
";

// Worked by hand: what each product's supply and use are apart is spread evenly over its cells that may move, and the surplus
// takes what is left. At first the import is at its bound and the export of bread, 8, is more than 10 percent from 10; in the
// third table so is the households' grain, 3, from 5.
#[test]
fn farm_and_bakery(rt: HostRuntime) -> Result<(), Fail> {
    let mut shelf = steady(rt.alloc(), &FILES)?;
    let mut out = MemorySink::new(rt.alloc(), 1000, Vec::new(rt.alloc()))?;
    let status = ends_before_two(rt.alloc(), &mut shelf, &mut out, 10)?;
    assert!(rt; status.code() == 0 && out.text() == PRINTED.as_bytes());
    let files = [
        (FileName::EditedCsv, Some(EDITED)),
        (FileName::TrailCsv, Some(TRAIL)),
        (FileName::ReviewCsv, Some(REVIEW)),
    ];
    assert!(rt; first_other(&shelf, &files) == None);
    assert!(rt; is_accepted(rt.alloc(), &mut shelf, 0, "least\ncost 50\n")?);
    Ok(())
}
