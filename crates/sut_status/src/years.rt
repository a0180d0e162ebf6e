//! The files of the years of a series.

ghost use Rattle.std.specs.Prelude.{◌≡◌};
ghost use Rattle.sut_status.specs.YearFiles.{year_file};

use sut_outside::FileName;

/// The file of a year of a series, from year 1, `year1.csv`, to year 9, `year9.csv`; no other year has one.
pub fn year_file(year: u8) -> Option<FileName>
    ensures { result ≡ year_file year }
{
    match year {
        1 => Some(FileName::Year1Csv),
        2 => Some(FileName::Year2Csv),
        3 => Some(FileName::Year3Csv),
        4 => Some(FileName::Year4Csv),
        5 => Some(FileName::Year5Csv),
        6 => Some(FileName::Year6Csv),
        7 => Some(FileName::Year7Csv),
        8 => Some(FileName::Year8Csv),
        9 => Some(FileName::Year9Csv),
        _ => None,
    }
}
