//! `edited.csv`.

ghost use Rattle.std.specs.Prelude.{◌≡◌, ◌≤◌, All, Ok, IfOk, length};
ghost use Rattle.sut_source.specs.SourceFile.{source_of};
ghost use Rattle.sut_source.specs.SourceText.{HasGrade, source_text};

use crate::laws::source_short;
use no_memory::NoMemory;
use std::alloc::Global;
use sut_settings::Settings;
use sut_source::print_source;
use sut_tables::Problem;

/// `edited.csv`: the rows of a problem in the form of a source, in measure order, with every bound written: at most 67,108,864
/// bytes. Each row's grade has to be one of the settings, and its weight that of this grade for its target. It reads back, with
/// the same settings and classes, as the same problem.
pub fn edited_text(alloc: Global, s: &Settings, p: &Problem) -> Result<Vec<u8>, NoMemory>
    requires { All (HasGrade s.now) p.now.rows }
    ensures text { IfOk result (λ v. v.items ≡ source_text s.now p.now) }
    ensures reads_back { IfOk result (λ v. source_of s.now p.now.classes v.items ≡ Ok p.now) }
    ensures short { IfOk result (λ v. length v.items ≤ 67108864) }
{
    source_short(s, p);
    print_source(alloc, s, p)
}
