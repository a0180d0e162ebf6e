//! Worked sources, printed.

ghost use Rattle.std.specs.Prelude.{All};
ghost use Rattle.sut_source.specs.SourceText.{HasGrade};

use std::alloc::Global;
use sut_classes::{Classes, read_classes};
use sut_settings::{Settings, read_settings};
use sut_source::{print_source, read_source};
use sut_tables::Problem;

const CLASSES: &str = "axis,code,kind\nproduct,X,plain\nindustry,A,\nfinal,F,\nitem,V,\n";

fn print_as(alloc: Global, settings: &Settings, problem: &Problem, want: &str) -> bool
    requires { All (HasGrade settings.now) problem.now.rows }
{
    match print_source(alloc, settings, problem) {
        Ok(text) => text.as_slice() == want.as_bytes(),
        Err(_) => false,
    }
}

fn prints_under(
    alloc: Global,
    settings: &Settings,
    classes: Classes,
    source: &str,
    want: &str,
) -> bool {
    match read_source(alloc, settings, classes, source.as_bytes()) {
        Ok(problem) => print_as(alloc, settings, &problem, want),
        Err(_) => false,
    }
}

fn prints_with(alloc: Global, settings: &Settings, source: &str, want: &str) -> bool {
    match read_classes(alloc, CLASSES.as_bytes()) {
        Ok(classes) => prints_under(alloc, settings, classes, source, want),
        Err(_) => false,
    }
}

// Whether a source under these settings prints as this text.
fn prints(alloc: Global, settings: &str, source: &str, want: &str) -> bool {
    match read_settings(alloc, settings.as_bytes()) {
        Ok(settings) => prints_with(alloc, &settings, source, want),
        Err(_) => false,
    }
}

#[test]
fn default_bounds_are_written(rt: HostRuntime) {
    let source =
        "kind,a,b,c,target,grade,lower,upper\nadded,V,A,,,,0,1000\nbasic,X,F,,104,,,\nmake,X,A,,100,,,\n";
    let want =
        "kind,a,b,c,target,grade,lower,upper\nmake,X,A,,100,,0,1000000000000\nbasic,X,F,,104,,0,1000000000000\nadded,V,A,,,,0,1000\n";
    let holds = prints(rt.alloc(), "scheme = \"flat\"\n", source, want);
    assert!(rt; holds);
}

#[test]
fn grades_and_penalties_are_written(rt: HostRuntime) {
    let settings = "scheme = \"flat\"\n[grades]\nA = 100\nW = 3\n";
    let source =
        "kind,a,b,c,target,grade,lower,upper\nmake,X,A,,-100,W:abs,,\nbasic,X,F,,104,:band:2,,\nadded,V,A,,7,A,-5,\n";
    let want =
        "kind,a,b,c,target,grade,lower,upper\nmake,X,A,,-100,W:abs,-1000000000000,0\nbasic,X,F,,104,:band:2,0,1000000000000\nadded,V,A,,7,A,-5,1000000000000\n";
    let holds = prints(rt.alloc(), settings, source, want);
    assert!(rt; holds);
}
