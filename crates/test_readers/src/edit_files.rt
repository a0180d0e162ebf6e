//! A small year, and edits of it.

use std::alloc::Global;
use std::test::Fail;
use sut_classes::{Classes, read_classes};
use sut_edits::{EditLine, EditsFault, read_edits};
use sut_settings::{Settings, read_settings};

/// One product, one industry, one final use, one item.
pub(crate) const CLASSES: &str =
    "axis,code,kind\nproduct,X,plain\nindustry,A,\nfinal,F,\nitem,V,\n";

/// One grade.
pub(crate) const SETTINGS: &str = "scheme = \"flat\"\n[grades]\nW = 3\n";

/// The header of a file of edits.
pub(crate) const HEADER: &str = "edit,kind,a,b,c,target,grade,lower,upper\n";

/// A file of these lines.
pub(crate) fn under_header(alloc: Global, lines: &str) -> Result<String, Fail> {
    let mut text = String::from_str(alloc, HEADER)?;
    text.push_str(lines)?;
    Ok(text)
}

fn edits_with(
    alloc: Global,
    settings: &Settings,
    text: &str,
) -> Option<Result<Vec<EditLine>, EditsFault>> {
    match read_classes(alloc, CLASSES.as_bytes()) {
        Ok(classes) => Some(edits_under(alloc, settings, &classes, text)),
        Err(_) => None,
    }
}

fn edits_under(
    alloc: Global,
    settings: &Settings,
    classes: &Classes,
    text: &str,
) -> Result<Vec<EditLine>, EditsFault> {
    read_edits(alloc, settings, classes, text.as_bytes())
}

/// What the file gives in the small year.
pub(crate) fn edits_in(alloc: Global, text: &str) -> Option<Result<Vec<EditLine>, EditsFault>> {
    match read_settings(alloc, SETTINGS.as_bytes()) {
        Ok(settings) => edits_with(alloc, &settings, text),
        Err(_) => None,
    }
}
