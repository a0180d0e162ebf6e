//! Files that end too early.

use crate::years::{FLAT, GAP, SMALL, SOURCE_HEADER, ends, joined};
use std::alloc::Global;
use std::test::Fail;
use sut_classes::ClassFault;
use sut_outside::{FileName, MemorySink, SteadyShelf};
use sut_run::Status;

// The records of a text without quotes and empty lines.
fn records(text: &[u8]) -> u64 {
    text.split(|byte| *byte == b'\n')
        .filter(|line| !line.is_empty())
        .count() as u64
}

// The file that a fault names, and the line where it has one.
fn place_of(status: &Status) -> Option<(FileName, Option<u64>)> {
    match status {
        Status::BadSettings(_) => Some((FileName::SettingsToml, None)),
        Status::BadClasses(fault) => Some((FileName::ClassesCsv, line_of(fault))),
        Status::BadSource(fault) => Some((FileName::SourceCsv, Some(fault.line))),
        _ => None,
    }
}

fn line_of(fault: &ClassFault) -> Option<u64> {
    match fault {
        ClassFault::Csv(line)
        | ClassFault::UnknownAxis(line)
        | ClassFault::BadCode(line)
        | ClassFault::UnknownKind(line)
        | ClassFault::UnknownGroup(line)
        | ClassFault::Duplicate(line) => Some(*line),
        ClassFault::Header | ClassFault::TooMany(_) | ClassFault::NoMemory => None,
    }
}

/// The three files, in the order of reading.
const NAMES: [FileName; 3] = [
    FileName::SettingsToml,
    FileName::ClassesCsv,
    FileName::SourceCsv,
];

// Whether the run with these texts is done, or refuses this file or a later one, at most one line past its last record.
fn is_lawful(alloc: Global, texts: [&[u8]; 3], cut: usize) -> Result<bool, Fail> {
    let mut shelf = SteadyShelf::new(alloc);
    for (name, text) in NAMES.iter().zip(texts) {
        shelf.place(*name, text)?;
    }
    let mut out = MemorySink::new(alloc, 1000, Vec::new(alloc))?;
    let status = ends(alloc, &["balance"], &mut shelf, &mut out)?;
    let Some((name, line)) = place_of(&status) else {
        return Ok(status == Status::Balanced || status == Status::Infeasible);
    };
    let Some(place) = NAMES.iter().position(|other| *other == name) else {
        return Ok(false);
    };
    let Some(text) = texts.get(place) else {
        return Ok(false);
    };
    Ok(place >= cut && line.is_none_or(|line| line <= records(text).saturating_add(1)))
}

#[test]
fn each_file_cut_at_each_length(rt: HostRuntime) -> Result<(), Fail> {
    let source = joined(rt.alloc(), SOURCE_HEADER, GAP)?;
    let texts = [FLAT.as_bytes(), SMALL.as_bytes(), source.as_bytes()];
    for (cut, text) in texts.iter().enumerate() {
        for length in 0..=text.len() {
            let mut shorter = texts;
            if let Some(place) = shorter.get_mut(cut) {
                *place = text.get(..length).unwrap_or(text);
            }
            assert!(rt;
                is_lawful(rt.alloc(), shorter, cut)?,
                "file {cut} at {length}"
            );
        }
    }
    Ok(())
}
