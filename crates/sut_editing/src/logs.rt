//! What a run of edits writes down.

ghost use Rattle.std.specs.Prelude.{◌≡◌, ◌≤◌, ◌+◌, ◌++◌, [], IfOk, OnOk, true, false};
ghost use Rattle.sut_text.specs.Text.{line_text};
ghost use Rattle.sut_write.specs.Answers.{HasAdmissibleTable};
ghost use Rattle.sut_write.specs.Screen.{rebalance_text};
ghost use Rattle.sut_write.specs.Trail.{answer_lines, trail_header};

use no_memory::NoMemory;
use std::alloc::Global;
use sut_cert::Answer;
use sut_tables::Problem;
use sut_text::put_bytes;
use sut_write::{put_rebalance, put_trail_lines};

/// `trail.csv` and the printed lines so far, the number of rebalances, and whether the last line was one.
#[derive(Drop)]
pub(crate) struct Log {
    pub(crate) trail: Vec<u8>,
    pub(crate) lines: Vec<u8>,
    pub(crate) rebalances: u64,
    pub(crate) marked: bool,
}

pub(crate) fn new_log(alloc: Global) -> Result<Log, NoMemory>
    ensures trail { IfOk result (λ log. log.trail.items ≡ line_text trail_header) }
    ensures lines { IfOk result (λ log. log.lines.items ≡ []) }
    ensures rebalances { IfOk result (λ log. log.rebalances ≡ 0) }
    ensures marked { IfOk result (λ log. log.marked ≡ false) }
{
    let mut trail = Vec::new(alloc);
    put_bytes(&mut trail, b"balance,kind,a,b,c,value\n")?;
    Ok(Log {
        trail,
        lines: Vec::new(alloc),
        rebalances: 0,
        marked: false,
    })
}

/// Writes down a rebalance.
pub(crate) fn log_answer(
    log: &mut Log,
    place: Option<u64>,
    p: &Problem,
    a: &Answer,
) -> Result<(), NoMemory>
    requires few { log.old.rebalances ≤ 15 }
    requires table { HasAdmissibleTable p.now a.now }
    ensures trail { OnOk result (log.new.trail.items ≡ log.old.trail.items ++ answer_lines (log.old.rebalances + 1) p.now a.now) }
    ensures lines { OnOk result (log.new.lines.items ≡ log.old.lines.items ++ rebalance_text place p.now a.now) }
    ensures rebalances { OnOk result (log.new.rebalances ≡ log.old.rebalances + 1) }
    ensures marked { OnOk result (log.new.marked ≡ true) }
{
    log.rebalances += 1;
    put_trail_lines(&mut log.trail, log.rebalances, p, a)?;
    put_rebalance(&mut log.lines, place, p, a)?;
    log.marked = true;
    Ok(())
}
