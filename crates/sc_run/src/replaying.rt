//! Tells what policies do in a world.
ghost use Rattle.std.specs.Prelude.{◌≡◌, ◌<◌, ◌≤◌, Err};
ghost use Rattle.sc_outside.specs.Counts.{Rose};
ghost use Rattle.sc_reports.specs.Lines.{PutsLines};
ghost use Rattle.sc_run.specs.Replays.{Replayed};

use sc_inputs::Scene;
use sc_lists::Text;
use sc_outside::{Sink, SinkFault};
use sc_replay::report_of;
use std::alloc::Global;

/// Puts out lines, one after another.
pub(crate) fn put_lines<O: Sink>(lines: &[Text], out: &mut O) -> Result<(), SinkFault>
    ensures puts { PutsLines lines.now (O.written out.old) (O.written out.new) (Rose (O.faults out.old)
        (O.faults out.new)) result }
    ensures later { O.faults out.old ≤ O.faults out.new }
    ensures told { O.faults out.old < O.faults out.new → result ≡ Err SinkFault.Failed }
{
    for line in lines {
        match out.write(line.as_str().as_bytes()) {
            Ok(()) => {}
            Err(fault) => return Err(fault),
        }
    }
    Ok(())
}

/// Tells whether the world of a scene is well-formed, what each policy answers in it, and what the
/// policies decide. Gives the status.
pub fn replay<O: Sink>(alloc: Global, scene: &Scene, out: &mut O) -> u8
    ensures replays { Replayed scene.now (O.written out.old) (O.written out.new) (Rose (O.faults out.old)
        (O.faults out.new)) result }
    ensures told { O.faults out.old < O.faults out.new → result ≡ 21 }
{
    let Ok(report) = report_of(alloc, &scene.schema, &scene.policies, &scene.world) else {
        return 30;
    };
    match put_lines(report.lines.as_slice(), out) {
        Ok(()) => report.status(),
        Err(SinkFault::Failed) => 21,
        Err(SinkFault::NoMemory) => 30,
    }
}
