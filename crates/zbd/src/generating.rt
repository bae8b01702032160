// Serving a workload in memory.
use crate::ending::report_generated;
use zb_outside::StdSink;
use zb_tally::generate;

/// Serves the workload that the words ask for, writes what came of it on standard output, and answers the exit status.
pub fn generate_plan(rt: &HostRuntime, words: &[String]) -> u8 {
    let generated = generate(rt.alloc(), words, StdSink::new(rt.stdout()));
    let _ = report_generated(rt, words, &generated);
    generated.status
}
