// Showing a real log.
use crate::ending::report_shown;
use crate::files::open_volume_of;
use crate::start_error::StartError;
use zb_outside::StdSink;
use zb_show::show_log;
use zb_words::LogPlan;

/// Shows the log that a plan asks for on standard output, and answers the exit status.
pub fn show_plan(rt: &HostRuntime, words: &[String], plan: &LogPlan) -> Result<u8, StartError> {
    let directory = plan.dir.as_str();
    let volume = open_volume_of(rt, rt.alloc(), directory, plan.partition)?;
    let shown = show_log(rt.alloc(), words, volume, StdSink::new(rt.stdout()));
    let _ = report_shown(rt, words, &shown, directory, plan.partition);
    Ok(shown.status)
}
