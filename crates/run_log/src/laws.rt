//! Laws of logs. Each is a call that does nothing and promises the law.

ghost use Rattle.run_log.specs.Laws.{LogsTellOneRun};

/// A text of at most 67,108,864 bytes is the log of at most one run. So the log of a run is read back as that run.
pub fn logs_tell_one_run()
    ensures { LogsTellOneRun }
{}
