//! How answers and faults are reported, with the exit status.
ghost use Rattle.clr_command_line.specs.Report.{Reports, ReportsEnd, ReportsFault, ReportsRun};
ghost use Rattle.clr_command_line.specs.Report.{ReportsServed, ReportsText};

use clr_commands::replies::Printed;
use clr_edge::fault::Fault;
use clr_edge::line::line_of;
use clr_edge::output::write_out;
use clr_stream::CountedFlush;

/// Writes an answer to `output`, or a fault to `errors`, and returns the exit status: 0, or 1 after
/// a fault. What cannot be written to `errors` is lost.
pub fn report<W: CountedFlush, E: CountedFlush>(
    answer: Result<String, Fault>,
    output: &mut W,
    errors: &mut E,
) -> u8
    ensures { Reports answer result
        (W.stream output.old) (W.stream output.new) (E.stream errors.old) (E.stream errors.new) }
{
    match answer {
        Ok(text) => report_text(text.as_str(), None, output, errors),
        Err(fault) => report_fault(fault, errors),
    }
}

/// The same of what `run` printed, and of the fault that ended it.
pub fn report_run<W: CountedFlush, E: CountedFlush>(
    answer: Result<Printed, Fault>,
    output: &mut W,
    errors: &mut E,
) -> u8
    ensures { ReportsRun answer result
        (W.stream output.old) (W.stream output.new) (E.stream errors.old) (E.stream errors.new) }
{
    match answer {
        Ok(printed) => report_text(printed.text.as_str(), printed.fault, output, errors),
        Err(fault) => report_fault(fault, errors),
    }
}

/// Writes a text, and then the fault that ended it, if one did. A text that cannot be written is a
/// fault.
pub fn report_text<W: CountedFlush, E: CountedFlush>(
    text: &str,
    fault: Option<Fault>,
    output: &mut W,
    errors: &mut E,
) -> u8
    ensures { ReportsText text.now fault result
        (W.stream output.old) (W.stream output.new) (E.stream errors.old) (E.stream errors.new) }
{
    match write_out(text, output) {
        Ok(()) => report_end(fault, errors),
        Err(_) => report_fault(Fault::Output, errors),
    }
}

/// The status of a server, an archive or a journal that came to its end, of which a fault is
/// written.
pub fn report_served<E: CountedFlush>(served: Result<(), Fault>, errors: &mut E) -> u8
    ensures { ReportsServed served result (E.stream errors.old) (E.stream errors.new) }
{
    match served {
        Ok(()) => 0,
        Err(fault) => report_fault(fault, errors),
    }
}

/// The status of what went out, of which the fault that ended it is written.
fn report_end<E: CountedFlush>(fault: Option<Fault>, errors: &mut E) -> u8
    ensures { ReportsEnd fault result (E.stream errors.old) (E.stream errors.new) }
{
    match fault {
        Some(fault) => report_fault(fault, errors),
        None => 0,
    }
}

/// Writes the line of a fault, and returns the status after it. It takes no memory.
pub fn report_fault<E: CountedFlush>(fault: Fault, errors: &mut E) -> u8
    ensures { ReportsFault fault result (E.stream errors.old) (E.stream errors.new) }
{
    let line = line_of(&fault);
    let _ = write_out(line.as_str(), errors);
    1
}
