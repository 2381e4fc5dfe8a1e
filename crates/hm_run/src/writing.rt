//! Writing a text to a sink.
ghost use Rattle.std.specs.Prelude.{◌≢◌, OnOk, OnErr};
ghost use Rattle.hm_outside.specs.Streams.{Put};
ghost use Rattle.hm_run.specs.Statuses.{code_of};
ghost use Rattle.hm_run.specs.Streams.{MetFault, IsSound, IsFrontPut, IsWritten, sink_of};
ghost use Rattle.hm_run.specs.declared.status.Status.TheVariants as statuses;

use crate::status::Status;
use hm_outside::{Sink, SinkFault};

// Writes the whole text, or a front of it where the sink fails.
fn write_all<K: Sink>(sink: &mut K, text: &[u8]) -> Result<(), SinkFault>
    ensures whole { OnOk result (Put (K.held sink.old) (K.held sink.new) text.now) }
    ensures sound { OnOk result (IsSound (sink_of K.Sink sink.old sink.new)) }
    ensures front { OnErr result (IsFrontPut (sink_of K.Sink sink.old sink.new) text.now) }
    ensures fault { OnErr result (MetFault (sink_of K.Sink sink.old sink.new)) }
{
    let mut at = 0;
    'turns: while at < text.len() {
        match sink.put(&text[at..])? {
            0 => return Err(SinkFault),
            count => at += count,
        }
    }
    Ok(())
}

/// Writes the text and answers the status that is planned, or that of a failed sink.
pub fn finish<K: Sink>(sink: &mut K, planned: Status, text: &[u8]) -> Status
    ensures written { IsWritten (code_of result) (code_of planned) (sink_of K.Sink sink.old sink.new) text.now }
    ensures status { code_of planned ≢ code_of statuses.NoMemory → code_of result ≢ code_of statuses.NoMemory }
{
    match write_all(sink, text) {
        Ok(()) => planned,
        Err(_) => Status::WriteFault,
    }
}
